//! The laws of members in pieces: what holds of all of them, whatever calls gave them.
//!
//! These functions do nothing when they run. The contract of each is a law over the definitions in
//! `specs/`, and its proof is the law's proof.

ghost use Rattle.zone_members.specs.Laws.{PiecesDecide};

/// The piece of a hash says of a zone what the zone's filter says. Where it was not read, the hash may be
/// contained.
pub fn pieces_decide()
    ensures { PiecesDecide }
{}
