//! The laws of filters: what holds of all of them, whatever calls gave them.
//!
//! These functions do nothing when they run. The contract of each is a law over the definitions in
//! `specs/`, and its proof is the law's proof.

ghost use Rattle.membership.specs.Laws.{SetsBits};

/// The bits of a filter are those of the hashes that were inserted.
pub fn bits_are_those_of_hashes()
    ensures { SetsBits }
{}
