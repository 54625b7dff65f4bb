//! The laws of members: what holds of all of them, whatever calls gave them.
//!
//! These functions do nothing when they run. The contract of each is a law over the definitions in
//! `specs/`, and its proof is the law's proof.

ghost use Rattle.value_membership.specs.Laws.{CastsKeepMembers, EqualValuesHaveOneHash, MembersMerge};

/// The union of the members of two pieces of a column are members of both together.
pub fn members_merge()
    ensures { MembersMerge }
{}

/// The members of a column are those of each column with the same contents, as a cast gives it.
pub fn casts_keep_members()
    ensures { CastsKeepMembers }
{}

/// Values that compare as equal have one hash.
pub fn equal_values_have_one_hash()
    ensures { EqualValuesHaveOneHash }
{}
