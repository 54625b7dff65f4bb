//! The laws of filters that are asked of members: what holds of all of them, whatever calls gave them.
//!
//! These functions do nothing when they run. The contract of each is a law over the definitions in
//! `specs/`, and its proof is the law's proof.

ghost use Rattle.filter_membership.specs.Laws.{FiltersAreMembers, PredicatesCover};

/// What a filter asks is answered rightly: on each row of a zone whose columns have the members, the
/// filter is one of the outcomes.
pub fn predicates_cover()
    ensures { PredicatesCover }
{}

/// Bloom filters of columns are the members of a zone, if each that is there has the values of its column.
pub fn filters_are_members()
    ensures { FiltersAreMembers }
{}
