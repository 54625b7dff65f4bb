//! What a filter can be on the rows of a zone, by the members of its columns.

ghost use Rattle.std.specs.Prelude.{◌≡◌, false};
ghost use Rattle.filter_membership.specs.Words.{Formula, MatchesNoRow, asked, list_outcomes, may_have, may_have_one};
ghost use Rattle.filter_membership.specs.Words.{members_outcomes, predicate_tree};

use crate::members::Members;
use filter_pruning::Outcomes;
use vortex_filter::Truth;

/// What a filter asks of the members of its columns. A literal stands there by the hash of its key, so it
/// is hashed once for all zones.
#[derive(Debug, Drop)]
pub enum MembershipPredicate {
    /// A test that members do not decide.
    Open,
    /// The same on every row.
    Constant(Truth),
    /// Whether a cell of the column is equal to one of the literals with these hashes. A literal without a
    /// key has none.
    OneOf {
        column: usize,
        hashes: Vec<Option<u64>>,
    },
    /// False if one of the two is, else Unknown if one is.
    And(Box<MembershipPredicate>, Box<MembershipPredicate>),
    /// True if one of the two is, else Unknown if one is.
    Or(Box<MembershipPredicate>, Box<MembershipPredicate>),
    /// True for False, and False for True; Unknown stays.
    Not(Box<MembershipPredicate>),
}

impl MembershipPredicate {
    /// What the filter can be on the rows of a zone, if these are the members of its columns.
    #[tactic(auto, using(crate::proofs::Steps::shown))]
    pub fn outcomes<M: Members>(&self, members: &M) -> Outcomes
        ensures { result ≡ members_outcomes (predicate_tree self.now) (M.may_have members.now) }
    {
        match self {
            MembershipPredicate::Open => Outcomes::any(),
            MembershipPredicate::Constant(truth) => Outcomes::only(*truth),
            MembershipPredicate::OneOf { column, hashes } => {
                outcomes_of_list(members, *column, hashes)
            }
            MembershipPredicate::And(left, right) => {
                left.outcomes(members).and(right.outcomes(members))
            }
            MembershipPredicate::Or(left, right) => {
                left.outcomes(members).or(right.outcomes(members))
            }
            MembershipPredicate::Not(inner) => inner.outcomes(members).negate(),
        }
    }

    /// Whether a row of the zone may match. If not, none does, and the zone can be skipped.
    pub fn may_match<M: Members>(&self, members: &M) -> bool
        ensures value { result
            ≡ (members_outcomes (predicate_tree self.now) (M.may_have members.now)).may_be_true }
        ensures loses_nothing { result ≡ false → (f : Formula) → predicate_tree self.now ≡ asked f
            → MatchesNoRow f (M.may_have members.now) }
    {
        self.outcomes(members).may_be_true
    }
}

/// What equality with one of the literals that have these hashes can be.
fn outcomes_of_list<M: Members>(members: &M, column: usize, hashes: &[Option<u64>]) -> Outcomes
    ensures { result ≡ list_outcomes (M.may_have members.now column) hashes.now }
{
    Outcomes {
        may_be_false: true,
        may_be_unknown: true,
        may_be_true: may_have_one(members, column, hashes),
    }
}

/// Whether the column may have one of the literals.
fn may_have_one<M: Members>(members: &M, column: usize, hashes: &[Option<u64>]) -> bool
    ensures { result ≡ may_have_one (M.may_have members.now column) hashes.now }
{
    for hash in hashes {
        if may_have(members, column, *hash) {
            return true;
        }
    }
    false
}

/// Whether the column may have a literal.
fn may_have<M: Members>(members: &M, column: usize, hash: Option<u64>) -> bool
    ensures { result ≡ may_have (M.may_have members.now column) hash }
{
    match hash {
        Some(hash) => members.may_have(column, hash),
        None => true,
    }
}
