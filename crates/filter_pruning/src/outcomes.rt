//! Sets of truth values.

ghost use Rattle.std.specs.Prelude.{◌≡◌};
ghost use Rattle.filter_pruning.specs.Words.{allows, any, is_only_true, only, outcomes_and, outcomes_not, outcomes_or};

use vortex_filter::Truth;

/// What a filter can be on the rows of a zone: the truth values that are possible.
#[derive(Clone, Copy, Debug, PartialEq, Eq)]
pub struct Outcomes {
    /// Whether it can be False on a row.
    pub may_be_false: bool,
    /// Whether it can be Unknown on a row.
    pub may_be_unknown: bool,
    /// Whether it can be True on a row.
    pub may_be_true: bool,
}

impl Outcomes {
    /// All three, as if nothing is known.
    pub fn any() -> Outcomes
        ensures { result ≡ any }
    {
        Outcomes {
            may_be_false: true,
            may_be_unknown: true,
            may_be_true: true,
        }
    }

    /// This truth value alone.
    pub fn only(truth: Truth) -> Outcomes
        ensures { result ≡ only truth }
    {
        Outcomes {
            may_be_false: matches!(truth, Truth::False),
            may_be_unknown: matches!(truth, Truth::Unknown),
            may_be_true: matches!(truth, Truth::True),
        }
    }

    /// Whether this truth value is possible.
    pub fn allows(self, truth: Truth) -> bool
        ensures { result ≡ allows self truth }
    {
        match truth {
            Truth::False => self.may_be_false,
            Truth::Unknown => self.may_be_unknown,
            Truth::True => self.may_be_true,
        }
    }

    /// Whether nothing but True is possible.
    pub fn is_only_true(self) -> bool
        ensures { result ≡ is_only_true self }
    {
        !(self.may_be_false || self.may_be_unknown)
    }

    /// What two filters are together, by `And`.
    pub fn and(self, other: Outcomes) -> Outcomes
        ensures { result ≡ outcomes_and self other }
    {
        Outcomes {
            may_be_false: self.may_be_false || other.may_be_false,
            may_be_unknown: (self.may_be_unknown && (other.may_be_unknown || other.may_be_true))
                || (self.may_be_true && other.may_be_unknown),
            may_be_true: self.may_be_true && other.may_be_true,
        }
    }

    /// What two filters are together, by `Or`.
    pub fn or(self, other: Outcomes) -> Outcomes
        ensures { result ≡ outcomes_or self other }
    {
        Outcomes {
            may_be_false: self.may_be_false && other.may_be_false,
            may_be_unknown: (self.may_be_unknown && (other.may_be_unknown || other.may_be_false))
                || (self.may_be_false && other.may_be_unknown),
            may_be_true: self.may_be_true || other.may_be_true,
        }
    }

    /// What a filter is if it is negated.
    pub fn negate(self) -> Outcomes
        ensures { result ≡ outcomes_not self }
    {
        Outcomes {
            may_be_false: self.may_be_true,
            may_be_unknown: self.may_be_unknown,
            may_be_true: self.may_be_false,
        }
    }
}
