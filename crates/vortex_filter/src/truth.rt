//! The truth values of a filter.

ghost use Rattle.std.specs.Prelude.{◌≡◌};
ghost use Rattle.vortex_filter.specs.Words.{truth_and, truth_not, truth_of, truth_or};

/// SQL's three truth values: what a filter says of a row.
#[derive(Clone, Copy, Debug, PartialEq, Eq)]
pub enum Truth {
    /// The row does not match.
    False,
    /// It is not known whether the row matches: a null was compared, or values without an order.
    Unknown,
    /// The row matches.
    True,
}

impl Truth {
    /// True or False.
    pub fn of(holds: bool) -> Truth
        ensures { result ≡ truth_of holds }
    {
        if holds { Truth::True } else { Truth::False }
    }

    /// False if one of the two is, else Unknown if one is.
    pub fn and(self, other: Truth) -> Truth
        ensures { result ≡ truth_and self other }
    {
        match (self, other) {
            (Truth::False, _) | (_, Truth::False) => Truth::False,
            (Truth::True, Truth::True) => Truth::True,
            _ => Truth::Unknown,
        }
    }

    /// True if one of the two is, else Unknown if one is.
    pub fn or(self, other: Truth) -> Truth
        ensures { result ≡ truth_or self other }
    {
        match (self, other) {
            (Truth::True, _) | (_, Truth::True) => Truth::True,
            (Truth::False, Truth::False) => Truth::False,
            _ => Truth::Unknown,
        }
    }

    /// True for False, and False for True; Unknown stays.
    pub fn negate(self) -> Truth
        ensures { result ≡ truth_not self }
    {
        match self {
            Truth::False => Truth::True,
            Truth::Unknown => Truth::Unknown,
            Truth::True => Truth::False,
        }
    }
}
