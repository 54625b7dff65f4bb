//! The truth values of 64 rows.

ghost use Rattle.std.specs.Prelude.{◌≡◌, ◌<◌, ◌↔◌, ℕ, IsTrue, Some, false, true};
ghost use Rattle.truth_bitmaps.specs.Truths.{AreRows, is_set, truth_and, truth_in};
ghost use Rattle.truth_bitmaps.specs.Truths.{truth_not, truth_of, truth_or, under_null};

/// The truth values of 64 rows: two bits for each, from the least significant one on.
#[derive(Clone, Copy, Debug, PartialEq, Eq)]
pub struct TruthWord {
    /// The rows of which it is True.
    pub is_true: u64,
    /// The rows of which it is Unknown, unless it is True.
    pub is_unknown: u64,
}

impl TruthWord {
    /// One truth value of all rows: None is Unknown.
    pub fn of(truth: Option<bool>) -> TruthWord
        ensures { (row : ℕ) → row < 64 → truth_in result row ≡ truth }
    {
        match truth {
            Some(true) => TruthWord::known(u64::MAX),
            Some(false) => TruthWord::known(0),
            None => TruthWord {
                is_true: 0,
                is_unknown: u64::MAX,
            },
        }
    }

    /// True of the rows whose bits are set, and False of the others.
    pub fn known(is_true: u64) -> TruthWord
        ensures { (row : ℕ) → row < 64 → truth_in result row ≡ Some (is_set is_true row) }
    {
        TruthWord {
            is_true,
            is_unknown: 0,
        }
    }

    /// Whether it is False of each row.
    pub fn is_false_of_all(self) -> bool
        ensures { IsTrue result ↔ AreRows (Some false) self }
    {
        self.is_true | self.is_unknown == 0
    }

    /// Whether it is True of each row.
    pub fn is_true_of_all(self) -> bool
        ensures { IsTrue result ↔ AreRows (Some true) self }
    {
        self.is_true == u64::MAX
    }

    /// False if one of the two is, else Unknown if one is.
    pub fn and(self, other: TruthWord) -> TruthWord
        ensures { (row : ℕ) → row < 64
            → truth_in result row ≡ truth_and (truth_in self row) (truth_in other row) }
    {
        TruthWord {
            is_true: self.is_true & other.is_true,
            is_unknown: (self.is_true | self.is_unknown) & (other.is_true | other.is_unknown),
        }
    }

    /// True if one of the two is, else Unknown if one is.
    pub fn or(self, other: TruthWord) -> TruthWord
        ensures { (row : ℕ) → row < 64
            → truth_in result row ≡ truth_or (truth_in self row) (truth_in other row) }
    {
        TruthWord {
            is_true: self.is_true | other.is_true,
            is_unknown: self.is_unknown | other.is_unknown,
        }
    }

    /// True for False, and False for True; Unknown stays.
    pub fn negate(self) -> TruthWord
        ensures { (row : ℕ) → row < 64 → truth_in result row ≡ truth_not (truth_in self row) }
    {
        TruthWord {
            is_true: (self.is_true | self.is_unknown) ^ u64::MAX,
            is_unknown: self.is_unknown & (self.is_true ^ u64::MAX),
        }
    }

    /// Unknown of the rows whose bits are not set in this word of validity. The others stay.
    pub fn with_validity(self, valid: u64) -> TruthWord
        ensures { (row : ℕ) → row < 64
            → truth_in result row ≡ under_null (is_set valid row) (truth_in self row) }
    {
        TruthWord {
            is_true: self.is_true & valid,
            is_unknown: self.is_unknown | (valid ^ u64::MAX),
        }
    }
}
