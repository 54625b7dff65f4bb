//! What records mean to an index and a search.

ghost use Rattle.std.specs.Prelude.{◌≡◌, ℕ, List, Bool, IfErr, IfOk, None, OnOk, false, length, not, count_by, true};
ghost use Rattle.std.specs.Prelude.{sum_by};
ghost use Rattle.std.specs.List.{AllPass};
ghost use Rattle.csv_records.specs.Records.{records_of};
ghost use Rattle.zone_index.specs.Errors.{IfRecordRefused, TellsOffset, TellsOneOf, TellsRecord, before_refused};
ghost use Rattle.zone_index.specs.Records.{is_same};
ghost use Rattle.zone_index.specs.Sinks.{told};
ghost use Rattle.zone_index.specs.declared.errors.Cause.{Cause};
ghost use Rattle.zone_index.specs.declared.records.Decision.{Decision};
ghost use Rattle.zone_index.specs.declared.records.Decision.TheVariants.{AllMatch, NoneMatch};

use crate::errors::RecordError;
use csv_records::Delimiter;
use std::alloc::{AllocError, Global};

/// What the statistics of a zone say of its rows.
#[derive(Clone, Copy, Debug, PartialEq, Eq)]
pub enum Decision {
    /// No row matches.
    NoneMatch,
    /// Each row matches.
    AllMatch,
    /// Some rows may match.
    Unknown,
}

/// What is known of the records of a text.
#[derive(Debug, Drop)]
pub struct Described {
    /// How many records there are.
    pub records: u64,
    /// How many of them have a row.
    pub rows: u64,
    /// Statistics of the rows, in bytes.
    pub statistics: Vec<u8>,
    /// How many fields of them stand as a null since their columns do not take them. An index does
    /// not keep it.
    pub nulls: u64,
    /// How many of them have more fields than columns. An index does not keep it.
    pub longer: u64,
}

/// What records are.
pub trait Records {
    // The byte between two fields.
    ghost delimiter: { Self → ℕ };
    // Whether a record has a row.
    ghost has_row: { Self → List ℕ → Bool };
    // The bytes are statistics that are right for the rows of these records.
    ghost Describes: { Self → List ℕ → List (List ℕ) → Type 0 };
    // Whether a record is refused: it has fields, and they are no row.
    ghost is_refused: { Self → List ℕ → Bool };
    // Why a record is refused.
    ghost Refuses: { Self → List ℕ → Cause → Type 0 };

    /// The byte between two fields.
    fn delimiter_byte(&self) -> Delimiter
        ensures { result.byte ≡ delimiter self.now };
}

/// Describes the records of a zone.
pub trait Describer: Records {
    // The bytes are the statistics that are to be given of the rows of these records, and no weaker ones.
    ghost DescribesFully: { Self → List ℕ → List (List ℕ) → Type 0 };
    // How many fields of a record stand as a null since their columns do not take them.
    ghost nulls_of: { Self → List ℕ → ℕ };
    // 1 of a record that has more fields than columns, else 0.
    ghost longer_of: { Self → List ℕ → ℕ };

    /// What is known of the records of a text. `Refused` with the offset in the text of the first
    /// record that is refused, exactly if one is.
    fn describe(&self, alloc: Global, text: &[u8]) -> Result<Described, RecordError>
        ensures records { IfOk result (λ d. d.records ≡
            length (records_of (Self.delimiter self.now) text.now)) }
        ensures rows { IfOk result (λ d. d.rows ≡
            count_by (Self.has_row self.now) (records_of (Self.delimiter self.now) text.now)) }
        ensures describes { IfOk result (λ d. Self.Describes self.now d.statistics.items
            (records_of (Self.delimiter self.now) text.now)) }
        ensures full { IfOk result (λ d. DescribesFully self.now d.statistics.items
            (records_of (Self.delimiter self.now) text.now)) }
        ensures nulls { IfOk result (λ d. d.nulls ≡ told (sum_by (nulls_of self.now)
            (records_of (Self.delimiter self.now) text.now))) }
        ensures longer { IfOk result (λ d. d.longer ≡ told (sum_by (longer_of self.now)
            (records_of (Self.delimiter self.now) text.now))) }
        ensures passed { OnOk result (before_refused (Self.is_refused self.now)
            (records_of (Self.delimiter self.now) text.now) ≡ None) }
        ensures refused { IfErr result (IfRecordRefused (TellsOneOf (Self.Refuses self.now) 0
            (records_of (Self.delimiter self.now) text.now))) }
        ensures first { IfErr result (IfRecordRefused (TellsOffset 0 (before_refused (Self.is_refused self.now)
            (records_of (Self.delimiter self.now) text.now)))) };
}

/// Says which records match.
pub trait Matcher: Records {
    // Whether a record has a row, which matches.
    ghost matches: { Self → List ℕ → Bool };
    // What statistics decide.
    ghost decides: { Self → List ℕ → Decision };

    /// A buffer that is used again from record to record. What stands in it does not matter.
    type Scratch: Drop;

    /// Such a buffer, with nothing in it.
    fn scratch(&self, alloc: Global) -> Self::Scratch;

    /// Whether a record has a row, which matches. `Refused`, with the offset 0, exactly if it is refused.
    fn is_match(
        &self,
        alloc: Global,
        scratch: &mut Self::Scratch,
        line: &[u8],
    ) -> Result<bool, RecordError>
        ensures hit { IfOk result (λ hit. hit ≡ matches self.now line.now) }
        ensures passed { OnOk result (Self.is_refused self.now line.now ≡ false) }
        ensures refused { IfErr result (IfRecordRefused (TellsRecord (Self.Refuses self.now) 0 line.now)) }
        ensures right { IfErr result (IfRecordRefused (λ _. Self.is_refused self.now line.now ≡ true)) };

    /// Whether a record matches that has a row, as an index says of the records of a zone: the test may
    /// look at no more of it than it needs. `Refused`, with the offset 0, only if it is refused, which a record
    /// with a row is not.
    fn is_match_of_row(
        &self,
        alloc: Global,
        scratch: &mut Self::Scratch,
        line: &[u8],
    ) -> Result<bool, RecordError>
        ensures hit { IfOk result (λ hit. Self.has_row self.now line.now ≡ true → hit ≡ matches self.now line.now) }
        ensures passed { OnOk result (Self.has_row self.now line.now ≡ true
            → Self.is_refused self.now line.now ≡ false) }
        ensures refused { IfErr result (IfRecordRefused (TellsRecord (Self.Refuses self.now) 0 line.now)) }
        ensures right { IfErr result (IfRecordRefused (λ _. Self.is_refused self.now line.now ≡ true)) };

    /// What statistics say of the rows that they are of.
    fn decide(&self, alloc: Global, statistics: &[u8]) -> Result<Decision, AllocError>
        ensures value { IfOk result (λ d. d ≡ decides self.now statistics.now) }
        ensures none { decides self.now statistics.now ≡ NoneMatch → (records : List (List ℕ))
            → Self.Describes self.now statistics.now records
            → AllPass (λ line. not (matches self.now line)) records }
        ensures all { decides self.now statistics.now ≡ AllMatch → (records : List (List ℕ))
            → Self.Describes self.now statistics.now records
            → AllPass (λ line. is_same (matches self.now line) (Self.has_row self.now line)) records };
}
