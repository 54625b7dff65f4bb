//! The kinds that fit the words of a column.

ghost use Rattle.std.specs.Prelude.{◌≡◌, ◌≢◌, ◌∷◌, ◌++◌, [], ℕ, All, IfNone, IfSome, List, false, is_some};
ghost use Rattle.std.specs.Prelude.{option_map, true};
ghost use Rattle.std.specs.List.{find};
ghost use Rattle.std.specs.Option.{option_and_then};
ghost use Rattle.logical_types.specs.Shapes.{decimals, shape_of, storage_in};
ghost use Rattle.record_rows.specs.Cells.{HasMeaning};
ghost use Rattle.record_rows.specs.declared.schema.Kind.TheVariants.{Utf8};
ghost use Rattle.vortex_dtype.specs.declared.ptype.PType.TheVariants.{I64, U64};
ghost use Rattle.csv_columns.specs.Kinds.{AreOf, Guessed, IsGuessed, Sees, all_write, are_digits};
ghost use Rattle.csv_columns.specs.Kinds.{are_numbers_as_texts, decimals_for, digits_of, fraction_of, guess_of};
ghost use Rattle.csv_columns.specs.Kinds.{is_integer, is_plain, is_size, is_whole, is_zero, is_texts, logical_for};
ghost use Rattle.csv_columns.specs.Kinds.{size_of, timestamp_types, whole_of};

use logical_types::laws::shapes_say_words;
use logical_types::storage_of_word;
use record_rows::{DecimalType, Kind, LogicalType, TimeUnit};
use std::str;
use vortex_dtype::PType;

/// How many digits a decimal has at most that is stored as an integer.
const FEW_DIGITS: usize = 18;

/// How many digits a decimal has at most.
const MOST_DIGITS: usize = 38;

/// Microseconds without a zone.
const LOCAL: LogicalType = LogicalType::Timestamp {
    unit: TimeUnit::Microseconds,
    is_zoned: false,
};

/// Microseconds with an offset.
const ZONED: LogicalType = LogicalType::Timestamp {
    unit: TimeUnit::Microseconds,
    is_zoned: true,
};

/// Nanoseconds without a zone.
const FINE_LOCAL: LogicalType = LogicalType::Timestamp {
    unit: TimeUnit::Nanoseconds,
    is_zoned: false,
};

/// Nanoseconds with an offset.
const FINE_ZONED: LogicalType = LogicalType::Timestamp {
    unit: TimeUnit::Nanoseconds,
    is_zoned: true,
};

/// What the words of a column are, as far as they were seen.
#[derive(Clone, Copy)]
pub(crate) struct Guess {
    /// Whether there was one that is no null.
    is_seen: bool,
    /// Whether each is a number of an i64, written as such numbers are.
    fits_signed: bool,
    /// Whether each is one of a u64.
    fits_unsigned: bool,
    /// The digits of the longest, if each is a decimal, written as decimals are but for zeros behind the point.
    decimals: Option<Digits>,
    /// Whether each is a number of any spelling.
    are_numbers: bool,
    /// Whether each is a date.
    are_dates: bool,
    /// The timestamps that each is, if there are some.
    timestamps: Timestamps,
}

/// How many digits numbers have at most.
#[derive(Clone, Copy)]
pub(crate) struct Digits {
    /// Before the point.
    whole: usize,
    /// Behind the point.
    places: usize,
}

/// Which timestamps words are.
#[derive(Clone, Copy)]
pub(crate) struct Timestamps {
    /// Whether each is one of microseconds without a zone.
    local: bool,
    /// Whether each is one of microseconds with an offset.
    zoned: bool,
    /// Whether each is one of nanoseconds without a zone.
    fine_local: bool,
    /// Whether each is one of nanoseconds with an offset.
    fine_zoned: bool,
}

impl Timestamps {
    /// What is known before any word.
    const FIRST: Timestamps = Timestamps {
        local: true,
        zoned: true,
        fine_local: true,
        fine_zoned: true,
    };

    /// What is known after one more word.
    fn after(self, word: &[u8]) -> Timestamps
        ensures { (words : List (List ℕ)) → AreOf words self → AreOf (words ++ word.now ∷ []) result }
    {
        Timestamps {
            local: still_write(self.local, LOCAL, word),
            zoned: still_write(self.zoned, ZONED, word),
            fine_local: still_write(self.fine_local, FINE_LOCAL, word),
            fine_zoned: still_write(self.fine_zoned, FINE_ZONED, word),
        }
    }

    /// The type that fits all words, if there is one: of microseconds if these do.
    fn logical(self) -> Option<LogicalType>
        ensures { (words : List (List ℕ)) → AreOf words self
            → option_map shape_of result ≡ find (all_write words) timestamp_types }
    {
        if self.local {
            Some(LOCAL)
        } else if self.zoned {
            Some(ZONED)
        } else if self.fine_local {
            Some(FINE_LOCAL)
        } else if self.fine_zoned {
            Some(FINE_ZONED)
        } else {
            None
        }
    }
}

/// Whether the words before, as is given, and this one write values of a logical type.
fn still_write(before: bool, logical: LogicalType, word: &[u8]) -> bool
    ensures { (words : List (List ℕ)) → before ≡ all_write words (shape_of logical)
        → result ≡ all_write (words ++ word.now ∷ []) (shape_of logical) }
{
    before && is_written(logical, word)
}

/// Whether a word writes a value of a logical type.
fn is_written(logical: LogicalType, word: &[u8]) -> bool
    ensures { result ≡ is_some (storage_in (shape_of logical) word.now) }
{
    shapes_say_words();
    storage_of_word(logical, word).is_some()
}

impl Guess {
    /// What is known before any word.
    pub const FIRST: Guess = Guess {
        is_seen: false,
        fits_signed: true,
        fits_unsigned: true,
        decimals: Some(Digits {
            whole: 1,
            places: 0,
        }),
        are_numbers: true,
        are_dates: true,
        timestamps: Timestamps::FIRST,
    };

    /// What is known after one more word, which is no null.
    pub fn after(self, word: &[u8]) -> Guess
        ensures { (words : List (List ℕ)) → Sees self words → Sees result (words ++ word.now ∷ []) }
    {
        let (is_signed, is_unsigned) = integers_of(word);
        Guess {
            is_seen: true,
            fits_signed: self.fits_signed && is_signed,
            fits_unsigned: self.fits_unsigned && is_unsigned,
            decimals: longest(self.decimals, word),
            are_numbers: still_write(self.are_numbers, LogicalType::Float64, word),
            are_dates: still_write(self.are_dates, LogicalType::Date, word),
            timestamps: self.timestamps.after(word),
        }
    }

    /// The kind that fits all words: numbers, dates or timestamps if all are, else strings.
    pub fn kind(self) -> Kind
        ensures guessed { (words : List (List ℕ)) → Sees self words → IsGuessed (guess_of words) result }
        // Each word that was seen is a value of the kind.
        ensures fits { (words : List (List ℕ)) → Sees self words
            → result ≢ Utf8 → All (HasMeaning result) words }
    {
        shapes_say_words();
        if !self.is_seen {
            return Kind::Utf8;
        }
        if self.fits_signed {
            return Kind::Integer(PType::I64);
        }
        if self.fits_unsigned {
            return Kind::Integer(PType::U64);
        }
        match self.logical() {
            Some(logical) => Kind::Logical(logical),
            None => Kind::Utf8,
        }
    }

    /// The logical type that fits all words, if there is one.
    fn logical(self) -> Option<LogicalType>
        ensures { (words : List (List ℕ)) → Sees self words
            → option_map shape_of result ≡ logical_for words }
    {
        if let Some(decimal) = decimal_of(self.decimals) {
            return Some(LogicalType::Decimal(decimal));
        }
        if self.are_dates {
            return Some(LogicalType::Date);
        }
        self.timestamps.logical()
    }

    /// Whether the words are numbers, and the kind is text all the same.
    pub fn has_numbers_as_text(self) -> bool
        ensures { (words : List (List ℕ)) → Sees self words → result ≡ are_numbers_as_texts words }
    {
        self.is_seen && self.are_numbers && is_text(self.kind())
    }
}

/// Whether a kind is that of strings.
fn is_text(kind: Kind) -> bool
    ensures { (guess : Guessed) → IsGuessed guess kind → result ≡ is_texts guess }
{
    match kind {
        Kind::Utf8 => true,
        _ => false,
    }
}

/// Whether a word is a number of an i64, and one of a u64. One with a sign `+` or with zeros in
/// front is none, so that no two words become one value.
fn integers_of(word: &[u8]) -> (bool, bool)
    ensures signed { result.0 ≡ is_integer I64 word.now }
    ensures unsigned { result.1 ≡ is_integer U64 word.now }
{
    match plain_number(word) {
        Some(text) => (text.parse::<i64>().is_ok(), text.parse::<u64>().is_ok()),
        None => (false, false),
    }
}

/// The digits of the longest number so far and of a word, if both are decimals.
fn longest(decimals: Option<Digits>, word: &[u8]) -> Option<Digits>
    ensures { (words : List (List ℕ)) → decimals ≡ digits_of words
        → result ≡ digits_of (words ++ word.now ∷ []) }
{
    let Some(before) = decimals else {
        return None;
    };
    let Some(text) = plain_number(word) else {
        return None;
    };
    let (whole, fraction) = parts_of(size_of(text));
    Some(Digits {
        whole: before.whole.max(whole.len()),
        places: before.places.max(fraction.len()),
    })
}

/// The text of a word that is a number, if it is written as decimals are but for zeros behind the point: perhaps
/// a minus, digits without a zero in front, and perhaps a point and digits. None of a zero with a minus.
fn plain_number(word: &[u8]) -> Option<&str>
    ensures some { IfSome result (λ text. (text.now ≡ word.now) × (is_plain word.now ≡ true)) }
    ensures none { IfNone result (is_plain word.now ≡ false) }
{
    let Ok(text) = str::from_utf8(word) else {
        return None;
    };
    let size = size_of(text);
    if !is_size(size) || (is_zero(size) && size.len() < text.len()) {
        return None;
    }
    Some(text)
}

/// A number without its minus, if it has one.
fn size_of(text: &str) -> &str
    ensures { result.now ≡ size_of text.now }
{
    match text.strip_prefix('-') {
        Some(size) => size,
        None => text,
    }
}

/// What stands before the point and behind it.
fn parts_of(size: &str) -> (&str, &str)
    ensures whole { result.0.now ≡ whole_of size.now }
    ensures fraction { result.1.now ≡ fraction_of size.now }
{
    match size.split_once('.') {
        Some(parts) => parts,
        None => (size, ""),
    }
}

/// Whether a text is digits without a zero in front, and perhaps a point and digits.
fn is_size(size: &str) -> bool
    ensures { result ≡ is_size size.now }
{
    let (whole, fraction) = parts_of(size);
    is_whole(whole) && are_digits(fraction) && (whole.len() == size.len() || !fraction.is_empty())
}

/// Whether a text is digits, and begins with a zero only if that is all.
fn is_whole(text: &str) -> bool
    ensures { result ≡ is_whole text.now }
{
    match text.as_bytes() {
        [] => false,
        [byte] => byte.is_ascii_digit(),
        [first, ..] => b'1' <= *first && *first <= b'9' && are_digits(text),
    }
}

/// Whether a number is zero.
fn is_zero(size: &str) -> bool
    ensures { result ≡ is_zero size.now }
{
    size.as_bytes()
        .iter()
        .all(|byte| *byte == b'0' || *byte == b'.')
}

/// Whether each byte of a text is a decimal digit.
fn are_digits(text: &str) -> bool
    ensures { result ≡ are_digits text.now }
{
    text.as_bytes().iter().all(|byte| byte.is_ascii_digit())
}

/// The decimals that have room for such numbers, if there are any.
fn decimal_of(digits: Option<Digits>) -> Option<DecimalType>
    ensures { option_map (λ d. decimals d.precision d.scale) result ≡ option_and_then decimals_for digits }
{
    let Digits { whole, places } = digits?;
    let count = whole.saturating_add(places);
    let precision = if count <= FEW_DIGITS {
        FEW_DIGITS
    } else if count <= MOST_DIGITS {
        MOST_DIGITS
    } else {
        return None;
    };
    DecimalType::new(precision as u8, places as u8)
}
