//! How the records of a file are read as rows.

ghost use Rattle.std.specs.Prelude.{◌≡◌, IfOk, map};
ghost use Rattle.vortex_dtype.specs.TypeOf.{type_of};
ghost use Rattle.record_rows.specs.Cells.{column_type};
ghost use Rattle.record_rows.specs.Readings.{is_null_word};

use csv_records::Delimiter;
use logical_scalars::dtype_of_logical_type;
use logical_types::LogicalType;
use std::alloc::{AllocError, Global};
use std::marker::Model;
use vortex_dtype::{DType, Nullability, PType};

/// What the words of a column are.
#[derive(Clone, Copy, Debug)]
pub enum Kind {
    /// Numbers of this integer type, in decimal.
    Integer(PType),
    /// Strings: each word in UTF-8 is one.
    Utf8,
    /// Bytes, as hexadecimal digits, two for a byte.
    Binary,
    /// Bytes: each word is its own, in whatever encoding it is.
    Bytes,
    /// Values of a logical type: floats, decimals, dates, times of day or timestamps.
    Logical(LogicalType),
}

/// The type of a column.
#[derive(Clone, Copy, Debug)]
pub struct ColumnType {
    /// What its words are.
    pub kind: Kind,
    /// Whether it takes nulls: a field without quotes is one then that has no byte, or is a word that the
    /// reading says to be a null.
    pub nullability: Nullability,
}

/// How fields are read.
#[derive(Debug, Drop)]
pub struct FieldReading {
    /// Whether a field that its column does not take is a null, where the column takes nulls.
    is_lenient: bool,
    /// The words that are nulls, beside the empty one.
    nulls: Vec<Vec<u8>>,
}

impl Model for FieldReading {
    ghost use Rattle.std.specs.Prelude.{map};
    ghost use Rattle.record_rows.specs.Readings.{Reading};

    ghost Value = { Reading };

    ghost view = { λ r. record { is_lenient = r.is_lenient; nulls = map (λ word. word.items) r.nulls.items } };
}

impl FieldReading {
    /// The reading that is lenient or not, and where these words are nulls: without quotes, in columns
    /// that take nulls. The empty word is one there in each reading.
    pub fn new(is_lenient: bool, nulls: Vec<Vec<u8>>) -> FieldReading
        ensures lenient { result.is_lenient ≡ is_lenient }
        ensures nulls { result.nulls ≡ map (λ word. word.items) nulls.items }
    {
        FieldReading { is_lenient, nulls }
    }

    /// Whether a field that its column does not take is a null, where the column takes nulls.
    pub fn is_lenient(&self) -> bool
        ensures { result ≡ self.now.is_lenient }
    {
        self.is_lenient
    }

    /// Whether a word is one of those that are nulls, beside the empty one.
    #[inline(always)]
    pub fn has_null(&self, word: &[u8]) -> bool
        ensures { result ≡ is_null_word self.now.nulls word.now }
    {
        stands_in(&self.nulls, word)
    }
}

/// Whether a word is one of these.
#[inline(always)]
fn stands_in(words: &[Vec<u8>], word: &[u8]) -> bool
    ensures { result ≡ is_null_word (map (λ one. one.items) words.now) word.now }
{
    for one in words {
        if one.as_slice() == word {
            return true;
        }
    }
    false
}

/// How the records of a file are read as rows.
#[derive(Debug, Drop)]
pub struct Schema {
    /// The byte between two fields.
    pub delimiter: Delimiter,
    /// How its fields are read.
    pub reading: FieldReading,
    /// The columns, in order.
    pub columns: Vec<ColumnType>,
}

/// The type of the cells of a column.
pub fn dtype_of(alloc: Global, column: ColumnType) -> Result<DType, AllocError>
    ensures { IfOk result (λ dtype. type_of dtype ≡ column_type column) }
{
    let nullability = column.nullability;
    match column.kind {
        Kind::Integer(ptype) => Ok(DType::Primitive(ptype, nullability)),
        Kind::Utf8 => Ok(DType::Utf8(nullability)),
        Kind::Binary | Kind::Bytes => Ok(DType::Binary(nullability)),
        Kind::Logical(logical) => match dtype_of_logical_type(alloc, logical, nullability) {
            Ok(dtype) => Ok(dtype),
            Err(_) => Err(AllocError),
        },
    }
}
