//! Columns with names, and the words for their kinds.

ghost use Rattle.std.specs.Prelude.{◌≡◌, ◌++◌, IfSome, OnOk, Some, string_bytes};
ghost use Rattle.record_rows.specs.declared.schema.Kind.{Kind};
ghost use Rattle.record_rows.specs.declared.schema.Kind.TheVariants as kinds;
ghost use Rattle.csv_columns.specs.Setups.{IsPlain, kind_text, kind_word, mark_of};
ghost use Rattle.vortex_dtype.specs.declared.nullability.Nullability.{Nullability};
ghost use Rattle.record_rows.specs.declared.schema.ColumnType.{ColumnType};

use logical_types::{logical_type_named, name_of_logical_type};
use record_rows::{ColumnType, Kind};
use std::alloc::AllocError;
use vortex_dtype::{Nullability, PType};

/// A column with its name.
#[derive(Drop)]
pub struct NamedColumn {
    /// Its name.
    pub name: String,
    /// What it takes.
    pub column: ColumnType,
}

/// Appends a kind, with `?` behind it if the column takes nulls.
pub fn push_kind(text: &mut String, column: ColumnType) -> Result<(), AllocError>
    ensures { OnOk result (string_bytes text.new ≡ string_bytes text.old ++ kind_text column) }
{
    push_kind_word(text, column.kind)?;
    match column.nullability {
        Nullability::Nullable => text.push('?'),
        Nullability::NonNullable => Ok(()),
    }
}

/// Appends the word for a kind.
fn push_kind_word(text: &mut String, kind: Kind) -> Result<(), AllocError>
    ensures { OnOk result (string_bytes text.new ≡ string_bytes text.old ++ kind_word kind) }
{
    match kind {
        Kind::Integer(ptype) => text.push_str(integer_word(ptype)),
        Kind::Utf8 => text.push_str("utf8"),
        Kind::Binary => text.push_str("binary"),
        Kind::Bytes => text.push_str("bytes"),
        Kind::Logical(logical) => {
            let name = name_of_logical_type(logical);
            text.push_str(name.as_str())
        }
    }
}

/// The word for integers of a type.
fn integer_word(ptype: PType) -> &'static str
    ensures { result.now ≡ kind_word (kinds.Integer ptype) }
{
    match ptype {
        PType::I8 => "i8",
        PType::I16 => "i16",
        PType::I32 => "i32",
        PType::I64 => "i64",
        PType::U8 => "u8",
        PType::U16 => "u16",
        PType::U32 => "u32",
        PType::U64 => "u64",
    }
}

/// The type that a kind says, with `?` behind it for one that takes nulls. `None` of any other text.
pub fn column_of(text: &str) -> Option<ColumnType>
    ensures back { (column : ColumnType) → text.now ≡ kind_text column → result ≡ Some column }
    ensures text { IfSome result (λ column. text.now ≡ kind_text column) }
{
    let (word, nullability) = cut_mark(text);
    match kind_of(word) {
        Some(kind) => Some(ColumnType { kind, nullability }),
        None => None,
    }
}

/// What stands before the question mark of a column that takes nulls, or all.
fn cut_mark(text: &str) -> (&str, Nullability)
    ensures back { (kind : Kind) (n : Nullability) → text.now ≡ kind_word kind ++ mark_of n
        → (result.0.now ≡ kind_word kind) × (result.1 ≡ n) }
    ensures text { text.now ≡ result.0.now ++ mark_of result.1 }
{
    match text.strip_suffix('?') {
        Some(word) => (word, Nullability::Nullable),
        None => (text, Nullability::NonNullable),
    }
}

/// The kind that a word says.
fn kind_of(word: &str) -> Option<Kind>
    ensures back { (kind : Kind) → word.now ≡ kind_word kind → result ≡ Some kind }
    ensures word { IfSome result (λ kind. word.now ≡ kind_word kind) }
{
    match logical_type_named(word.as_bytes()) {
        Some(logical) => Some(Kind::Logical(logical)),
        None => plain_kind_of(word),
    }
}

/// The kind that a word says, of those without a logical type.
fn plain_kind_of(word: &str) -> Option<Kind>
    ensures back { (kind : Kind) → IsPlain kind → word.now ≡ kind_word kind → result ≡ Some kind }
    ensures word { IfSome result (λ kind. word.now ≡ kind_word kind) }
{
    let kind = match word {
        "i8" => Kind::Integer(PType::I8),
        "i16" => Kind::Integer(PType::I16),
        "i32" => Kind::Integer(PType::I32),
        "i64" => Kind::Integer(PType::I64),
        "u8" => Kind::Integer(PType::U8),
        "u16" => Kind::Integer(PType::U16),
        "u32" => Kind::Integer(PType::U32),
        "u64" => Kind::Integer(PType::U64),
        "utf8" => Kind::Utf8,
        "binary" => Kind::Binary,
        "bytes" => Kind::Bytes,
        _ => return None,
    };
    Some(kind)
}
