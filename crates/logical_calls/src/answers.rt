//! What calls of logical types answer, and how it is written.

use arrayvec::ArrayString;
use case_lines::{Output, WriteAnswer, truth_word};
use logical_types::{
    DecimalPlace, LogicalType, StorageType, extension_id, extension_metadata, name_of_logical_type,
    storage_type,
};
use std::fmt::Write;

/// What a call of logical types answers.
#[derive(Drop)]
pub enum LogicalAnswer {
    /// The call answered `None`.
    None,
    /// The call was not made: what it requires does not hold.
    Unmet,
    Type(LogicalType),
    /// The id, the metadata and the storage of a type.
    Extension(LogicalType),
    Number(i128),
    /// The least and the greatest storage.
    Range((i128, i128)),
    Place(DecimalPlace),
    Word(String),
    /// The bytes that store a decimal.
    Bytes([u8; 16]),
    Truth(bool),
}

impl WriteAnswer for LogicalAnswer {
    fn write_answer(&self, out: &mut Output) {
        match self {
            LogicalAnswer::None => out.word("none"),
            LogicalAnswer::Unmet => out.word("unmet"),
            LogicalAnswer::Type(logical) => out.word(name_of_logical_type(*logical).as_str()),
            LogicalAnswer::Extension(logical) => write_extension(out, *logical),
            LogicalAnswer::Number(number) => write_number(out, *number),
            LogicalAnswer::Range((least, greatest)) => {
                write_number(out, *least);
                out.word(", ");
                write_number(out, *greatest);
            }
            LogicalAnswer::Place(place) => write_place(out, *place),
            LogicalAnswer::Word(word) => out.word(word.as_str()),
            LogicalAnswer::Bytes(bytes) => {
                out.char('x');
                out.hex(bytes);
            }
            LogicalAnswer::Truth(is_true) => out.word(truth_word(*is_true)),
        }
    }
}

/// Writes an id, metadata in hexadecimal after an `x`, and a storage.
fn write_extension(out: &mut Output, logical: LogicalType) {
    out.word(extension_id(logical));
    out.word(" x");
    out.hex(extension_metadata(logical).as_slice());
    out.word(match storage_type(logical) {
        StorageType::I32 => " i32",
        StorageType::I64 => " i64",
        StorageType::Bytes => " bytes",
    });
}

fn write_place(out: &mut Output, place: DecimalPlace) {
    match place {
        DecimalPlace::At(number) => {
            out.word("at ");
            write_number(out, number);
        }
        DecimalPlace::Behind(number) => {
            out.word("behind ");
            write_number(out, number);
        }
        DecimalPlace::BelowAll => out.word("below all"),
        DecimalPlace::AboveAll => out.word("above all"),
    }
}

fn write_number(out: &mut Output, number: i128) {
    let mut text = ArrayString::<40>::new();
    if write!(text, "{number}").is_err() {
        out.cut();
    }
    out.word(text.as_str());
}
