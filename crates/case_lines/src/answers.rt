//! The answers of calls, and how each is written.

use crate::write::output::Output;
use crate::write::texts::write_text;
use crate::write::types::write_type;
use crate::write::values::{write_number, write_scalar, write_scalars, write_value};
use crate::write::words::{order_word, truth_word};
use std::alloc::Global;
use std::cmp::Ordering;
use std::fmt::Display;
use vortex_dtype::{BufferString, ByteBuffer, DType, VortexError};
use vortex_pvalue::PValue;
use vortex_value::{Scalar, ScalarValue};

/// What a call may answer, if it does not refuse.
pub trait WriteAnswer: Drop {
    /// Writes the answer as it stands in a line.
    fn write_answer(&self, out: &mut Output);
}

/// What a call of types, scalars or views answers.
#[derive(Drop)]
pub enum Answer {
    /// The scalar is valid.
    Valid,
    /// The call answered `None`.
    None,
    /// The value is a null.
    Null,
    /// The call was not made: what it requires does not hold.
    Unmet,
    /// The call changed what it borrowed, or handed back something else than it was given.
    Changed,
    /// The string has no successor.
    Last,
    /// An iterator gave other items than the ones that the view lends.
    WrongItems,
    /// An iterator answered `OutOfMemory` for one item.
    NoMemoryForItem,
    /// An iterator answered `OutOfMemory` for several items.
    NoMemoryForItems,
    Truth(bool),
    /// Whether two values feed a hasher the same.
    SameFeed(bool),
    Order(Ordering),
    Number(usize),
    /// An integer, written without its `PType`.
    Integer(PValue),
    Text(String),
    Type(DType),
    Raw(ScalarValue),
    Scalar(Scalar),
    /// A bound, and whether the value is longer than it.
    Bound((Scalar, bool)),
    Parts(Vec<Scalar>),
    /// A key and its value.
    Entry((Scalar, Scalar)),
    Entries(Vec<(Scalar, Scalar)>),
    /// An answer that is written already.
    Written(String),
}

/// An answer, or the call's refusal.
pub type CallResult = Result<Answer, VortexError>;

/// The answer for an `Option`.
pub fn or_none(answer: Option<Answer>) -> Answer {
    answer.unwrap_or(Answer::None)
}

/// The answer for an optional scalar.
pub fn scalar_or_none(made: Result<Option<Scalar>, VortexError>) -> CallResult {
    Ok(or_none(made?.map(Answer::Scalar)))
}

/// The `Display` of a value. `OutOfMemory` is its only refusal.
pub fn text_of<T: Display>(alloc: Global, shown: &T) -> CallResult {
    match format!(in alloc; "{shown}") {
        Ok(text) => Ok(Answer::Text(text)),
        Err(_) => Err(VortexError::OutOfMemory),
    }
}

/// Bytes, as a raw value.
pub fn buffer_bytes(bytes: ByteBuffer) -> Answer {
    Answer::Raw(ScalarValue::Binary(bytes))
}

/// A string, as a raw value.
pub fn buffer_text(text: BufferString) -> Answer {
    Answer::Raw(ScalarValue::Utf8(text))
}

impl WriteAnswer for Answer {
    fn write_answer(&self, out: &mut Output) {
        match self {
            Answer::Valid => out.word("ok"),
            Answer::None => out.word("none"),
            Answer::Null => out.word("null"),
            Answer::Unmet => out.word("unmet"),
            Answer::Changed => out.word("changed"),
            Answer::Last => out.word("Last"),
            Answer::WrongItems => out.word("wrong items"),
            Answer::NoMemoryForItem => out.word("OutOfMemory"),
            Answer::NoMemoryForItems => out.word("OutOfMemory, of several items"),
            Answer::Truth(is_true) => out.word(truth_word(*is_true)),
            Answer::SameFeed(is_same) => out.word(if *is_same { "same" } else { "differ" }),
            Answer::Order(order) => out.word(order_word(*order)),
            Answer::Number(number) => out.number(*number),
            Answer::Integer(number) => write_number(out, *number),
            Answer::Text(text) => write_text(out, text),
            Answer::Type(dtype) => write_type(out, dtype),
            Answer::Raw(value) => write_value(out, value),
            Answer::Scalar(scalar) => write_scalar(out, scalar),
            Answer::Bound(bound) => write_bound(out, bound),
            Answer::Parts(parts) => write_scalars(out, parts),
            Answer::Entry(entry) => write_entry(out, entry),
            Answer::Entries(entries) => write_entries(out, entries),
            Answer::Written(text) => out.word(text),
        }
    }
}

fn write_bound(out: &mut Output, bound: &(Scalar, bool)) {
    out.char('[');
    write_scalar(out, &bound.0);
    out.word(", ");
    out.word(truth_word(bound.1));
    out.char(']');
}

fn write_entry(out: &mut Output, entry: &(Scalar, Scalar)) {
    out.char('[');
    write_scalar(out, &entry.0);
    out.word(", ");
    write_scalar(out, &entry.1);
    out.char(']');
}

fn write_entries(out: &mut Output, entries: &[(Scalar, Scalar)]) {
    out.char('[');
    for (place, entry) in entries.iter().enumerate() {
        out.comma(place);
        write_entry(out, entry);
    }
    out.char(']');
}
