//! What calls of keys answer, and how it is written.

use case_lines::{
    Output, WriteAnswer, order_word, truth_word, write_bytes, write_count, write_places,
    write_scalar, write_scalars,
};
use std::cmp::Ordering;
use vortex_row::RowError;
use vortex_value::Scalar;

/// What a call of keys answers.
#[derive(Drop)]
pub enum KeyAnswer {
    Key(Vec<u8>),
    /// The call refused, but left a part of the key.
    Changed,
    /// How long a key is.
    Length(usize),
    /// A scalar, and how long its key is.
    Decoded((Scalar, usize)),
    /// The scalars of a row, and how long its key is.
    DecodedRow((Vec<Scalar>, usize)),
    Order(Ordering),
    Truth(bool),
    /// The scalar has parts, so that it is no plain value.
    NotPlain,
    /// The places of elements, in another order.
    Places(Vec<usize>),
    Refused(RowError),
}

impl WriteAnswer for KeyAnswer {
    fn write_answer(&self, out: &mut Output) {
        match self {
            KeyAnswer::Key(key) => write_bytes(out, key),
            KeyAnswer::Changed => out.word("changed"),
            KeyAnswer::Length(length) => out.number(*length),
            KeyAnswer::Decoded((scalar, length)) => {
                write_scalar(out, scalar);
                write_length(out, *length);
            }
            KeyAnswer::DecodedRow((scalars, length)) => {
                write_scalars(out, scalars);
                write_length(out, *length);
            }
            KeyAnswer::Order(order) => out.word(order_word(*order)),
            KeyAnswer::Truth(is_true) => out.word(truth_word(*is_true)),
            KeyAnswer::NotPlain => out.word("not plain"),
            KeyAnswer::Places(places) => write_places(out, places),
            KeyAnswer::Refused(refusal) => write_refusal(out, *refusal),
        }
    }
}

fn write_length(out: &mut Output, length: usize) {
    out.word(", ");
    out.number(length);
}

/// Writes the name of a refusal, and then its fields.
fn write_refusal(out: &mut Output, refusal: RowError) {
    match refusal {
        RowError::OutOfMemory => out.word("OutOfMemory"),
        RowError::HasVariant => out.word("HasVariant"),
        RowError::BadKey { offset: place } => {
            out.word("BadKey");
            write_count(out, place);
        }
        RowError::WrongLength { expected, found } => {
            out.word("WrongLength");
            write_count(out, expected);
            write_count(out, found);
        }
    }
}
