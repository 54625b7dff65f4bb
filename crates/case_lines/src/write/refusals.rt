//! Writes refusals.

use crate::write::output::Output;
use vortex_dtype::{Breach, Step, TypeCause, VortexError};

/// Writes the name of a refusal, and then its fields.
pub fn write_refusal(out: &mut Output, refusal: &VortexError) {
    out.word(refusal_name(refusal));
    match refusal {
        VortexError::Invalid { path, breach } => write_invalid(out, path.steps(), *breach),
        VortexError::WrongChild { index } => write_count(out, *index),
        VortexError::WrongLength { expected, found } => {
            write_count(out, *expected);
            write_count(out, *found);
        }
        VortexError::UnknownTypeId { id } => write_count(out, usize::from(*id)),
        VortexError::BadType { cause } => {
            out.char(' ');
            out.word(cause_name(*cause));
        }
        _ => {}
    }
}

fn refusal_name(refusal: &VortexError) -> &'static str {
    match refusal {
        VortexError::OutOfMemory => "OutOfMemory",
        VortexError::Invalid { .. } => "Invalid",
        VortexError::WrongKind => "WrongKind",
        VortexError::WrongChild { .. } => "WrongChild",
        VortexError::WrongLength { .. } => "WrongLength",
        VortexError::UnknownTypeId { .. } => "UnknownTypeId",
        VortexError::CannotCast => "CannotCast",
        VortexError::OutOfRange => "OutOfRange",
        VortexError::WrongPType => "WrongPType",
        VortexError::IsNull => "IsNull",
        VortexError::NoField => "NoField",
        VortexError::NotUtf8 => "NotUtf8",
        VortexError::VariantNull => "VariantNull",
        VortexError::TooMany => "TooMany",
        VortexError::WidthsDiffer => "WidthsDiffer",
        VortexError::BadType { .. } => "BadType",
    }
}

fn cause_name(cause: TypeCause) -> &'static str {
    match cause {
        TypeCause::NullableKey => "NullableKey",
        TypeCause::LengthsDiffer => "LengthsDiffer",
        TypeCause::RepeatedTypeId => "RepeatedTypeId",
    }
}

/// Writes a number after a space.
pub fn write_count(out: &mut Output, number: usize) {
    out.char(' ');
    out.number(number);
}

/// Writes the path to a breach, `.` if it has no step, and the breach.
fn write_invalid(out: &mut Output, steps: &[Step], breach: Breach) {
    out.char(' ');
    if steps.is_empty() {
        out.char('.');
    }
    for (place, step) in steps.iter().enumerate() {
        if place > 0 {
            out.char('/');
        }
        write_step(out, *step);
    }
    out.char(' ');
    out.word(breach_name(breach));
}

fn write_step(out: &mut Output, step: Step) {
    match step {
        Step::Element(place) => write_place(out, "Element(", place),
        Step::Entry(place) => write_place(out, "Entry(", place),
        Step::Field(place) => write_place(out, "Field(", place),
        Step::Key => out.word("Key"),
        Step::Value => out.word("Value"),
        Step::Child => out.word("Child"),
        Step::Inner => out.word("Inner"),
    }
}

fn write_place(out: &mut Output, name: &str, place: usize) {
    out.word(name);
    out.number(place);
    out.char(')');
}

fn breach_name(breach: Breach) -> &'static str {
    match breach {
        Breach::NullNotAllowed => "NullNotAllowed",
        Breach::WrongValue => "WrongValue",
        Breach::WrongLength => "WrongLength",
        Breach::UnknownTypeId => "UnknownTypeId",
        Breach::NullEntry => "NullEntry",
        Breach::VariantNull => "VariantNull",
    }
}
