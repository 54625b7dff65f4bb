//! Calls of keys: of scalars, of rows, of plain values, and back.

use crate::answers::keys::KeyAnswer;
use crate::key_inputs::{Input, KeyInputs};
use crate::plain_values::plain_of;
use case_lines::{Line, Named};
use std::alloc::{AllocError, Global};
use std::cmp::Ordering;
use std::mem::replace;
use vortex_cells::has_variant;
use vortex_dtype::{DType, VortexError};
use vortex_row::laws::keys_are_as_long;
use vortex_row::{
    RowEncoder, RowError, SortOptions, append_key, append_row_key, compare_keys, decode_key,
    decode_row_key, has_key, key_length, plain_key_length, write_plain_key,
};
use vortex_value::{Scalar, ScalarRef, ScalarValue};

#[derive(Clone, Copy)]
enum Call {
    Key,
    HasKey,
    Length,
    FromKey,
    PlainKey,
    PlainLength,
    HasVariant,
    Compare,
    SortedByKeys,
    SortedByOrder,
}

const CALLS: [Named<Call, Input>; 10] = [
    ("key", Call::Key, &[Input::Scalar, Input::Sorting]),
    ("has_key", Call::HasKey, &[Input::Scalar]),
    ("key_length", Call::Length, &[Input::Scalar]),
    (
        "from_key",
        Call::FromKey,
        &[Input::Type, Input::Bytes, Input::Sorting],
    ),
    (
        "plain_key",
        Call::PlainKey,
        &[Input::Scalar, Input::Sorting],
    ),
    ("plain_key_length", Call::PlainLength, &[Input::Scalar]),
    ("has_variant", Call::HasVariant, &[Input::Type]),
    (
        "compare_keys",
        Call::Compare,
        &[Input::Bytes, Input::SecondBytes],
    ),
    ("sorted_by_keys", Call::SortedByKeys, &[Input::Scalar]),
    ("sorted_by_order", Call::SortedByOrder, &[Input::Scalar]),
];

/// What is asked of the columns of rows.
#[derive(Clone, Copy)]
enum OfRows {
    Key,
    FromKey,
    Encoder,
}

const OF_ROWS: [Named<OfRows, Input>; 3] = [
    ("row_key", OfRows::Key, &[Input::Row]),
    (
        "from_row_key",
        OfRows::FromKey,
        &[Input::Columns, Input::Bytes],
    ),
    (
        "row_encoder",
        OfRows::Encoder,
        &[Input::Columns, Input::Rows],
    ),
];

/// The keys that are appended where there is capacity.
#[derive(Clone, Copy)]
enum InRoom {
    Key,
    /// The key of a row of one column.
    RowKey,
}

const IN_ROOM: [Named<InRoom, Input>; 2] = [
    (
        "key_in_room",
        InRoom::Key,
        &[Input::Scalar, Input::Sorting, Input::Room],
    ),
    (
        "row_key_in_room",
        InRoom::RowKey,
        &[Input::Scalar, Input::Sorting, Input::Room],
    ),
];

/// Answers the line if it names one of these calls.
pub fn answer(line: &mut Line<'_>) {
    line.lend(&CALLS, answer_of);
    line.lend(&OF_ROWS, of_rows);
    line.give(&IN_ROOM, in_room);
}

/// An answer, or the refusal that all calls have.
type KeyResult = Result<KeyAnswer, VortexError>;

/// A key, or its refusal. `Changed` if a refusal left a part of the key.
fn key_answer(outcome: Result<(), RowError>, key: Vec<u8>) -> KeyResult {
    match outcome {
        Ok(()) => Ok(KeyAnswer::Key(key)),
        Err(_) if !key.is_empty() => Ok(KeyAnswer::Changed),
        Err(refusal) => refused(refusal),
    }
}

/// A refusal, which is an answer; `OutOfMemory` is that of all calls.
fn refused(refusal: RowError) -> KeyResult {
    match refusal {
        RowError::OutOfMemory => Err(VortexError::OutOfMemory),
        _ => Ok(KeyAnswer::Refused(refusal)),
    }
}

fn answer_of(alloc: Global, call: Call, given: &KeyInputs) -> KeyResult {
    let scalar = &given.scalar;
    match call {
        Call::Key => key(alloc, scalar, given.sorting),
        Call::HasKey => Ok(KeyAnswer::Truth(has_key(ScalarRef::of(scalar)))),
        Call::Length => Ok(KeyAnswer::Length(key_length(ScalarRef::of(scalar)))),
        Call::FromKey => {
            match decode_key(alloc, &given.dtype, given.sorting, given.bytes.as_slice()) {
                Ok(decoded) => Ok(KeyAnswer::Decoded(decoded)),
                Err(refusal) => refused(refusal),
            }
        }
        Call::PlainKey => plain_key(alloc, scalar, given.sorting),
        Call::PlainLength => Ok(plain_length(scalar)),
        Call::HasVariant => Ok(KeyAnswer::Truth(has_variant(&given.dtype))),
        Call::Compare => {
            let order = compare_keys(given.bytes.as_slice(), given.second_bytes.as_slice());
            Ok(KeyAnswer::Order(order))
        }
        Call::SortedByKeys => sorted_by_keys(alloc, scalar),
        Call::SortedByOrder => sorted_by_order(alloc, scalar),
    }
}

fn key(alloc: Global, scalar: &Scalar, options: SortOptions) -> KeyResult {
    let mut key = Vec::new(alloc);
    let outcome = append_key(ScalarRef::of(scalar), options, &mut key);
    key_answer(outcome, key)
}

#[tactic(auto, using(crate::proofs::KeySteps::rooms))]
fn plain_key(alloc: Global, scalar: &Scalar, options: SortOptions) -> KeyResult {
    let Some(value) = plain_of(scalar) else {
        return Ok(KeyAnswer::NotPlain);
    };
    keys_are_as_long();
    let mut key = Vec::new(alloc);
    key.resize(plain_key_length(value), 0)?;
    write_plain_key(value, options, 0, &mut key);
    Ok(KeyAnswer::Key(key))
}

fn plain_length(scalar: &Scalar) -> KeyAnswer {
    match plain_of(scalar) {
        Some(value) => KeyAnswer::Length(plain_key_length(value)),
        None => KeyAnswer::NotPlain,
    }
}

fn in_room(alloc: Global, call: InRoom, given: &mut KeyInputs) -> KeyResult {
    let mut key = replace(&mut given.room, Vec::new(alloc));
    let lent = ScalarRef::of(&given.scalar);
    let outcome = match call {
        InRoom::Key => append_key(lent, given.sorting, &mut key),
        InRoom::RowKey => append_row_key(&[lent], &[given.sorting], &mut key),
    };
    key_answer(outcome, key)
}

fn of_rows(alloc: Global, call: OfRows, given: &KeyInputs) -> KeyResult {
    match call {
        OfRows::Key => row_key(alloc, &given.scalars, &given.options),
        OfRows::FromKey => {
            let bytes = given.bytes.as_slice();
            match decode_row_key(alloc, &given.dtypes, &given.options, bytes) {
                Ok(decoded) => Ok(KeyAnswer::DecodedRow(decoded)),
                Err(refusal) => refused(refusal),
            }
        }
        OfRows::Encoder => row_encoder(alloc, given),
    }
}

/// The scalars, lent.
fn lent(alloc: Global, scalars: &[Scalar]) -> Result<Vec<ScalarRef<'_>>, AllocError> {
    scalars
        .iter()
        .map(|scalar| ScalarRef::of(scalar))
        .collect(alloc)
}

fn row_key(alloc: Global, scalars: &[Scalar], options: &[SortOptions]) -> KeyResult {
    let values = lent(alloc, scalars)?;
    let mut key = Vec::new(alloc);
    let outcome = append_row_key(&values, options, &mut key);
    key_answer(outcome, key)
}

/// The keys of rows, one row after another. Each row is lent just before its key is made, so that
/// the memory of its scalars is read once.
fn row_encoder(alloc: Global, given: &KeyInputs) -> KeyResult {
    let encoder = match RowEncoder::try_new(&given.dtypes, &given.options) {
        Ok(encoder) => encoder,
        Err(refusal) => return refused(refusal),
    };
    let mut keys = Vec::new(alloc);
    let mut row = Vec::new(alloc);
    for scalars in given.scalars.chunks(given.dtypes.len().max(1)) {
        row.clear();
        for scalar in scalars {
            row.push(ScalarRef::of(scalar))?;
        }
        if let Err(refusal) = encoder.append(&row, &mut keys) {
            return refused(refusal);
        }
    }
    Ok(KeyAnswer::Key(keys))
}

/// The elements of a list, lent; of any other scalar none.
fn elements<'a>(alloc: Global, list: &'a Scalar) -> Result<Vec<ScalarRef<'a>>, AllocError> {
    let mut elements = Vec::new(alloc);
    if let (DType::List(dtype, _), Some(ScalarValue::Tuple(parts))) = (&list.dtype, &list.value) {
        for part in parts {
            elements.push(ScalarRef::from_parts(dtype, part.as_ref()))?;
        }
    }
    Ok(elements)
}

/// The places of a list's elements, sorted by their keys.
fn sorted_by_keys(alloc: Global, list: &Scalar) -> KeyResult {
    let mut keys = Vec::new(alloc);
    for (place, element) in elements(alloc, list)?.iter().enumerate() {
        let mut key = Vec::new(alloc);
        if let Err(refusal) = append_key(*element, SortOptions::default(), &mut key) {
            return refused(refusal);
        }
        keys.push((key, place))?;
    }
    keys.sort_by(|(x, _), (y, _)| compare_keys(x, y))?;
    Ok(KeyAnswer::Places(keys.iter().map(|(_, place)| *place).collect(alloc)?))
}

/// The places of a list's elements, sorted by `partial_cmp`. Those without an order are as equal ones.
fn sorted_by_order(alloc: Global, list: &Scalar) -> KeyResult {
    let elements = elements(alloc, list)?;
    let mut places: Vec<usize> = (0..elements.len()).collect(alloc)?;
    places.sort_by(|x, y| order_at(&elements, *x, *y))?;
    Ok(KeyAnswer::Places(places))
}

fn order_at(elements: &[ScalarRef<'_>], x: usize, y: usize) -> Ordering {
    match (elements.get(x), elements.get(y)) {
        (Some(x), Some(y)) => x.partial_cmp(y).unwrap_or(Ordering::Equal),
        _ => Ordering::Equal,
    }
}
