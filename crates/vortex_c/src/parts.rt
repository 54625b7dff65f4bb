//! The parts of statistics, from their stable encoding.

ghost use Rattle.std.specs.Prelude.{◌≡◌, ◌≢◌, ◌<◌, ◌≤◌, ◌⊎◌, ℕ, List, drop, length, option_map, take};
ghost use Rattle.vortex_c.specs.Words.{AreOf, AreParts, ArePartsAt, HasAnswer, HasValueIn, HaveValues, IsBoundOf};
ghost use Rattle.vortex_c.specs.Words.{IsBoundTold, SaysWhyNotRead, SufficesFor, bytes_of_item, fault_of_read};
ghost use Rattle.vortex_c.specs.Words.{kind_at, kind_of_code, known, known_bound, status_of_read, type_of_kind};

use crate::column_bounds::write_both;
use crate::fault::{Fault, at};
use crate::status::{BAD_BYTES, BUFFER_TOO_SMALL, GIVEN, NO_MEMORY, NOT_A_VALUE, UNKNOWN_KIND};
use arrow_columns::Kind;
use column_items::KindCode;
use column_statistics::{Item, ReadError, item_of, read_encoding};
use std::alloc::Global;
use vortex_statistics::{Bound, ColumnStatistics};

/// What statistics say, but for the bytes of their bounds.
#[derive(Drop)]
#[repr(C)]
pub struct StatisticsParts {
    /// How many rows there are.
    pub row_count: u64,
    /// In how many rows the cell is null: 0 if that is not known.
    pub null_count: u64,
    /// How many bytes the lower bound has: 0 if there is none.
    pub lower_length: usize,
    /// How many bytes the upper bound has: 0 if there is none.
    pub upper_length: usize,
    /// Whether it is known how many rows are null.
    pub has_null_count: bool,
    /// Whether there is a lower bound.
    pub has_lower: bool,
    /// Whether some value is equal to it.
    pub lower_is_exact: bool,
    /// Whether there is an upper bound.
    pub has_upper: bool,
    /// Whether some value is equal to it.
    pub upper_is_exact: bool,
}

/// The statistics that have this stable encoding, of a column of this kind: counts, and bounds,
/// each written to its buffer.
///
/// An integer has its bytes in a buffer, the low one first. A boolean is a byte, 0 or 1. A value of a
/// logical type is an item of a buffer: 0 of floats has no sign, and all NaNs are one. In bytes from
/// anywhere a bound may be null: it is told as none, which says less. Buffers of 8 bytes, 16 of
/// decimals, or of as many as the encoding if that is more, suffice. Of decimals it is
/// `doqallin_read_typed`.
///
/// - `BUFFER_TOO_SMALL`: a buffer is too small. `parts` is written all the same.
/// - `UNKNOWN_KIND`: the code is of no kind.
/// - `BAD_BYTES`: the bytes are no encoding of statistics of the kind. `fault.place` is the first
///   byte that none has there.
/// - `NOT_A_VALUE`: a bound is no value of the logical type.
/// - `NO_MEMORY`: only if the bytes say a bound, or the kind is of a logical type. `fault` is not
///   written.
#[unsafe(no_mangle)]
pub extern "C" fn doqallin_read_statistics(
    alloc: Global,
    kind: u8,
    bytes: &[u8],
    lower_buffer: &mut [u8],
    upper_buffer: &mut [u8],
    parts: &mut StatisticsParts,
    fault: &mut Fault,
) -> u32
    ensures given { result ≡ GIVEN → ArePartsAt (kind_at kind) bytes.now
        (take parts.new.lower_length lower_buffer.new)
        (take parts.new.upper_length upper_buffer.new) parts.new }
    ensures within { result ≡ GIVEN → (parts.new.lower_length ≤ length lower_buffer.old)
        × (parts.new.upper_length ≤ length upper_buffer.old) }
    ensures small { result ≡ BUFFER_TOO_SMALL → (length lower_buffer.old < parts.new.lower_length)
        ⊎ (length upper_buffer.old < parts.new.upper_length) }
    ensures enough { SufficesFor (kind_at kind) bytes.now lower_buffer.old
        × SufficesFor (kind_at kind) bytes.now upper_buffer.old → result ≢ BUFFER_TOO_SMALL }
    ensures needed { result ≡ BUFFER_TOO_SMALL
        → (lower upper : List ℕ) × ArePartsAt (kind_at kind) bytes.now lower upper parts.new }
    ensures refused { (HasAnswer result)
        ⊎ SaysWhyNotRead (kind_at kind) bytes.now fault.old fault.new result }

    // What is not said to be written stays.
    ensures rest { result ≡ GIVEN → (drop parts.new.lower_length lower_buffer.new
        ≡ drop parts.new.lower_length lower_buffer.old)
        × (drop parts.new.upper_length upper_buffer.new
        ≡ drop parts.new.upper_length upper_buffer.old) }
    ensures kept { result ≢ GIVEN
        → (lower_buffer.new ≡ lower_buffer.old) × (upper_buffer.new ≡ upper_buffer.old) }
    ensures kept_parts { (HasAnswer result) ⊎ (parts.new ≡ parts.old) }
    ensures kept_fault { HasAnswer result → fault.new ≡ fault.old }
{
    read(
        alloc,
        Kind::from_code(kind),
        bytes,
        lower_buffer,
        upper_buffer,
        parts,
        fault,
    )
}

/// The same of any kind, decimals too.
#[unsafe(no_mangle)]
pub extern "C" fn doqallin_read_typed(
    alloc: Global,
    kind: &KindCode,
    bytes: &[u8],
    lower_buffer: &mut [u8],
    upper_buffer: &mut [u8],
    parts: &mut StatisticsParts,
    fault: &mut Fault,
) -> u32
    ensures given { result ≡ GIVEN → ArePartsAt (kind_of_code kind.now) bytes.now
        (take parts.new.lower_length lower_buffer.new)
        (take parts.new.upper_length upper_buffer.new) parts.new }
    ensures within { result ≡ GIVEN → (parts.new.lower_length ≤ length lower_buffer.old)
        × (parts.new.upper_length ≤ length upper_buffer.old) }
    ensures small { result ≡ BUFFER_TOO_SMALL → (length lower_buffer.old < parts.new.lower_length)
        ⊎ (length upper_buffer.old < parts.new.upper_length) }
    ensures enough { SufficesFor (kind_of_code kind.now) bytes.now lower_buffer.old
        × SufficesFor (kind_of_code kind.now) bytes.now upper_buffer.old → result ≢ BUFFER_TOO_SMALL }
    ensures needed { result ≡ BUFFER_TOO_SMALL
        → (lower upper : List ℕ) × ArePartsAt (kind_of_code kind.now) bytes.now lower upper parts.new }
    ensures refused { (HasAnswer result)
        ⊎ SaysWhyNotRead (kind_of_code kind.now) bytes.now fault.old fault.new result }

    // What is not said to be written stays.
    ensures rest { result ≡ GIVEN → (drop parts.new.lower_length lower_buffer.new
        ≡ drop parts.new.lower_length lower_buffer.old)
        × (drop parts.new.upper_length upper_buffer.new
        ≡ drop parts.new.upper_length upper_buffer.old) }
    ensures kept { result ≢ GIVEN
        → (lower_buffer.new ≡ lower_buffer.old) × (upper_buffer.new ≡ upper_buffer.old) }
    ensures kept_parts { (HasAnswer result) ⊎ (parts.new ≡ parts.old) }
    ensures kept_fault { HasAnswer result → fault.new ≡ fault.old }
{
    read(
        alloc,
        kind.kind(),
        bytes,
        lower_buffer,
        upper_buffer,
        parts,
        fault,
    )
}

/// The same of a kind that may be none.
fn read(
    alloc: Global,
    kind: Option<Kind>,
    bytes: &[u8],
    lower_buffer: &mut [u8],
    upper_buffer: &mut [u8],
    parts: &mut StatisticsParts,
    fault: &mut Fault,
) -> u32
    ensures given { result ≡ GIVEN → ArePartsAt kind bytes.now
        (take parts.new.lower_length lower_buffer.new)
        (take parts.new.upper_length upper_buffer.new) parts.new }
    ensures within { result ≡ GIVEN → (parts.new.lower_length ≤ length lower_buffer.old)
        × (parts.new.upper_length ≤ length upper_buffer.old) }
    ensures small { result ≡ BUFFER_TOO_SMALL → (length lower_buffer.old < parts.new.lower_length)
        ⊎ (length upper_buffer.old < parts.new.upper_length) }
    ensures enough { SufficesFor kind bytes.now lower_buffer.old
        × SufficesFor kind bytes.now upper_buffer.old → result ≢ BUFFER_TOO_SMALL }
    ensures needed { result ≡ BUFFER_TOO_SMALL
        → (lower upper : List ℕ) × ArePartsAt kind bytes.now lower upper parts.new }
    ensures refused { (HasAnswer result)
        ⊎ SaysWhyNotRead kind bytes.now fault.old fault.new result }

    // What is not said to be written stays.
    ensures rest { result ≡ GIVEN → (drop parts.new.lower_length lower_buffer.new
        ≡ drop parts.new.lower_length lower_buffer.old)
        × (drop parts.new.upper_length upper_buffer.new
        ≡ drop parts.new.upper_length upper_buffer.old) }
    ensures kept { result ≢ GIVEN
        → (lower_buffer.new ≡ lower_buffer.old) × (upper_buffer.new ≡ upper_buffer.old) }
    ensures kept_parts { (HasAnswer result) ⊎ (parts.new ≡ parts.old) }
    ensures kept_fault { HasAnswer result → fault.new ≡ fault.old }
{
    let Some(kind) = kind else {
        return at(0, 0, fault, UNKNOWN_KIND);
    };
    match read_encoding(alloc, kind, bytes) {
        Ok(statistics) => give_parts(kind, &statistics, lower_buffer, upper_buffer, parts),
        Err(refusal) => tell_read(refusal, fault),
    }
}

/// Writes what statistics say, and the bounds to their buffers; no bound if a buffer is too small.
fn give_parts(
    kind: Kind,
    statistics: &ColumnStatistics,
    lower_buffer: &mut [u8],
    upper_buffer: &mut [u8],
    parts: &mut StatisticsParts,
) -> u32
    requires typed { AreOf (type_of_kind kind) (known statistics.now) }
    requires values { HaveValues kind (known statistics.now) }
    ensures answer { HasAnswer result }
    ensures given { result ≡ GIVEN → AreParts kind (known statistics.now)
        (take parts.new.lower_length lower_buffer.new)
        (take parts.new.upper_length upper_buffer.new) parts.new }
    ensures within { result ≡ GIVEN → (parts.new.lower_length ≤ length lower_buffer.old)
        × (parts.new.upper_length ≤ length upper_buffer.old) }
    ensures small { result ≡ BUFFER_TOO_SMALL → (length lower_buffer.old < parts.new.lower_length)
        ⊎ (length upper_buffer.old < parts.new.upper_length) }
    ensures needed { (lower upper : List ℕ)
        × AreParts kind (known statistics.now) lower upper parts.new }
    ensures rest { result ≡ GIVEN → (drop parts.new.lower_length lower_buffer.new
        ≡ drop parts.new.lower_length lower_buffer.old)
        × (drop parts.new.upper_length upper_buffer.new
        ≡ drop parts.new.upper_length upper_buffer.old) }
    ensures kept { result ≢ GIVEN
        → (lower_buffer.new ≡ lower_buffer.old) × (upper_buffer.new ≡ upper_buffer.old) }
{
    let lower = part_of_bound(kind, &statistics.lower);
    let upper = part_of_bound(kind, &statistics.upper);
    let lower_bytes = lower.item.as_slice();
    let upper_bytes = upper.item.as_slice();
    *parts = StatisticsParts {
        row_count: statistics.row_count,
        null_count: statistics.null_count.unwrap_or(0),
        lower_length: lower_bytes.len(),
        upper_length: upper_bytes.len(),
        has_null_count: statistics.null_count.is_some(),
        has_lower: lower.is_there,
        lower_is_exact: lower.is_exact,
        has_upper: upper.is_there,
        upper_is_exact: upper.is_exact,
    };
    write_both(lower_bytes, upper_bytes, lower_buffer, upper_buffer)
}

/// A bound as it is told.
#[derive(Clone, Copy)]
struct BoundPart<'a> {
    /// Its bytes: none if there is no bound.
    item: Item<'a>,
    /// Whether there is a bound.
    is_there: bool,
    /// Whether some value is equal to it.
    is_exact: bool,
}

/// A bound of a column of this kind as it is told.
fn part_of_bound(kind: Kind, bound: &Option<Bound>) -> BoundPart<'_>
    requires typed { IsBoundOf (type_of_kind kind) (option_map known_bound bound.now) }
    requires value { HasValueIn kind (option_map known_bound bound.now) }
    ensures { IsBoundTold kind (option_map known_bound bound.now)
        result.is_there result.is_exact (bytes_of_item result.item) }
{
    let none = BoundPart {
        item: Item::All(&[]),
        is_there: false,
        is_exact: false,
    };
    let Some(bound) = bound else {
        return none;
    };
    match item_of(kind, &bound.value) {
        Some(item) => BoundPart {
            item,
            is_there: true,
            is_exact: bound.is_exact,
        },
        None => none,
    }
}

/// Tells why bytes are read as no statistics, and gives the status.
fn tell_read(refusal: ReadError, fault: &mut Fault) -> u32
    ensures status { result ≡ status_of_read refusal }
    ensures fault { fault.new ≡ fault_of_read fault.old refusal }
    ensures refused { ¬ (HasAnswer result) }
{
    match refusal {
        ReadError::OutOfMemory => NO_MEMORY,
        ReadError::BadBytes { offset } => at(0, offset, fault, BAD_BYTES),
        ReadError::NotAValue => at(0, 0, fault, NOT_A_VALUE),
    }
}
