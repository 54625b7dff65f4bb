//! Casts of columns of integers.

ghost use Rattle.std.specs.Prelude.{◌≡◌, ◌≢◌, ◌*◌, ◌≤◌, IfErr, IfOk, OnErr, OnOk, Some, drop, length};
ghost use Rattle.arrow_columns.specs.declared.kinds.IntegerKind.{IntegerKind as AnyKind};
ghost use Rattle.vortex_c.specs.Words.{AreKinds, Integer, IsCastRefusal, IsColumnCast, IsFrontCast};
ghost use Rattle.vortex_c.specs.Words.{IsIntegerError, IsLeft, SaysWhyNoCast, fault_of_cast, integer_kind_at};
ghost use Rattle.vortex_c.specs.Words.{kind_in, status_of_cast, width_of, with_start};

use crate::fault::{Fault, place_in_column, status_of_column};
use crate::status::{BUFFER_TOO_SMALL, GIVEN, NONE, UNKNOWN_KIND};
use arrow_columns::{Column, ColumnError, IntegerKind, IntegerRows, Kind, Rows};

/// Why a column was not cast.
#[derive(Clone, Copy)]
pub(crate) enum CastRefusal {
    /// The code that is asked for is of no kind of integers.
    NotAKind,
    /// The column is not one of integers.
    NotIntegers,
    /// The column cannot be read.
    Unreadable(ColumnError),
    /// The buffer is too small.
    TooSmall,
    /// The kind lacks the integer of this row, the first such one.
    Without(usize),
}

/// The rows of a column of integers, and the kind that they are cast to.
#[derive(Clone, Copy)]
struct Castable<'a> {
    rows: IntegerRows<'a>,
    into: IntegerKind,
}

/// Casts a column of integers to another kind: writes an item for each row, 0 for a null.
/// Takes no memory.
///
/// - `UNKNOWN_KIND`: a code is of no kind of integers: `to` with column 1, the column's with 0.
/// - `TOO_MANY_ROWS`, `TOO_SHORT`: the column cannot be read.
/// - `BUFFER_TOO_SMALL`: the buffer has fewer bytes than the items.
/// - `NONE`: the kind lacks an integer. `fault` says the row of the first.
#[unsafe(no_mangle)]
pub extern "C" fn doqallin_cast_column(
    column: &Column,
    to: u8,
    buffer: &mut [u8],
    fault: &mut Fault,
) -> u32
    ensures given { result ≡ GIVEN → IsColumnCast column.now to buffer.new }
    ensures rest { result ≡ GIVEN → (kind : AnyKind) → integer_kind_at to ≡ Some kind
        → drop (column.now.length * width_of kind) buffer.new
        ≡ drop (column.now.length * width_of kind) buffer.old }
    ensures no_fault { result ≡ GIVEN → fault.new ≡ fault.old }
    ensures refused { result ≢ GIVEN
        → SaysWhyNoCast column.now to (length buffer.old) fault.old fault.new result }
    ensures kept { result ≢ GIVEN → buffer.new ≡ buffer.old }
{
    match cast(*column, to, buffer) {
        Ok(()) => GIVEN,
        Err(refusal) => {
            tell(refusal, fault);
            status_of_refusal(refusal)
        }
    }
}

/// The same, in one pass if there is no bitmap. It differs where the kind lacks an integer.
///
/// - `NONE`: the rows before the first such one are written. `fault` says which it is, and the
///   buffer from there on stays.
#[unsafe(no_mangle)]
pub extern "C" fn doqallin_cast_front(
    column: &Column,
    to: u8,
    buffer: &mut [u8],
    fault: &mut Fault,
) -> u32
    ensures given { result ≡ GIVEN → IsColumnCast column.now to buffer.new }
    ensures rest { result ≡ GIVEN → (kind : AnyKind) → integer_kind_at to ≡ Some kind
        → drop (column.now.length * width_of kind) buffer.new
        ≡ drop (column.now.length * width_of kind) buffer.old }
    ensures no_fault { result ≡ GIVEN → fault.new ≡ fault.old }
    ensures refused { result ≢ GIVEN
        → SaysWhyNoCast column.now to (length buffer.old) fault.old fault.new result }
    ensures front { result ≡ NONE → IsFrontCast column.now to fault.new.place buffer.new }
    ensures past { result ≡ NONE → (kind : AnyKind) → integer_kind_at to ≡ Some kind
        → drop (fault.new.place * width_of kind) buffer.new
        ≡ drop (fault.new.place * width_of kind) buffer.old }
    ensures kept { result ≢ GIVEN → result ≢ NONE → buffer.new ≡ buffer.old }
{
    match cast_front(*column, to, buffer) {
        Ok(()) => GIVEN,
        Err(refusal) => {
            tell(refusal, fault);
            status_of_refusal(refusal)
        }
    }
}

/// Casts a column of integers to the kind with this code.
fn cast(column: Column, to: u8, buffer: &mut [u8]) -> Result<(), CastRefusal>
    ensures cast { OnOk result (IsColumnCast column.entry to buffer.new) }
    ensures rest { OnOk result ((kind : AnyKind) → integer_kind_at to ≡ Some kind
        → drop (column.entry.length * width_of kind) buffer.new
        ≡ drop (column.entry.length * width_of kind) buffer.old) }
    ensures refused { IfErr result (λ r. IsCastRefusal column.entry to (length buffer.old) r) }
    ensures kept { OnErr result (buffer.new ≡ buffer.old) }
{
    let given = match prepare(column, to, buffer.len()) {
        Ok(given) => given,
        Err(refusal) => return Err(refusal),
    };
    match given.rows.cast(given.into, buffer) {
        Ok(()) => Ok(()),
        Err(fault) => Err(CastRefusal::Without(fault.row)),
    }
}

/// The same, but writes the rows before the first without a value.
fn cast_front(column: Column, to: u8, buffer: &mut [u8]) -> Result<(), CastRefusal>
    ensures cast { OnOk result (IsColumnCast column.entry to buffer.new) }
    ensures rest { OnOk result ((kind : AnyKind) → integer_kind_at to ≡ Some kind
        → drop (column.entry.length * width_of kind) buffer.new
        ≡ drop (column.entry.length * width_of kind) buffer.old) }
    ensures refused { IfErr result (λ r. IsCastRefusal column.entry to (length buffer.old) r) }
    ensures left { IfErr result (λ r. IsLeft column.entry to buffer.old buffer.new r) }
{
    let given = match prepare(column, to, buffer.len()) {
        Ok(given) => given,
        Err(refusal) => return Err(refusal),
    };
    match given.rows.cast_front(given.into, buffer) {
        Ok(()) => Ok(()),
        Err(fault) => Err(CastRefusal::Without(fault.row)),
    }
}

/// The rows of a column that can be cast to a buffer of so many bytes, and the kind with this code.
fn prepare(column: Column, to: u8, size: usize) -> Result<Castable, CastRefusal>
    ensures kinds { IfOk result (λ given. AreKinds column.entry to given.rows.kind given.into) }
    ensures column { IfOk result (λ given. given.rows.column ≡ with_start column.entry) }
    ensures length { IfOk result (λ given. given.rows.column.length ≡ column.entry.length) }
    ensures fits { IfOk result (λ given. column.entry.length * width_of given.into ≤ size) }
    ensures refused { IfErr result (λ r. IsCastRefusal column.entry to size r) }
    ensures untried { IfErr result (λ r. status_of_cast r ≢ NONE) }
{
    let Some(into) = IntegerKind::from_code(to) else {
        return Err(CastRefusal::NotAKind);
    };
    let Some(Kind::Integer(from)) = Kind::with_code(column.kind, column.precision, column.scale)
    else {
        return Err(CastRefusal::NotIntegers);
    };
    let rows = match integer_rows(from, column) {
        Ok(rows) => rows,
        Err(fault) => return Err(CastRefusal::Unreadable(fault)),
    };
    if size / into.width() < column.length {
        return Err(CastRefusal::TooSmall);
    }
    Ok(Castable { rows, into })
}

/// The rows of a column of integers.
fn integer_rows(from: IntegerKind, column: Column) -> Result<IntegerRows, ColumnError>
    requires { kind_in column ≡ Some (Integer from) }
    ensures rows { IfOk result (λ rows. (rows.kind ≡ from) × (rows.column ≡ with_start column.entry)) }
    ensures fault { IfErr result (λ fault. IsIntegerError from (with_start column.entry) fault) }
{
    match column.check() {
        Ok(Rows::Integers(rows)) => Ok(rows),
        Ok(_) => unreachable!(),
        Err(fault) => Err(fault),
    }
}

/// Tells where the mistake is.
fn tell(refusal: CastRefusal, fault: &mut Fault)
    ensures { fault.new ≡ fault_of_cast fault.old refusal }
{
    match refusal {
        CastRefusal::NotAKind => *fault = Fault {
            column: 1,
            place: 0,
        },
        CastRefusal::NotIntegers => *fault = Fault {
            column: 0,
            place: 0,
        },
        CastRefusal::Unreadable(cause) => {
            *fault = Fault {
                column: 0,
                place: place_in_column(cause),
            }
        }
        CastRefusal::TooSmall => {}
        CastRefusal::Without(row) => {
            *fault = Fault {
                column: 0,
                place: row,
            }
        }
    }
}

/// The status of a refusal.
fn status_of_refusal(refusal: CastRefusal) -> u32
    ensures status { result ≡ status_of_cast refusal }
    ensures refused { result ≢ GIVEN }
{
    match refusal {
        CastRefusal::NotAKind | CastRefusal::NotIntegers => UNKNOWN_KIND,
        CastRefusal::Unreadable(fault) => status_of_column(fault),
        CastRefusal::TooSmall => BUFFER_TOO_SMALL,
        CastRefusal::Without(_) => NONE,
    }
}
