//! Why a search has no answer, as it is told.

ghost use Rattle.std.specs.Prelude.{◌≡◌};
ghost use Rattle.vortex_c.specs.SearchWords.{HasAnswer, code_of_cause, code_of_fault, column_of_cause};
ghost use Rattle.vortex_c.specs.SearchWords.{BadRoot, fault_of_plan, fault_of_search, fault_of_sought};
ghost use Rattle.vortex_c.specs.SearchWords.{status_of_plan, status_of_search, status_of_sought};

use crate::sql::place_and_code;
use crate::status::{BAD_BYTES, BAD_FILTER, BAD_OFFSETS, NO_MEMORY, NOT_UTF8, REFUSED};
use file_search::{PlanError, SoughtError};
use zone_index::{Cause, EncodingError, SearchError};

/// Where a mistake is in what a search was given, or in a record.
#[derive(Clone, Copy)]
#[repr(C)]
pub struct SearchFault {
    /// Which byte of the words, which zone, or where in the file a record begins.
    pub place: u64,
    /// Which column does not take its field, or which bytes are not as they are to be.
    pub column: u64,
    /// The code of what is wrong.
    pub reason: u32,
}

/// The bytes of a root.
const ROOT: u64 = 0;

/// The bytes of blocks.
const BLOCKS: u64 = 1;

/// The text of a setup.
const SETUP: u64 = 2;

/// Tells why there is no plan, and gives the status.
pub(crate) fn tell_plan(cause: PlanError, fault: &mut SearchFault) -> u32
    ensures status { result ≡ status_of_plan cause }
    ensures fault { fault.new ≡ fault_of_plan cause fault.old }
    ensures refused { ¬ (HasAnswer result) }
{
    match cause {
        PlanError::NoMemory => NO_MEMORY,
        PlanError::BadRoot(cause) => tell(0, ROOT, code_of_fault(cause), fault, BAD_BYTES),
        PlanError::BadBlocks(cause) => tell(0, BLOCKS, code_of_fault(cause), fault, BAD_BYTES),
        PlanError::Unsought(cause) => tell_sought(cause, fault),
        PlanError::FarZone(zone) => tell(zone as u64, 0, 0, fault, BAD_OFFSETS),
    }
}

/// Tells why nothing is sought, and gives the status.
pub(crate) fn tell_sought(cause: SoughtError, fault: &mut SearchFault) -> u32
    ensures status { result ≡ status_of_sought cause }
    ensures fault { fault.new ≡ fault_of_sought cause fault.old }
    ensures refused { ¬ (HasAnswer result) }
{
    match cause {
        SoughtError::NoMemory => NO_MEMORY,
        SoughtError::NoSetup => tell(0, SETUP, 0, fault, BAD_BYTES),
        SoughtError::NotUtf8 => tell(0, 0, 0, fault, NOT_UTF8),
        SoughtError::NoFilter(cause) => {
            let (place, code) = place_and_code(cause);
            tell(place as u64, 0, code, fault, BAD_FILTER)
        }
    }
}

/// Tells why records were not searched, and gives the status. Only memory and a record can be the cause.
pub(crate) fn tell_search(cause: SearchError, fault: &mut SearchFault) -> u32
    ensures status { result ≡ status_of_search cause }
    ensures fault { fault.new ≡ fault_of_search cause fault.old }
    ensures refused { ¬ (HasAnswer result) }
{
    match cause {
        SearchError::Refused(refusal) => {
            let column = column_of(&refusal.cause);
            let reason = code_of(&refusal.cause);
            tell(refusal.place, column, reason, fault, REFUSED)
        }
        _ => NO_MEMORY,
    }
}

/// Tells that bytes are not the root of an index, and gives the status.
pub(crate) fn tell_root(cause: EncodingError, fault: &mut SearchFault) -> u32
    ensures status { result ≡ status_of_plan (BadRoot cause) }
    ensures fault { fault.new ≡ fault_of_plan (BadRoot cause) fault.old }
    ensures refused { ¬ (HasAnswer result) }
{
    tell(0, ROOT, code_of_fault(cause), fault, BAD_BYTES)
}

/// Tells what is wrong, and gives the status back.
pub(crate) fn tell(
    place: u64,
    column: u64,
    reason: u32,
    fault: &mut SearchFault,
    status: u32,
) -> u32
    ensures status { result ≡ status }
    ensures fault { fault.new ≡ record { place = place; column = column; reason = reason } }
{
    *fault = SearchFault {
        place,
        column,
        reason,
    };
    status
}

/// The code of what is wrong with the bytes of an index.
fn code_of_fault(fault: EncodingError) -> u32
    ensures { result ≡ code_of_fault fault }
{
    match fault {
        EncodingError::Short => 0,
        EncodingError::Magic => 1,
        EncodingError::Version => 2,
        EncodingError::Damaged => 3,
        EncodingError::Trailing => 4,
    }
}

/// The column that does not take its field, and else 0.
fn column_of(cause: &Cause) -> u64
    ensures { result ≡ column_of_cause cause.now }
{
    match cause {
        Cause::Word { column, word: _ } => *column,
        Cause::FieldCount | Cause::LoneReturn => 0,
    }
}

/// The code of why a record is no row.
fn code_of(cause: &Cause) -> u32
    ensures { result ≡ code_of_cause cause.now }
{
    match cause {
        Cause::Word { column: _, word: _ } => 0,
        Cause::FieldCount => 1,
        Cause::LoneReturn => 2,
    }
}
