//! What the columns of a setup are written as.

ghost use Rattle.std.specs.Prelude.{◌≡◌, ◌≢◌, ◌<◌, ◌≤◌, ◌⊎◌, IfErr, IfOk, List, drop, length, map, take};
ghost use Rattle.vortex_c.specs.SearchColumns.{AreKindsOf, IsUnread, KindCode, SaysWhyNoKinds, kind_of_code};
ghost use Rattle.vortex_c.specs.SearchColumns.{kind_of_named};
ghost use Rattle.vortex_c.specs.SearchWords.{HasAnswer};

use crate::giving::give;
use crate::search_faults::{SearchFault, tell_sought};
use crate::status::{BUFFER_TOO_SMALL, GIVEN};
use column_items::KindCode;
use csv_columns::{NamedColumn, Setup};
use file_search::SoughtError;
use record_columns::code_of_column;
use std::alloc::{AllocError, Global};

/// What `doqallin_search_columns` writes each column of a setup as: the code of its kind, and of decimals their
/// precision and scale.
///
/// - `BUFFER_TOO_SMALL`: `count` says how many columns there are.
/// - `BAD_BYTES`: the setup is none, and `fault` says so.
/// - `NO_MEMORY`: `fault` is not written.
#[unsafe(no_mangle)]
pub extern "C" fn doqallin_column_kinds(
    alloc: Global,
    setup: &[u8],
    kinds: &mut [KindCode],
    count: &mut usize,
    fault: &mut SearchFault,
) -> u32
    ensures given { result ≡ GIVEN → AreKindsOf setup.now (take count.new kinds.new) }
    ensures within { result ≡ GIVEN → count.new ≤ length kinds.old }
    ensures small { result ≡ BUFFER_TOO_SMALL → length kinds.old < count.new }
    ensures needed { HasAnswer result → (all : List KindCode) × AreKindsOf setup.now all × (count.new ≡ length all) }
    ensures refused { (HasAnswer result) ⊎ SaysWhyNoKinds setup.now fault.old fault.new result }

    // What is not said to be written stays.
    ensures rest { result ≡ GIVEN → drop count.new kinds.new ≡ drop count.new kinds.old }
    ensures kept { result ≢ GIVEN → kinds.new ≡ kinds.old }
    ensures kept_count { (HasAnswer result) ⊎ (count.new ≡ count.old) }
    ensures kept_fault { HasAnswer result → fault.new ≡ fault.old }
{
    match kinds_of_setup(alloc, setup) {
        Ok(codes) => give(codes.as_slice(), kinds, count),
        Err(cause) => tell_sought(cause, fault),
    }
}

/// The codes of the columns of the setup that a text is.
fn kinds_of_setup(alloc: Global, text: &[u8]) -> Result<Vec<KindCode>, SoughtError>
    ensures kinds { IfOk result (λ codes. AreKindsOf text.now codes.items) }
    ensures refused { IfErr result (IsUnread text.now) }
{
    let Some(setup) = Setup::from_text(alloc, text)? else {
        return Err(SoughtError::NoSetup);
    };
    let codes = codes_of(alloc, &setup.columns)?;
    Ok(codes)
}

/// The codes of columns.
fn codes_of(alloc: Global, columns: &[NamedColumn]) -> Result<Vec<KindCode>, AllocError>
    ensures { IfOk result (λ codes. map kind_of_code codes.items ≡ map kind_of_named columns.now) }
{
    let mut codes = Vec::with_capacity(alloc, columns.len())?;
    for named in columns {
        codes.push(code_of_column(named.column))?;
    }
    Ok(codes)
}
