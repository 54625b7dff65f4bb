//! Indexes are made, or extended.

ghost use Rattle.std.specs.Prelude.{◌≡◌, ◌≤◌, ◌⊎◌, ◌++◌, [], ℕ, List, IfErr, IfOk, OnOk, Some, length, max};
ghost use Rattle.record_search.specs.Words.{HaveSizes, IfRefused, IsFullRowIndex, TellsOffset, before_refused, is_refused};
ghost use Rattle.record_search.specs.Words.{records_under};
ghost use Rattle.zone_map.specs.Zones.{GoesOn, Reopens};

use crate::commands::IndexRequest;
use crate::file_names::files_named;
use crate::file_searches::Note;
use crate::files::{at_place, buffered, from_place, open_file, save, stamp_of};
use crate::grown::{end_of, grown_end};
use crate::loading::{Loaded, load_there, schema_of};
use crate::locating::located;
use crate::preparing::{Prepared, prepare};
use crate::program_errors::{About, FAILED, FileError, ProgramError};
use crate::telling::tell_fault;
use crate::watching::Watched;
use csv_columns::{NamedColumn, Numbers, Setup};
use logical_types::{StorageType, storage_type};
use record_rows::{Kind, Schema};
use record_search::{RowDescriber, index_rows};
use std::alloc::Global;
use std::fs::File;
use std::io::BufRead;
use std::process::ExitCode;
use zone_index::{Index, Indexed, SearchError, Zone};

/// How many bytes a decimal of more than 18 digits is stored in.
const WIDE_LENGTH: usize = 16;

/// What is said of standard input in the place of a file.
const NO_FILE: &str = "an index is of a file, and not of standard input";

/// An index that is to have the zones from an offset on.
#[derive(Drop)]
struct Unfinished {
    /// The index, with the zones before the offset.
    loaded: Loaded,
    /// The offset.
    place: u64,
}

/// Writes the index of each file.
pub fn index_files(rt: &HostRuntime, request: &IndexRequest<'_>) -> Result<ExitCode, ProgramError> {
    let files = files_named(rt, &request.files)?;
    if let [file] = files.as_slice() {
        index_file(rt, request, file.as_str(), Note(None))?;
        return Ok(ExitCode::SUCCESS);
    }
    let mut has_failed = false;
    for file in &files {
        let name = file.as_str();
        if let Err(fault) = index_file(rt, request, name, Note(Some(name))) {
            tell_fault(rt, name, fault)?;
            has_failed = true;
        }
    }
    Ok(if has_failed {
        ExitCode::from(FAILED)
    } else {
        ExitCode::SUCCESS
    })
}

/// Writes the index of a file. What is told of it stands behind this.
fn index_file(
    rt: &HostRuntime,
    request: &IndexRequest<'_>,
    name: &str,
    note: Note<'_>,
) -> Result<(), ProgramError> {
    if name == "-" {
        return Err(ProgramError::fixed(About::File, NO_FILE));
    }
    let mut file = open_file(rt, name)?;
    let unfinished = if request.appends {
        extended(rt, name, &mut file)?
    } else {
        made(rt, request, name, note, &file)?
    };
    finish(rt, name, note, &file, unfinished)
}

/// The index of a file, before any zone.
fn made(
    rt: &HostRuntime,
    request: &IndexRequest<'_>,
    name: &str,
    note: Note<'_>,
    file: &File,
) -> Result<Unfinished, ProgramError> {
    let mut reader = from_place(rt.alloc(), file, 0)?;
    let prepared = prepare(rt.alloc(), &request.reading, &mut reader)?;
    if request.reading.has_header && prepared.start == 0 {
        return Err(ProgramError::of_file(rt.alloc(), name, FileError::NoHeader));
    }
    let Prepared {
        setup,
        start,
        first: _,
        told,
    } = prepared;
    let setup = with_sizes(setup, request);
    if let Some(text) = told {
        let _ = eprintln!(rt; "{note}columns {text}");
    }
    Ok(Unfinished {
        loaded: without_zones(rt.alloc(), setup, start)?,
        place: start,
    })
}

/// A setup with what a request says of zones and bounds.
fn with_sizes(setup: Setup, request: &IndexRequest<'_>) -> Setup
    ensures bounds { request.now.bound_length ≤ result.numbers.bound_length }
    ensures zones { result.numbers.zone_rows ≡ request.now.rows }
    ensures delimiter { result.numbers.delimiter ≡ setup.numbers.delimiter }
    ensures lenient { result.numbers.is_lenient ≡ setup.numbers.is_lenient }
    ensures nulls { result.nulls ≡ setup.nulls }
    ensures columns { result.columns ≡ setup.columns }
{
    let Setup {
        numbers,
        nulls,
        columns,
    } = setup;
    let bound_length = request.bound_length.max(least_length(&columns));
    Setup {
        numbers: Numbers {
            bound_length,
            zone_rows: request.rows,
            ..numbers
        },
        nulls,
        columns,
    }
}

/// How many bytes bounds have at least, so that no number is cut: those of a decimal of more than 18 digits,
/// if a column has such decimals.
fn least_length(columns: &[NamedColumn]) -> usize {
    let has_wide = columns.iter().any(|named| match named.column.kind {
        Kind::Logical(logical) => storage_type(logical) == StorageType::Bytes,
        _ => false,
    });
    if has_wide { WIDE_LENGTH } else { 0 }
}

/// An index without zones, of a file whose header has so many bytes.
fn without_zones(alloc: Global, setup: Setup, start: u64) -> Result<Loaded, ProgramError> {
    let index = Index {
        file_length: 0,
        changed: 0,
        setup: setup.to_text(alloc)?.into_bytes(),
        start,
        zones: Vec::new(alloc),
    };
    Ok(Loaded { index, setup })
}

/// The index of a file that grew, with the zones that are full.
fn extended(rt: &HostRuntime, name: &str, file: &mut File) -> Result<Unfinished, ProgramError> {
    let mut loaded = load_there(rt, name)?;
    let end = grown_by(rt, name, &loaded, file)?;
    let place = open_place(&mut loaded.index.zones, loaded.setup.numbers.zone_rows, end);
    Ok(Unfinished { loaded, place })
}

/// Where a file was indexed to that only grew.
fn grown_by(
    rt: &HostRuntime,
    name: &str,
    loaded: &Loaded,
    file: &mut File,
) -> Result<u64, ProgramError> {
    let schema = schema_of(rt.alloc(), &loaded.setup)?;
    let describer = RowDescriber {
        schema: &schema,
        bound_length: loaded.setup.numbers.bound_length,
    };
    let now = stamp_of(rt.alloc(), name, file)?;
    match grown_end(rt.alloc(), now.length, &loaded.index, &describer, file)? {
        Some(end) => Ok(end),
        None => Err(ProgramError::of_file(rt.alloc(), name, FileError::Changed)),
    }
}

/// Where the next zone begins, without a last one of fewer records, which is taken away.
fn open_place(zones: &mut Vec<Zone>, zone_rows: u64, end: u64) -> u64
    ensures { Reopens zone_rows zones.old.items zones.new.items result
        ⊎ GoesOn zone_rows end zones.old.items zones.new.items result }
{
    let Some(zone) = zones.last() else {
        return end;
    };
    if zone.records >= zone_rows {
        return end;
    }
    let place = zone.first;
    zones.pop();
    place
}

/// Adds the zones of the rest of a file to an index, and writes it.
fn finish(
    rt: &HostRuntime,
    name: &str,
    note: Note<'_>,
    file: &File,
    unfinished: Unfinished,
) -> Result<(), ProgramError> {
    let Unfinished { mut loaded, place } = unfinished;
    let schema = schema_of(rt.alloc(), &loaded.setup)?;
    let (nulls, longer) = add_zones(rt, name, file, &schema, place, &mut loaded)?;
    save(rt, name, loaded.setup.columns.len(), &loaded.index)?;
    if schema.reading.is_lenient() {
        let _ = eprintln!(rt;
            "{note}{nulls} words became nulls; {longer} records had fields too many"
        );
    }
    Ok(())
}

/// Adds the zones of a file from this offset on, and what the file is then. Says how many of its
/// fields were taken as nulls, and how many of its records have more fields than columns.
fn add_zones(
    rt: &HostRuntime,
    name: &str,
    file: &File,
    schema: &Schema,
    place: u64,
    loaded: &mut Loaded,
) -> Result<(u64, u64), ProgramError> {
    let before = stamp_of(rt.alloc(), name, file)?;
    let left = before.length.saturating_sub(place);
    let Indexed {
        mut zones,
        nulls,
        longer,
    } = zones_from(rt, name, file, schema, place, left, &loaded.setup)?;
    let after = stamp_of(rt.alloc(), name, file)?;
    if before != after || end_of(place, &zones) != before.length {
        return Err(ProgramError::of_file(rt.alloc(), name, FileError::Changing));
    }
    loaded.index.zones.append(&mut zones)?;
    loaded.index.file_length = before.length;
    loaded.index.changed = before.changed;
    Ok((nulls, longer))
}

/// The zones of a file from this offset on, of which so many bytes are left.
fn zones_from(
    rt: &HostRuntime,
    name: &str,
    file: &File,
    schema: &Schema,
    place: u64,
    left: u64,
    setup: &Setup,
) -> Result<Indexed, ProgramError> {
    let file = at_place(file, place)?;
    let mut reader = buffered(rt.alloc(), Watched::telling(file, rt.stderr(), left))?;
    match zones_of(rt.alloc(), schema, setup.numbers, place, &mut reader) {
        Ok(indexed) => {
            reader.get_ref().end();
            Ok(indexed)
        }
        Err(fault) => Err(located(rt, Some(name), &setup.columns, &fault)),
    }
}

/// The zones of what a reader has left of a file from this offset on, of as many records and with bounds of as
/// many bytes as is said.
fn zones_of<B: BufRead>(
    alloc: Global,
    schema: &Schema,
    numbers: Numbers,
    place: u64,
    reader: &mut B,
) -> Result<Indexed, SearchError>
    // They say all that is to be known of their rows.
    ensures full { IfOk result (λ indexed. (before bytes : List ℕ) → length before ≡ place
        → B.remaining reader.old ≡ Some bytes
        → IsFullRowIndex numbers.bound_length schema.now place indexed.zones.items (before ++ bytes)) }
    ensures sizes { IfOk result (λ indexed. (bytes : List ℕ) → B.remaining reader.old ≡ Some bytes
        → HaveSizes (max numbers.zone_rows 1) indexed.zones.items) }
    ensures ended { OnOk result ((bytes : List ℕ) → B.remaining reader.old ≡ Some bytes
        → B.remaining reader.new ≡ Some []) }
    // The record that is told is the first one that is refused.
    ensures first { IfErr result (IfRefused (λ refusal. (bytes : List ℕ) → B.remaining reader.old ≡ Some bytes
        → TellsOffset place (before_refused (is_refused schema.now) (records_under schema.now bytes)) refusal)) }
{
    let describer = RowDescriber {
        schema,
        bound_length: numbers.bound_length,
    };
    index_rows(alloc, &describer, numbers.zone_rows.max(1), place, reader)
}
