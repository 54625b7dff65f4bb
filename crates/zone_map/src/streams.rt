//! Files without an index and standard input are searched whole.

ghost use Rattle.std.specs.Prelude.{◌≡◌};

use crate::answering::{PIECE, find_whole};
use crate::file_searches::{FileSearch, Form};
use crate::lines::{Front, KnownFront, LineSink};
use crate::loading::Sought;
use crate::locating::located;
use crate::preparing::{Prepared, prepare};
use crate::program_errors::ProgramError;
use csv_columns::{NO_DELIMITER, NamedColumn, Numbers, Setup};
use record_rows::{ColumnType, Kind};
use std::alloc::Global;
use std::io::{BufRead, BufWriter, Read, Stdout};
use std::marker::Brand;
use vortex_dtype::Nullability;
use zone_index::{Matcher, NumberedSink, PlainSink, SearchError, count_rest};

/// Answers a search of a whole stream, and says how many rows match.
pub fn search_stream<B: BufRead>(
    rt: &HostRuntime,
    search: FileSearch<'_, '_>,
    reader: &mut B,
) -> Result<u64, ProgramError> {
    let Prepared {
        setup,
        start,
        first,
        told,
    } = prepare(rt.alloc(), &search.request.reading, reader)?;
    let mut rest = first.as_slice().chain(reader);
    let sought = sought_in(rt, search, setup, &told)?;
    match answer_stream(rt, search, &sought.matcher(), start, &mut rest) {
        Ok(found) => Ok(found),
        Err(fault) => Err(located(rt, search.path(), &sought.setup.columns, &fault)),
    }
}

/// Answers a search of all that a stream has left, on standard output. The header has so many
/// bytes.
fn answer_stream<M: Matcher, B: BufRead>(
    rt: &HostRuntime,
    search: FileSearch<'_, '_>,
    matcher: &M,
    start: u64,
    reader: &mut B,
) -> Result<u64, SearchError> {
    let alloc = rt.alloc();
    match search.form() {
        Form::Count => count_rest(alloc, PIECE, start, matcher, reader),
        Form::Rows => {
            let mut sink = PlainSink::new(alloc, output(rt)?);
            find_whole(alloc, matcher, start, reader, &mut sink)
        }
        Form::NumberedRows => {
            let mut sink = NumberedSink::new(alloc, output(rt)?);
            find_whole(alloc, matcher, start, reader, &mut sink)
        }
        Form::Lines { has_number } => {
            let front = search.front(alloc, has_number)?;
            write_lines::<Brand, M, B>(alloc, matcher, start, reader, output(rt)?, front)
        }
    }
}

/// Writes the records of a stream that match as lines, each behind a front, and says how many they are.
fn write_lines<K: KnownFront, M: Matcher, B: BufRead>(
    alloc: Global,
    matcher: &M,
    start: u64,
    reader: &mut B,
    writer: BufWriter<Stdout>,
    front: Front,
) -> Result<u64, SearchError>
    requires text { front.text.items ≡ K.text }
    requires number { front.has_number ≡ K.has_number }
{
    let mut sink = LineSink::<K, BufWriter<Stdout>>::new(alloc, writer, front);
    find_whole(alloc, matcher, start, reader, &mut sink)
}

/// What is sought. If nothing is said of how records are read and the filter is none of the guessed
/// columns, it may be one of whole lines, by the name `line`.
fn sought_in(
    rt: &HostRuntime,
    search: FileSearch<'_, '_>,
    setup: Setup,
    told: &Option<String>,
) -> Result<Sought, ProgramError> {
    let filter = search.request.filter;
    match Sought::from_text(rt.alloc(), setup, filter) {
        Ok(sought) => {
            tell_columns(rt, search, told);
            Ok(sought)
        }
        Err(fault) => {
            if search.request.reading.is_said() {
                return Err(fault);
            }
            match sought_in_lines(rt.alloc(), filter) {
                Ok(sought) => Ok(sought),
                Err(_) => Err(fault),
            }
        }
    }
}

/// What is sought in whole lines.
fn sought_in_lines(alloc: Global, filter: &str) -> Result<Sought, ProgramError> {
    let lines = lines_setup(alloc)?;
    Sought::from_text(alloc, lines, filter)
}

/// Tells on standard error how records are read, if that is wanted and was guessed.
fn tell_columns(rt: &HostRuntime, search: FileSearch<'_, '_>, told: &Option<String>) {
    if let Some(text) = told {
        if search.request.tells {
            let note = search.note();
            let _ = eprintln!(rt; "{note}columns {text}");
        }
    }
}

/// Whole lines as one column.
fn lines_setup(alloc: Global) -> Result<Setup, ProgramError> {
    let line = NamedColumn {
        name: String::from_str(alloc, "line")?,
        column: ColumnType {
            kind: Kind::Utf8,
            nullability: Nullability::NonNullable,
        },
    };
    let numbers = Numbers {
        delimiter: NO_DELIMITER,
        is_lenient: false,
        bound_length: 0,
        zone_rows: 0,
    };
    let columns = vec![in alloc; line]?;
    Ok(Setup {
        numbers,
        nulls: Vec::new(alloc),
        columns,
    })
}

/// Standard output, through a buffer.
pub fn output(rt: &HostRuntime) -> Result<BufWriter<Stdout>, SearchError> {
    match BufWriter::new(rt.alloc(), rt.stdout()) {
        Ok(writer) => Ok(writer),
        Err(_) => Err(SearchError::Memory),
    }
}
