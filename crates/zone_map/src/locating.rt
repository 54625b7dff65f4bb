//! Where a record stands that has no row.

use crate::column_lists::columns_with;
use crate::program_errors::{About, BadRecord, ProgramError, RecordPlace};
use csv_columns::NamedColumn;
use record_rows::Kind;
use std::alloc::{AllocError, Global};
use std::fs::File;
use std::io::{self, Read};
use std::str;
use zone_index::{Cause, SearchError};

/// How many bytes are read at a time.
const PIECE: usize = 65536;

/// The error of a search in a file, or in standard input without a file's name. Of a record it
/// tells the line in the file, and the column.
pub fn located(
    rt: &HostRuntime,
    file: Option<&str>,
    columns: &[NamedColumn],
    fault: &SearchError,
) -> ProgramError {
    match fault {
        SearchError::Refused(refusal) => {
            let place = record_place(rt, file, refusal.place);
            let about = match place {
                RecordPlace::Line { file: _, line: _ } => About::NamedFile,
                RecordPlace::Byte(_) => About::File,
            };
            let text = bad_record(rt.alloc(), place, columns, &refusal.cause);
            ProgramError::made(about, text)
        }
        _ => ProgramError::of_search(fault),
    }
}

/// What is said of a record without a row.
fn bad_record<'a>(
    alloc: Global,
    place: RecordPlace<'a>,
    columns: &'a [NamedColumn],
    cause: &'a Cause,
) -> Result<String, AllocError> {
    let taking = match cause {
        Cause::Word { column, word } => columns_with(
            alloc,
            columns,
            *column as usize,
            kind_taking(word),
        )?,
        _ => String::new(alloc),
    };
    let bad = BadRecord {
        place,
        columns,
        cause,
        taking: &taking,
    };
    format!(in alloc; "{bad}")
}

/// The kind of a column that takes a word: text, or its bytes if it is no UTF-8.
fn kind_taking(word: &[u8]) -> Kind {
    match str::from_utf8(word) {
        Ok(_) => Kind::Utf8,
        Err(_) => Kind::Bytes,
    }
}

/// The line that has this byte, of a file that can be read again.
fn record_place<'a>(rt: &HostRuntime, file: Option<&'a str>, byte: u64) -> RecordPlace<'a> {
    let Some(file) = file else {
        return RecordPlace::Byte(byte);
    };
    match line_feeds(rt, file, byte) {
        Ok(feeds) => RecordPlace::Line {
            file,
            line: feeds.saturating_add(1),
        },
        Err(_) => RecordPlace::Byte(byte),
    }
}

/// How many line feeds stand before this byte of a file.
fn line_feeds(rt: &HostRuntime, file: &str, place: u64) -> io::Result<u64> {
    let mut reader = File::open(rt, file)?.take(place);
    let mut piece = vec![in rt.alloc(); 0u8; PIECE]?;
    let mut feeds = 0u64;
    for _ in 0..u64::MAX {
        let count = reader.read(&mut piece)?;
        if count == 0 {
            break;
        }
        feeds = feeds.saturating_add(feeds_in(&piece[..count]));
    }
    Ok(feeds)
}

/// How many line feeds a text has.
fn feeds_in(text: &[u8]) -> u64 {
    text.iter().filter(|byte| **byte == b'\n').count() as u64
}
