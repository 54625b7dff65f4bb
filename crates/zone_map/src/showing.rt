//! Zones are shown.

use crate::answering::flushed;
use crate::column_lists::columns_text;
use crate::loading::{Loaded, load_there, schema_of};
use crate::program_errors::ProgramError;
use crate::streams::output;
use csv_columns::NamedColumn;
use logical_scalars::word_of_scalar;
use record_rows::{ColumnType, Kind};
use record_search::read_statistics;
use std::alloc::{AllocError, Global};
use std::fmt::Write as WriteText;
use std::io::Write;
use std::process::ExitCode;
use vortex_statistics::{Bound, ColumnStatistics};
use vortex_value::Scalar;
use zone_index::{SearchError, Zone};

/// Writes what an index is of, and each zone: its place, its bytes, records and rows, and the
/// bounds of its columns.
pub fn show(rt: &HostRuntime, file: &str) -> Result<ExitCode, ProgramError> {
    let loaded = load_there(rt, file)?;
    let schema = schema_of(rt.alloc(), &loaded.setup)?;
    let mut writer = output(rt)?;
    let done = show_zones(rt.alloc(), &loaded, &schema.columns, &mut writer);
    flushed(done, writer.flush().map_err(|_| SearchError::Write))?;
    Ok(ExitCode::SUCCESS)
}

/// Writes an index.
fn show_zones<W: Write>(
    alloc: Global,
    loaded: &Loaded,
    types: &[ColumnType],
    writer: &mut W,
) -> Result<(), SearchError> {
    write_text(&heading(alloc, loaded)?, writer)?;
    for (place, zone) in loaded.index.zones.iter().enumerate() {
        let number = place.saturating_add(1);
        write_text(
            &zone_text(alloc, number, zone, types, &loaded.setup.columns)?,
            writer,
        )?;
    }
    Ok(())
}

/// Writes a text.
fn write_text<W: Write>(text: &str, writer: &mut W) -> Result<(), SearchError> {
    match writer.write_all(text.as_bytes()) {
        Ok(()) => Ok(()),
        Err(_) => Err(SearchError::Write),
    }
}

/// The line of the whole file.
fn heading(alloc: Global, loaded: &Loaded) -> Result<String, AllocError> {
    let columns = columns_text(alloc, &loaded.setup.columns)?;
    let length = loaded.index.file_length;
    let count = loaded.index.zones.len();
    let rows = loaded.setup.numbers.zone_rows;
    format!(in alloc; "{length} bytes, {count} zones of {rows} records, columns {columns}\n")
}

/// The lines of a zone.
fn zone_text(
    alloc: Global,
    number: usize,
    zone: &Zone,
    types: &[ColumnType],
    columns: &[NamedColumn],
) -> Result<String, AllocError> {
    let Zone {
        first,
        length,
        records,
        rows,
        statistics,
    } = zone;
    let mut text = String::new(alloc);
    writeln!(
        text,
        "zone {number}: byte {first}, {length} bytes, {records} records, {rows} rows"
    )?;
    push_columns(alloc, types, columns, statistics, &mut text)?;
    Ok(text)
}

/// Appends the lines of the columns, if these are their statistics.
fn push_columns(
    alloc: Global,
    types: &[ColumnType],
    columns: &[NamedColumn],
    statistics: &[u8],
    text: &mut String,
) -> Result<(), AllocError> {
    if let Some(statistics) = read_statistics(alloc, types, statistics)? {
        for (named, known) in columns.iter().zip(statistics.iter()) {
            push_column(alloc, named, known, text)?;
        }
    }
    Ok(())
}

/// Appends the line of a column: its nulls and its bounds.
fn push_column(
    alloc: Global,
    named: &NamedColumn,
    known: &ColumnStatistics,
    text: &mut String,
) -> Result<(), AllocError> {
    write!(text, "  {}:", named.name)?;
    if let Some(nulls) = known.null_count {
        write!(text, " {nulls} null,")?;
    }
    let kind = named.column.kind;
    push_bound(alloc, kind, "from", &known.lower, text)?;
    push_bound(alloc, kind, "to", &known.upper, text)?;
    text.push('\n')
}

/// Appends a bound.
fn push_bound(
    alloc: Global,
    kind: Kind,
    word: &str,
    bound: &Option<Bound>,
    text: &mut String,
) -> Result<(), AllocError> {
    write!(text, " {word} ")?;
    match bound {
        Some(bound) => push_value(alloc, kind, &bound.value, text),
        None => text.push('?'),
    }
}

/// Appends a value, one of a logical type as a word that is read as it.
fn push_value(
    alloc: Global,
    kind: Kind,
    value: &Scalar,
    text: &mut String,
) -> Result<(), AllocError> {
    if let Kind::Logical(logical) = kind {
        if let Some(word) = word_of_scalar(alloc, logical, value)? {
            return text.push_str(&word);
        }
    }
    write!(text, "{value}")?;
    Ok(())
}
