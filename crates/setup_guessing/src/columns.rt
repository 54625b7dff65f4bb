//! The columns of a file: those that are given, and those that are guessed.

ghost use Rattle.std.specs.Prelude.{◌≡◌, IfOk, MatchBool, length, map};
ghost use Rattle.setup_guessing.specs.Columns.{AreColumnsFor, AreGuessedWith, NeedsGuesses, column_for};
ghost use Rattle.setup_guessing.specs.Columns.{reading_with, with_given};
ghost use Rattle.csv_columns.specs.Guesses.{HaveNumbers, column_words, field_lists};
ghost use Rattle.csv_columns.specs.Names.{texts};

use csv_columns::{Guessed, NamedColumn, guess_columns, names_others, reading_of};
use csv_records::Delimiter;
use record_rows::ColumnType;
use std::alloc::{AllocError, Global};

/// The columns of a file with this header: guessed from these records, if none is given, or if the header
/// names each that is given and more. Those that are given stay as they are.
pub(crate) fn columns_for(
    alloc: Global,
    delimiter: Delimiter,
    nulls: &[String],
    header: &[u8],
    records: &[u8],
    given: Vec<NamedColumn>,
) -> Result<Vec<NamedColumn>, AllocError>
    ensures { IfOk result (λ columns.
        AreColumnsFor delimiter.byte (texts nulls.now) header.now records.now given.items columns.items) }
{
    if needs_guesses(alloc, delimiter, header, &given)? {
        let guessed = guess_others(alloc, delimiter, nulls, header, records, &given)?;
        Ok(guessed.columns)
    } else {
        Ok(given)
    }
}

/// Whether other columns than those that are given are to be guessed: if none is given, or if the header names
/// each that is given and more.
pub fn needs_guesses(
    alloc: Global,
    delimiter: Delimiter,
    header: &[u8],
    given: &[NamedColumn],
) -> Result<bool, AllocError>
    ensures { IfOk result (λ needed. MatchBool needed (NeedsGuesses delimiter.byte header.now given.now)
        (¬ (NeedsGuesses delimiter.byte header.now given.now))) }
{
    if given.is_empty() {
        return Ok(true);
    }
    names_others(alloc, delimiter, header, given)
}

/// The columns that are guessed, but for what is given of them. Whether words are numbers that are text all the
/// same is said of each as it was guessed.
pub fn guess_others(
    alloc: Global,
    delimiter: Delimiter,
    nulls: &[String],
    header: &[u8],
    records: &[u8],
    given: &[NamedColumn],
) -> Result<Guessed, AllocError>
    ensures columns { IfOk result (λ guessed. AreGuessedWith delimiter.byte (texts nulls.now) header.now records.now
        given.now guessed.columns.items) }
    ensures numbers { IfOk result (λ guessed. HaveNumbers
        (column_words (reading_with (texts nulls.now)) (field_lists delimiter.byte records.now))
        guessed.have_numbers.items) }
    ensures flags { IfOk result (λ guessed. length guessed.have_numbers.items ≡ length guessed.columns.items) }
{
    let reading = reading_of(alloc, false, nulls)?;
    let mut guessed = guess_columns(alloc, delimiter, &reading, header, records)?;
    keep_given(given, &mut guessed.columns);
    Ok(guessed)
}

/// Gives back to each column that is given what it takes.
fn keep_given(given: &[NamedColumn], columns: &mut [NamedColumn])
    ensures { columns.new ≡ map (with_given given.now) columns.old }
{
    for named in columns.iter_mut() {
        named.column = column_for(given, named);
    }
}

/// What the column takes that is given by this one's name; if none is, what this one takes.
fn column_for(given: &[NamedColumn], guessed: &NamedColumn) -> ColumnType
    ensures { result ≡ column_for given.now guessed.now }
{
    match given.iter().find(|column| column.name == guessed.name) {
        Some(column) => column.column,
        None => guessed.column,
    }
}
