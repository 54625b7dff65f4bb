//! The beginning of a stream is read, which says how its records are read.

ghost use Rattle.std.specs.Prelude.{◌≡◌, ℕ, List, [], All, IfErr, IfOk, MatchBool, None, Some, is_some, map, true};
ghost use Rattle.std.specs.Option.{option_copied};
ghost use Rattle.csv_columns.specs.Names.{IsLine, texts};
ghost use Rattle.csv_columns.specs.Setups.{IsDelimiter};
ghost use Rattle.setup_guessing.specs.Columns.{AreGuessedWith, NeedsGuesses};
ghost use Rattle.zone_index.specs.Errors.{IsOfStream};
ghost use Rattle.zone_map.specs.Preparing.{IsBegun, IsPrepared, IsRead, byte_said, delimiter_said};

use crate::column_lists::{NameText, columns_in, columns_text, columns_with};
use crate::commands::Reading;
use crate::program_errors::{About, BAD_DELIMITER, ProgramError};
use csv_columns::{Guessed, NO_DELIMITER, NamedColumn, Numbers, Setup, is_line};
use csv_records::Delimiter;
use logical_types::LogicalType;
use record_rows::Kind;
use setup_guessing::{GUESSED_FROM, guess_others, needs_guesses};
use std::alloc::{AllocError, Global};
use std::fmt::Write;
use std::io::BufRead;
use zone_index::{SearchError, take_records};

/// The first records of a stream, which were read, and how all are to be read.
#[derive(Drop)]
pub struct Prepared {
    /// How they are to be read.
    pub setup: Setup,
    /// How many bytes the header has.
    pub start: u64,
    /// The records that were read.
    pub first: Vec<u8>,
    /// What is to be told of the columns, if some were guessed.
    pub told: Option<String>,
}

/// Reads the header of a stream if it has one, and its first records if columns are to be guessed.
///
/// An error is about all files if what is said cannot be so: a delimiter that is none, a list of columns that is
/// none, or a null of several lines.
pub fn prepare<B: BufRead>(
    alloc: Global,
    reading: &Reading<'_>,
    reader: &mut B,
) -> Result<Prepared, ProgramError>
    ensures { IfOk result (IsPrepared reading.now (B.remaining reader.old) (B.remaining reader.new)) }
{
    let delimiter = delimiter_in(reading.delimiter)?;
    let given = columns_given(alloc, reading.columns)?;
    let nulls = null_words(alloc, &reading.nulls)?;
    let Begun {
        header,
        first,
        guesses,
    } = begin(alloc, delimiter, reading.has_header, &given, reader)?;
    let (columns, told) = if guesses {
        with_guessed(alloc, delimiter, &nulls, &header, &first, &given)?
    } else {
        (given, None)
    };
    Ok(Prepared {
        setup: Setup {
            numbers: Numbers {
                delimiter: delimiter.byte,
                is_lenient: reading.is_lenient,
                bound_length: 0,
                zone_rows: 0,
            },
            nulls,
            columns,
        },
        start: header.len() as u64,
        first,
        told,
    })
}

/// The delimiter that a word says: one byte, `tab`, or `none`. Without a word it is a comma.
fn delimiter_in(word: Option<&str>) -> Result<Delimiter, ProgramError>
    ensures said { IfOk result (λ delimiter. delimiter_said (option_copied word.entry) ≡ Some delimiter.byte) }
    ensures valid { IfOk result (λ delimiter. IsDelimiter delimiter.byte) }
    ensures refused { IfErr result (λ _. (byte : ℕ) → delimiter_said (option_copied word.entry) ≡ Some byte
        → ¬ (IsDelimiter byte)) }
{
    let said = match word {
        Some(word) => byte_in(word.as_bytes()),
        None => Some(b','),
    };
    match said {
        Some(byte) => match Delimiter::new(byte) {
            Some(delimiter) => Ok(delimiter),
            None => Err(ProgramError::fixed(About::AllFiles, BAD_DELIMITER)),
        },
        None => Err(ProgramError::fixed(About::AllFiles, BAD_DELIMITER)),
    }
}

/// The byte that a word says: the one that it has, `tab`, or `none`.
fn byte_in(word: &[u8]) -> Option<u8>
    ensures { result ≡ byte_said word.now }
{
    match word {
        [byte] => Some(*byte),
        b"tab" => Some(b'\t'),
        b"none" => Some(NO_DELIMITER),
        _ => None,
    }
}

/// The columns that are given, if a text lists some.
fn columns_given(alloc: Global, text: Option<&str>) -> Result<Vec<NamedColumn>, ProgramError>
    ensures { IfOk result (λ given. text.entry ≡ None → given.items ≡ []) }
{
    match text {
        Some(text) => columns_in(alloc, text),
        None => Ok(Vec::new(alloc)),
    }
}

/// The words that are nulls, each of one line.
fn null_words(alloc: Global, words: &[&str]) -> Result<Vec<String>, ProgramError>
    ensures words { IfOk result (λ nulls. texts nulls.items ≡ map (λ word. word.now) words.now) }
    ensures lines { IfOk result (λ _. All IsLine (map (λ word. word.now) words.now)) }
{
    let mut nulls = Vec::new(alloc);
    for word in words {
        if !is_line(word) {
            return Err(ProgramError::fixed(About::AllFiles, "--null: a word of one line"));
        }
        nulls.push(String::from_str(alloc, word)?)?;
    }
    Ok(nulls)
}

/// What was read of a stream.
#[derive(Drop)]
struct Begun {
    /// The header, if it has one.
    header: Vec<u8>,
    /// The first records behind it, if columns are guessed.
    first: Vec<u8>,
    /// Whether columns are guessed.
    guesses: bool,
}

/// Reads the header of a stream if it has one, and its first records if it is to be guessed what columns it
/// has beside those that are given.
fn begin<B: BufRead>(
    alloc: Global,
    delimiter: Delimiter,
    has_header: bool,
    given: &[NamedColumn],
    reader: &mut B,
) -> Result<Begun, ProgramError>
    ensures begun { IfOk result (λ begun. (bytes : List ℕ) → B.remaining reader.old ≡ Some bytes
        → IsBegun delimiter.byte has_header begun.guesses bytes begun.header.items begun.first.items
        (B.remaining reader.new)) }
    ensures guesses { IfOk result (λ begun. MatchBool begun.guesses
        (NeedsGuesses delimiter.byte begun.header.items given.now)
        (¬ (NeedsGuesses delimiter.byte begun.header.items given.now))) }
{
    let header = first_records(alloc, delimiter, u64::from(has_header), reader)?;
    let guesses = needs_guesses(alloc, delimiter, &header, given)?;
    let guessed_from = if guesses { GUESSED_FROM } else { 0 };
    let first = first_records(alloc, delimiter, guessed_from, reader)?;
    Ok(Begun {
        header,
        first,
        guesses,
    })
}

/// So many records of a stream, or all that are left.
fn first_records<B: BufRead>(
    alloc: Global,
    delimiter: Delimiter,
    count: u64,
    reader: &mut B,
) -> Result<Vec<u8>, SearchError>
    ensures read { IfOk result (λ text. (bytes : List ℕ) → B.remaining reader.old ≡ Some bytes
        → IsRead delimiter.byte count bytes text.items (B.remaining reader.new)) }
    ensures why { IfErr result IsOfStream }
{
    let mut text = Vec::new(alloc);
    if count > 0 {
        take_records(delimiter, count, &mut text, reader)?;
    }
    Ok(text)
}

/// The columns that are guessed, but for those that are given, and what is to be told of them.
fn with_guessed(
    alloc: Global,
    delimiter: Delimiter,
    nulls: &[String],
    header: &[u8],
    first: &[u8],
    given: &[NamedColumn],
) -> Result<(Vec<NamedColumn>, Option<String>), AllocError>
    ensures columns { IfOk result (λ made. AreGuessedWith delimiter.byte (texts nulls.now) header.now first.now
        given.now made.0.items) }
    ensures told { IfOk result (λ made. is_some made.1 ≡ true) }
{
    let Guessed {
        columns,
        have_numbers,
    } = guess_others(alloc, delimiter, nulls, header, first, given)?;
    let mut told = columns_text(alloc, &columns)?;
    for (place, (named, has_numbers)) in columns.iter().zip(&have_numbers).enumerate() {
        if *has_numbers && given.iter().all(|column| column.name != named.name) {
            add_note(alloc, &columns, place, &named.name, &mut told)?;
        }
    }
    Ok((columns, Some(told)))
}

/// Adds what is told of a column, of this name and at this place, whose words are numbers, and that is text
/// all the same.
fn add_note(
    alloc: Global,
    columns: &[NamedColumn],
    place: usize,
    name: &str,
    notes: &mut String,
) -> Result<(), AllocError> {
    let name = NameText(name);
    let taking = columns_with(alloc, columns, place, Kind::Logical(LogicalType::Float64))?;
    write!(
        notes,
        "\nthe words of {name} are numbers, and taken as text; --columns '{taking}' takes them as numbers"
    )?;
    Ok(())
}
