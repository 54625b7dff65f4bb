//! A setup whose columns are guessed.

ghost use Rattle.std.specs.Prelude.{IfNone, IfOk, IfSome, string_bytes};
ghost use Rattle.csv_columns.specs.Setups.{IsDelimiter, IsSetup, setup_value};
ghost use Rattle.setup_guessing.specs.Setups.{IsGuessedSetup, IsGuessedText, IsNoSetup};

use crate::columns::columns_for;
use crate::records::first_records;
use csv_columns::Setup;
use csv_records::Delimiter;
use std::alloc::{AllocError, Global};

/// How many records columns are guessed from at most.
pub const GUESSED_FROM: u64 = 1000;

/// A setup whose columns were guessed.
#[derive(Drop)]
pub struct GuessedSetup {
    /// The setup.
    pub setup: Setup,
    /// How many bytes of the file are its header.
    pub start: usize,
}

/// The setup of a file that begins with this text, or that is the text if `is_all`: as the one that is
/// given, but for columns that are guessed from the first records. They are guessed if none is given, or
/// if the header names each that is given and more; those that are given stay as they are. The last record
/// of a text that is not all is not looked at, since it may be cut. `None` if the byte between two fields is
/// no delimiter.
pub fn guess_setup(
    alloc: Global,
    given: Setup,
    text: &[u8],
    has_header: bool,
    is_all: bool,
) -> Result<Option<GuessedSetup>, AllocError>
    ensures guessed { IfOk result (λ found. IfSome found (λ guessed.
        IsGuessedSetup given text.now has_header is_all guessed.setup guessed.start)) }
    // It is a setup whose text is read back, if the one that is given is.
    ensures valid { IfOk result (λ found. IfSome found (λ guessed. IsSetup (setup_value given)
        → IsSetup (setup_value guessed.setup))) }
    ensures none { IfOk result (λ found. IfNone found (¬ (IsDelimiter given.numbers.delimiter))) }
{
    let Setup {
        numbers,
        nulls,
        columns,
    } = given;
    let Some(delimiter) = Delimiter::new(numbers.delimiter) else {
        return Ok(None);
    };
    let (header, behind) = first_records(delimiter, u64::from(has_header), is_all, text);
    let (first, _) = first_records(delimiter, GUESSED_FROM, is_all, behind);
    let columns = columns_for(alloc, delimiter, &nulls, header, first, columns)?;
    let setup = Setup {
        numbers,
        nulls,
        columns,
    };
    Ok(Some(GuessedSetup {
        setup,
        start: header.len(),
    }))
}

/// The text of a setup whose columns were guessed.
#[derive(Drop)]
pub struct GuessedText {
    /// The text.
    pub text: String,
    /// How many bytes of the file are its header.
    pub start: usize,
}

/// The same of texts of setups. `None` if the given one is of no setup that has a delimiter.
pub fn guess_setup_text(
    alloc: Global,
    given: &[u8],
    text: &[u8],
    has_header: bool,
    is_all: bool,
) -> Result<Option<GuessedText>, AllocError>
    ensures guessed { IfOk result (λ found. IfSome found (λ guessed.
        IsGuessedText given.now text.now has_header is_all (string_bytes guessed.text) guessed.start)) }
    ensures none { IfOk result (λ found. IfNone found (IsNoSetup given.now)) }
{
    let Some(given) = Setup::from_text(alloc, given)? else {
        return Ok(None);
    };
    match guess_setup(alloc, given, text, has_header, is_all)? {
        Some(guessed) => Ok(Some(GuessedText {
            text: guessed.setup.to_text(alloc)?,
            start: guessed.start,
        })),
        None => Ok(None),
    }
}
