//! Why the program stops.

ghost use Rattle.std.specs.Prelude.{◌≡◌, MatchResult, string_bytes};
ghost use Rattle.zone_map.specs.Errors.{IsOutOfMemory, text_of};

use csv_columns::NamedColumn;
use filter_sql::ParseError;
use std::alloc::{AllocError, AllocFailed, Global};
use std::fmt::{self, Display, Formatter, Write};
use std::{io, str};
use vortex_dtype::Nullability;
use zone_index::{Cause, EncodingError, SearchError};

/// The status after an error, which is told on standard error.
pub const FAILED: u8 = 2;

/// Why the program stops, or passes over one of several files.
#[derive(Drop)]
pub struct ProgramError {
    /// What it says on standard error.
    pub text: ErrorText,
    /// What that is about.
    pub about: About,
}

/// What an error says.
#[derive(Drop)]
pub enum ErrorText {
    /// A text that is always the same.
    Fixed(&'static str),
    /// A text that was made.
    Made(String),
}

/// What an error is about.
#[derive(Clone, Copy, PartialEq, Eq)]
pub enum About {
    /// A file, which the text does not name.
    File,
    /// A file, which the text names.
    NamedFile,
    /// No file: the words of the command line, or the output.
    AllFiles,
}

/// What is said if no memory is left.
const NO_MEMORY: &str = "out of memory";

/// What is said of a byte that is no delimiter.
pub const BAD_DELIMITER: &str =
    "--delimiter: one byte, and no quote, line feed or carriage return; or tab, or none";

impl ProgramError {
    /// The error of a text that is always the same.
    pub fn fixed(about: About, text: &'static str) -> ProgramError
        ensures about { result.about ≡ about }
        ensures text { text_of result.text ≡ text.now }
    {
        ProgramError {
            text: ErrorText::Fixed(text),
            about,
        }
    }

    /// The error of a text, if there was memory for it.
    pub fn made(about: About, text: Result<String, AllocError>) -> ProgramError
        ensures { MatchResult text
            (λ said. (result.about ≡ about) × (text_of result.text ≡ string_bytes said)) (λ _. IsOutOfMemory result) }
    {
        match text {
            Ok(text) => ProgramError {
                text: ErrorText::Made(text),
                about,
            },
            Err(fault) => ProgramError::from(fault),
        }
    }

    /// The error of a file with this name.
    pub fn of_file(alloc: Global, name: &str, fault: FileError) -> ProgramError {
        ProgramError::made(About::NamedFile, format!(in alloc; "{name}: {fault}"))
    }

    /// The error of a search, without the offset of a record that has no row.
    pub fn of_search(fault: &SearchError) -> ProgramError {
        let about = match fault {
            SearchError::Write => About::AllFiles,
            _ => About::File,
        };
        ProgramError::fixed(about, search_fault_text(fault))
    }
}

impl From<AllocError> for ProgramError {
    ghost from_gives = { λ _ error. IsOutOfMemory error };

    fn from(_error: AllocError) -> ProgramError {
        ProgramError::fixed(About::File, NO_MEMORY)
    }
}

impl<T: Drop> From<AllocFailed<T>> for ProgramError {
    ghost from_gives = { λ _ error. IsOutOfMemory error };

    fn from(_error: AllocFailed<T>) -> ProgramError {
        ProgramError::fixed(About::File, NO_MEMORY)
    }
}

/// Without the offset of a record that has no row.
impl From<SearchError> for ProgramError {
    fn from(fault: SearchError) -> ProgramError {
        ProgramError::of_search(&fault)
    }
}

/// What an error of a search says.
fn search_fault_text(fault: &SearchError) -> &'static str {
    match fault {
        SearchError::Read => "read failed",
        SearchError::Write => "write failed",
        SearchError::CutShort => "the file is shorter than its index says",
        SearchError::TooFar => "the file is too long",
        SearchError::Memory => NO_MEMORY,
        SearchError::Refused(_) => "a record has no row",
    }
}

/// The text.
impl Display for ProgramError {
    fn fmt<W: Write>(&self, f: &mut Formatter<W>) -> fmt::Result {
        f.write_str(self.text.as_str())
    }
}

impl ErrorText {
    /// The text.
    fn as_str(&self) -> &str {
        match self {
            ErrorText::Fixed(text) => text,
            ErrorText::Made(text) => text.as_str(),
        }
    }
}

/// An error with one of several files.
#[derive(Clone, Copy)]
pub struct NamedFault<'a> {
    /// The name of the file.
    pub file: &'a str,
    /// The error.
    pub fault: &'a ProgramError,
}

/// The text after the name of the file, if it does not begin with it; after a line with the name, if the
/// text has several lines.
impl Display for NamedFault<'_> {
    fn fmt<W: Write>(&self, f: &mut Formatter<W>) -> fmt::Result {
        let text = self.fault.text.as_str();
        if self.fault.about == About::File {
            let end = if text.contains('\n') { "\n" } else { " " };
            write!(f, "{}:{end}", self.file)?;
        }
        f.write_str(text)
    }
}

/// What is wrong with a file, or with its index.
#[derive(Clone, Copy)]
pub enum FileError {
    /// It cannot be opened, read or written.
    System(io::Error),
    /// It has no index.
    NoIndex,
    /// It is empty, and has no header.
    NoHeader,
    /// It has changed since it was indexed.
    Changed,
    /// It changed while it was read.
    Changing,
    /// It is an index that is damaged or of another version.
    BadIndex(EncodingError),
    /// It is an index that this program did not write.
    OtherIndex,
    /// A link has the name of an index.
    Link,
}

/// What is wrong, and what helps.
impl Display for FileError {
    fn fmt<W: Write>(&self, f: &mut Formatter<W>) -> fmt::Result {
        match self {
            FileError::System(error) => write!(f, "{error}"),
            FileError::NoIndex => f.write_str("there is no index; `zone_map index` makes one"),
            FileError::NoHeader => f.write_str("the file is empty, and has no header"),
            FileError::Changed => f.write_str(
                "the file has changed since it was indexed; index it again, or say --grown \
                or --append if it was only appended to",
            ),
            FileError::Changing => f.write_str("the file changed while it was read"),
            FileError::BadIndex(fault) => f.write_str(encoding_fault_text(*fault)),
            FileError::OtherIndex => {
                f.write_str("the index is not one of this program; index the file again")
            }
            FileError::Link => f.write_str(
                "this is a link, and none is followed to an index; remove it, and index the file again",
            ),
        }
    }
}

/// What is wrong with the bytes of an index, and what helps.
fn encoding_fault_text(fault: EncodingError) -> &'static str {
    match fault {
        EncodingError::Magic => "this is no index; remove it, and index the file again",
        EncodingError::Version => {
            "the index is of another version than this program reads; index the file again"
        }
        EncodingError::Short | EncodingError::Damaged | EncodingError::Trailing => {
            "the index is damaged; index the file again"
        }
    }
}

/// A filter that is wrong.
#[derive(Clone, Copy)]
pub struct BadFilter<'a> {
    /// The filter.
    pub text: &'a str,
    /// The columns that it is over.
    pub columns: &'a str,
    /// The column whose name is nearest to the one that no column has.
    pub nearest: Option<&'a str>,
    /// What is wrong.
    pub error: ParseError,
}

/// The line of the filter that is wrong, and below it what is wrong, at its offset.
impl Display for BadFilter<'_> {
    fn fmt<W: Write>(&self, f: &mut Formatter<W>) -> fmt::Result {
        let Some(place) = self.error.offset() else {
            return write!(f, "{}", self.error);
        };
        write_pointed(f, self.text, place)?;
        write!(f, "^ {}", self.error)?;
        match self.error {
            ParseError::NoColumn { offset: _ } => {
                if let Some(name) = self.nearest {
                    write!(f, "; did you mean {name}?")?;
                }
                write!(f, "\nthe columns are {}", self.columns)
            }
            _ => Ok(()),
        }
    }
}

/// Writes the line of a text that has this offset, and on the next line a blank for each character
/// before it.
fn write_pointed<W: Write>(f: &mut Formatter<W>, text: &str, place: usize) -> fmt::Result {
    let (before, after) = text.split_at_checked(place).unwrap_or((text, ""));
    let before = before.rsplit_once('\n').map_or(before, |parts| parts.1);
    let after = after.split_once('\n').map_or(after, |parts| parts.0);
    writeln!(f, "{before}{after}")?;
    for letter in before.chars() {
        f.write_str(if letter == '\t' { "\t" } else { " " })?;
    }
    Ok(())
}

/// A record without a row.
#[derive(Clone, Copy)]
pub struct BadRecord<'a> {
    /// Where it stands.
    pub place: RecordPlace<'a>,
    /// The columns.
    pub columns: &'a [NamedColumn],
    /// Why it has none.
    pub cause: &'a Cause,
    /// The columns that take it, if one does not take a word.
    pub taking: &'a str,
}

/// Where a record stands.
#[derive(Clone, Copy)]
pub enum RecordPlace<'a> {
    /// In this line of a file, counted from 1.
    Line { file: &'a str, line: u64 },
    /// At this byte of what was read, counted from 0.
    Byte(u64),
}

/// Why a record has no row, and where it stands.
impl Display for BadRecord<'_> {
    fn fmt<W: Write>(&self, f: &mut Formatter<W>) -> fmt::Result {
        match self.place {
            RecordPlace::Line { file, line } => write!(f, "{file}:{line}: ")?,
            RecordPlace::Byte(place) => write!(f, "byte {place}: ")?,
        }
        match self.cause {
            Cause::Word { column, word } => {
                write_bad_word(f, self.columns, *column, word)?;
                write_ways_out(f, self.columns.get(*column as usize), self.taking, word)
            }
            Cause::FieldCount => write!(
                f,
                "the record has fewer fields than the {} columns, or more; \
                --lenient takes it, where columns take nulls",
                self.columns.len()
            ),
            Cause::LoneReturn => {
                f.write_str("a carriage return inside of a record, without a line feed")
            }
        }
    }
}

/// Writes which column does not take a word, by its place from 0 on and its name.
fn write_bad_word<W: Write>(
    f: &mut Formatter<W>,
    columns: &[NamedColumn],
    column: u64,
    word: &[u8],
) -> fmt::Result {
    write!(f, "column {}", column.saturating_add(1))?;
    if let Some(named) = columns.get(column as usize) {
        write!(f, ", {},", named.name)?;
    }
    f.write_str(" does not take ")?;
    write_word(f, word)
}

/// Writes what takes a word that a column does not: columns that are given, or a null in its place.
fn write_ways_out<W: Write>(
    f: &mut Formatter<W>,
    column: Option<&NamedColumn>,
    taking: &str,
    word: &[u8],
) -> fmt::Result {
    let Some(named) = column else {
        return Ok(());
    };
    let taken = match str::from_utf8(word) {
        Ok(_) => "text",
        Err(_) => "its bytes",
    };
    write!(f, "; --columns '{taking}' takes it as {taken}")?;
    match named.column.nullability {
        Nullability::Nullable => f.write_str("; --lenient takes it as a null"),
        Nullability::NonNullable => Ok(()),
    }
}

/// Writes a word: as text in quotes where it is UTF-8, else as hexadecimal digits.
fn write_word<W: Write>(f: &mut Formatter<W>, word: &[u8]) -> fmt::Result {
    if let Ok(text) = str::from_utf8(word) {
        return write!(f, "{text:?}");
    }
    f.write_str("x'")?;
    for byte in word {
        write!(f, "{byte:02x}")?;
    }
    f.write_str("'")
}
