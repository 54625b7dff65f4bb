//! Columns are guessed from the first records.

ghost use Rattle.std.specs.Prelude.{◌≡◌, ◌≢◌, ◌<◌, ◌∷◌, ◌++◌, [], ℕ, All, AllPairs, Contains, IfOk};
ghost use Rattle.std.specs.Prelude.{IsSome, List, MatchBool, MatchOption, OnOk, if◌then◌else◌, length, nat_lt};
ghost use Rattle.std.specs.Str.{is_utf8};
ghost use Rattle.csv_records.specs.Rows.{Field};
ghost use Rattle.record_rows.specs.Readings.{is_null_field};
ghost use Rattle.vortex_dtype.specs.declared.nullability.Nullability.TheVariants.{Nullable};
ghost use Rattle.csv_columns.specs.Guesses.{AreColumns, AreGuesses, HaveNumbers, IsColumn, NamesOthers, See};
ghost use Rattle.csv_columns.specs.Guesses.{TakeFields, column_count, column_names, column_words, divides, field_lists};
ghost use Rattle.csv_columns.specs.Guesses.{field_of, fields_left, fields_of, header_names, left_of, without_mark};
ghost use Rattle.csv_columns.specs.Guesses.{word_at, word_of};
ghost use Rattle.csv_columns.specs.Kinds.{Sees};
ghost use Rattle.csv_columns.specs.Names.{AreGivenOrMade, IsName, KeepsNames, texts};

use crate::column_words::NamedColumn;
use crate::kinds::Guess;
use crate::names::{names_for, stands_in};
use crate::setup::NO_DELIMITER;
use csv_records::{Delimiter, Follows, cut_field, cut_record, row_start};
use record_rows::{ColumnType, FieldReading};
use std::alloc::{AllocError, Global};
use std::str;
use vortex_dtype::Nullability;

/// A field that was seen.
#[derive(Clone, Copy)]
struct SeenField<'a> {
    /// Its bytes.
    word: &'a [u8],
    /// Whether it began with a quote.
    is_quoted: bool,
}

/// The fields of a record, one after another.
#[derive(Clone, Copy)]
struct Fields<'a> {
    /// The byte between two of them.
    delimiter: Delimiter,
    /// What follows those that were read.
    follows: Follows<'a>,
}

impl<'a> Fields<'a> {
    /// Those of this record; none where it has no row, as an empty line.
    fn of(delimiter: Delimiter, line: &'a [u8]) -> Fields<'a>
        ensures fields { fields_left delimiter.byte result.follows ≡ fields_of delimiter.byte line.now }
        ensures delimiter { result.delimiter ≡ delimiter }
    {
        let row = row_start(line);
        if row.is_empty() {
            return Fields {
                delimiter,
                follows: Follows::Nothing,
            };
        }
        Fields {
            delimiter,
            follows: Follows::Another(row),
        }
    }

    /// The next field, if there is one. The buffer takes the bytes of one in quotes.
    fn next_field<'b>(
        &mut self,
        buffer: &'b mut Vec<u8>,
    ) -> Result<Option<SeenField<'b>>, AllocError>
    where
        'a: 'b,
        ensures next { IfOk result (λ field. MatchOption field
            (fields_left self.old.delimiter.byte self.old.follows ≡ [])
            (λ seen. fields_left self.old.delimiter.byte self.old.follows
            ≡ field_of seen ∷ fields_left self.old.delimiter.byte self.new.follows)) }
        ensures delimiter { self.new.delimiter ≡ self.old.delimiter }
        ensures shorter { IfOk result (λ field. IsSome field
            → left_of self.new.follows < left_of self.old.follows) }
    {
        let Follows::Another(rest) = self.follows else {
            return Ok(None);
        };
        let cut = cut_field(self.delimiter, rest, buffer)?;
        self.follows = cut.follows;
        Ok(Some(SeenField {
            word: if cut.is_quoted { buffer } else { cut.bare },
            is_quoted: cut.is_quoted,
        }))
    }
}

/// Columns that were guessed.
#[derive(Drop)]
pub struct Guessed {
    /// The columns.
    pub columns: Vec<NamedColumn>,
    /// Whether the words of each are numbers that are text all the same.
    pub have_numbers: Vec<bool>,
}

/// The columns of records: named by the header, if it has names, and with kinds that fit these
/// records, where they are read so. All take nulls.
pub fn guess_columns(
    alloc: Global,
    delimiter: Delimiter,
    reading: &FieldReading,
    header: &[u8],
    records: &[u8],
) -> Result<Guessed, AllocError>
    ensures count { IfOk result (λ guessed. length guessed.columns.items
        ≡ column_count (field_lists delimiter.byte records.now) (header_names delimiter.byte header.now)) }
    ensures valid { IfOk result (λ guessed. All IsName (column_names guessed.columns.items)) }
    ensures distinct { IfOk result (λ guessed. AllPairs (λ a b. a ≢ b) (column_names guessed.columns.items)) }
    ensures kept { IfOk result (λ guessed.
        KeepsNames (header_names delimiter.byte header.now) (column_names guessed.columns.items)) }
    // One that is not kept is called by its number, or `line`.
    ensures made { IfOk result (λ guessed. AreGivenOrMade (divides delimiter.byte)
        (header_names delimiter.byte header.now) (column_names guessed.columns.items)) }
    ensures columns { IfOk result (λ guessed.
        AreColumns (column_words reading.now (field_lists delimiter.byte records.now)) guessed.columns.items) }
    ensures take { IfOk result (λ guessed.
        TakeFields reading.now (field_lists delimiter.byte records.now) guessed.columns.items) }
    ensures numbers { IfOk result (λ guessed. HaveNumbers
        (column_words reading.now (field_lists delimiter.byte records.now)) guessed.have_numbers.items) }
    ensures flags { IfOk result (λ guessed. length guessed.have_numbers.items ≡ length guessed.columns.items) }
{
    let guesses = guesses_of(alloc, delimiter, reading, records)?;
    let given = names_in(alloc, delimiter, header)?;
    let count = guesses.len().max(given.len()).max(1);
    let names = names_for(alloc, delimiter.byte != NO_DELIMITER, count, &given)?;
    columns_of(alloc, &guesses, names)
}

/// The columns with these names that are guessed so; of texts if there is no guess.
fn columns_of(alloc: Global, guesses: &[Guess], names: Vec<String>) -> Result<Guessed, AllocError>
    ensures names { IfOk result (λ guessed. column_names guessed.columns.items ≡ texts names.items) }
    ensures columns { IfOk result (λ guessed. (words : ℕ → List (List ℕ)) → See words guesses.now
        → AreColumns (λ k. if nat_lt k (length guesses.now) then words k else []) guessed.columns.items) }
    ensures numbers { IfOk result (λ guessed. (words : ℕ → List (List ℕ)) → See words guesses.now
        → HaveNumbers (λ k. if nat_lt k (length guesses.now) then words k else []) guessed.have_numbers.items) }
    ensures flags { IfOk result (λ guessed. length guessed.have_numbers.items ≡ length guessed.columns.items) }
{
    let mut columns = Vec::new(alloc);
    let mut have_numbers = Vec::new(alloc);
    for name in names {
        let guess = guess_at(guesses, columns.len());
        have_numbers.push(guess.has_numbers_as_text())?;
        columns.push(NamedColumn {
            name,
            column: column_of_guess(guess),
        })?;
    }
    Ok(Guessed {
        columns,
        have_numbers,
    })
}

/// The guess for the column at this place; that of no words if there is none.
fn guess_at(guesses: &[Guess], place: usize) -> Guess
    ensures { (words : ℕ → List (List ℕ)) → See words guesses.now
        → Sees result (if nat_lt place (length guesses.now) then words place else []) }
{
    if place < guesses.len() {
        guesses[place]
    } else {
        Guess::FIRST
    }
}

/// The column that is guessed. It takes nulls.
fn column_of_guess(guess: Guess) -> ColumnType
    ensures { (words : List (List ℕ)) → Sees guess words → IsColumn words result }
{
    ColumnType {
        kind: guess.kind(),
        nullability: Nullability::Nullable,
    }
}

/// Whether the header names each of these columns, and others.
pub fn names_others(
    alloc: Global,
    delimiter: Delimiter,
    header: &[u8],
    columns: &[NamedColumn],
) -> Result<bool, AllocError>
    ensures { IfOk result (λ named. MatchBool named
        (NamesOthers (header_names delimiter.byte header.now) (column_names columns.now))
        (¬ (NamesOthers (header_names delimiter.byte header.now) (column_names columns.now)))) }
{
    let names = names_in(alloc, delimiter, header)?;
    Ok(columns.len() < names.len() && are_named(&names, columns))
}

/// Whether each of these columns has one of the names.
fn are_named(names: &[String], columns: &[NamedColumn]) -> bool
    ensures { MatchBool result (All (Contains (texts names.now)) (column_names columns.now))
        (¬ (All (Contains (texts names.now)) (column_names columns.now))) }
{
    for named in columns {
        if !stands_in(names, &named.name) {
            return false;
        }
    }
    true
}

/// The fields of the header: none if it has no row. One that is not UTF-8 is empty. A byte order mark at the
/// start is no part of the first one.
fn names_in(alloc: Global, delimiter: Delimiter, header: &[u8]) -> Result<Vec<String>, AllocError>
    ensures { IfOk result (λ names. texts names.items ≡ header_names delimiter.byte header.now) }
{
    let mut names = Vec::new(alloc);
    let mut buffer = Vec::new(alloc);
    let mut fields = Fields::of(delimiter, without_mark(header));
    while let Some(field) = fields.next_field(&mut buffer)? {
        let name = String::from_str(alloc, text_or_empty(field.word))?;
        names.push(name)?;
    }
    Ok(names)
}

/// A text without a byte order mark at its start.
fn without_mark(text: &[u8]) -> &[u8]
    ensures { result.now ≡ without_mark text.now }
{
    match text {
        [0xEF, 0xBB, 0xBF, rest @ ..] => rest,
        _ => text,
    }
}

/// A text, and the empty one if it is not UTF-8.
fn text_or_empty(word: &[u8]) -> &str
    ensures { result.now ≡ (if is_utf8 word.now then word.now else []) }
{
    match str::from_utf8(word) {
        Ok(text) => text,
        Err(_) => "",
    }
}

/// A guess for each column of these records, as many as the first row has fields.
fn guesses_of(
    alloc: Global,
    delimiter: Delimiter,
    reading: &FieldReading,
    records: &[u8],
) -> Result<Vec<Guess>, AllocError>
    ensures { IfOk result (λ guesses.
        AreGuesses reading.now (field_lists delimiter.byte records.now) guesses.items) }
{
    let mut guesses = Vec::new(alloc);
    let mut rest = records;
    while !rest.is_empty() {
        let (line, after) = cut_record(delimiter, rest);
        guesses = guesses_with(alloc, delimiter, reading, line, guesses)?;
        rest = after;
    }
    Ok(guesses)
}

/// Guesses that have seen one more record. The first one that has a field says how many columns there are.
fn guesses_with(
    alloc: Global,
    delimiter: Delimiter,
    reading: &FieldReading,
    line: &[u8],
    mut guesses: Vec<Guess>,
) -> Result<Vec<Guess>, AllocError>
    ensures { IfOk result (λ new. (rows : List (List Field)) → AreGuesses reading.now rows guesses.items
        → AreGuesses reading.now (rows ++ fields_of delimiter.byte line.now ∷ []) new.items) }
{
    if guesses.is_empty() {
        return first_guesses(alloc, delimiter, reading, line);
    }
    see_record(alloc, delimiter, reading, line, &mut guesses)?;
    Ok(guesses)
}

/// A guess for each field of a record.
fn first_guesses(
    alloc: Global,
    delimiter: Delimiter,
    reading: &FieldReading,
    line: &[u8],
) -> Result<Vec<Guess>, AllocError>
    ensures count { IfOk result (λ guesses. length guesses.items ≡ length (fields_of delimiter.byte line.now)) }
    ensures see { IfOk result (λ guesses.
        See (λ k. word_at reading.now k (fields_of delimiter.byte line.now)) guesses.items) }
{
    let mut guesses = Vec::new(alloc);
    let mut buffer = Vec::new(alloc);
    let mut fields = Fields::of(delimiter, line);
    while let Some(field) = fields.next_field(&mut buffer)? {
        guesses.push(guess_after(Guess::FIRST, reading, &field))?;
    }
    Ok(guesses)
}

/// Shows each guess the field of a record at its place, if there is one.
fn see_record(
    alloc: Global,
    delimiter: Delimiter,
    reading: &FieldReading,
    line: &[u8],
    guesses: &mut [Guess],
) -> Result<(), AllocError>
    ensures count { OnOk result (length guesses.new ≡ length guesses.old) }
    ensures see { OnOk result ((words : ℕ → List (List ℕ)) → See words guesses.old
        → See (λ k. words k ++ word_at reading.now k (fields_of delimiter.byte line.now)) guesses.new) }
{
    let mut buffer = Vec::new(alloc);
    let mut fields = Fields::of(delimiter, line);
    for place in 0..guesses.len() {
        let Some(field) = fields.next_field(&mut buffer)? else {
            return Ok(());
        };
        guesses[place] = guess_after(guesses[place], reading, &field);
    }
    Ok(())
}

/// A guess after one more field.
fn guess_after(guess: Guess, reading: &FieldReading, field: &SeenField<'_>) -> Guess
    ensures { (words : List (List ℕ)) → Sees guess words
        → Sees result (words ++ word_of reading.now (field_of field.now)) }
{
    if is_null(reading, field) {
        guess
    } else {
        guess.after(field.word)
    }
}

/// Whether a field is a null in a column that takes nulls.
fn is_null(reading: &FieldReading, field: &SeenField<'_>) -> bool
    ensures { result ≡ is_null_field reading.now Nullable (field_of field.now) }
{
    (field.word.is_empty() || reading.has_null(field.word)) && !field.is_quoted
}
