//! How a file is read, in words and in the bytes of its index.

ghost use Rattle.std.specs.Prelude.{◌≡◌, ◌≢◌, ◌<◌, ◌^◌, ◌++◌, ◌∷◌, Bool, List, ℕ, [], IfNone, IfOk, IfSome};
ghost use Rattle.std.specs.Prelude.{IsSomeAnd, IsUtf8, OnOk, OnSome, Some, string_bytes, if◌then◌else◌};
ghost use Rattle.std.specs.Fmt.{decimal};
ghost use Rattle.csv_columns.specs.Setups.{AreLines, ColumnValue, FitNumbers, HaveNames, IsDelimiter, IsSchema};
ghost use Rattle.csv_columns.specs.Setups.{IsSetup, SaysNumber, SaysNumbers, SetupValue, column_line, column_lines};
ghost use Rattle.csv_columns.specs.Setups.{column_values, kind_text, null_lines, numbers_text, setup_lines};
ghost use Rattle.csv_columns.specs.Setups.{setup_text, setup_value};
ghost use Rattle.csv_columns.specs.Names.{IsName, texts};
ghost use Rattle.csv_columns.specs.declared.setup.Numbers.{Numbers};
ghost use Rattle.record_rows.specs.declared.schema.ColumnType.{ColumnType};

use crate::column_words::{NamedColumn, column_of, push_kind};
use crate::names::is_name;
use csv_records::Delimiter;
use record_rows::{ColumnType, FieldReading, Schema};
use std::alloc::{AllocError, Global};
use std::fmt::Write;
use std::str;

/// The byte that stands for no delimiter: no text in UTF-8 has it.
pub const NO_DELIMITER: u8 = 0xFF;

/// How a file is read: what its index keeps beside its zones.
#[derive(Drop)]
pub struct Setup {
    /// What it says in numbers.
    pub numbers: Numbers,
    /// The words that are nulls, in columns that take nulls.
    pub nulls: Vec<String>,
    /// The columns.
    pub columns: Vec<NamedColumn>,
}

/// What a setup says in numbers.
#[derive(Clone, Copy)]
pub struct Numbers {
    /// The byte between two fields.
    pub delimiter: u8,
    /// Whether a field that its column does not take is a null, where the column takes nulls.
    pub is_lenient: bool,
    /// How many bytes a bound has at most.
    pub bound_length: usize,
    /// How many records a zone has.
    pub zone_rows: u64,
}

impl Setup {
    /// The same as text: a line for each word that is a null, a line of numbers, and a line for each
    /// column, its kind and its name.
    pub fn to_text(&self, alloc: Global) -> Result<String, AllocError>
        ensures { IfOk result (λ text. string_bytes text ≡ setup_text (setup_value self.now)) }
    {
        let mut text = String::new(alloc);
        push_nulls(&mut text, &self.nulls)?;
        push_numbers(&mut text, self.numbers)?;
        for named in &self.columns {
            push_column(&mut text, named)?;
        }
        Ok(text)
    }

    /// What such a text says. `None` of any other text.
    pub fn from_text(alloc: Global, bytes: &[u8]) -> Result<Option<Setup>, AllocError>
        // The text of a setup is read back.
        ensures back { IfOk result (λ found. (s : SetupValue) → IsSetup s → IsUtf8 bytes.now → bytes.now ≡ setup_text s
            → IsSomeAnd found (λ setup. setup_value setup ≡ s)) }
        // What is read is a setup, and this is its text.
        ensures valid { IfOk result (λ found. IfSome found (λ setup. IsSetup (setup_value setup))) }
        ensures text { IfOk result (λ found. IfSome found (λ setup. bytes.now ≡ setup_text (setup_value setup))) }
    {
        let Ok(text) = str::from_utf8(bytes) else {
            return Ok(None);
        };
        match nulls_of_lines(alloc, text)? {
            Some((nulls, rest)) => match Setup::with_nulls(alloc, nulls, rest)? {
                Some(setup) => setup.if_written(alloc, text),
                None => Ok(None),
            },
            None => Ok(None),
        }
    }

    /// The setup, if this is its text.
    fn if_written(self, alloc: Global, text: &str) -> Result<Option<Setup>, AllocError>
        ensures same { IfOk result (λ found. IfSome found (λ setup. setup ≡ self)) }
        ensures text { IfOk result (λ found. OnSome found (text.now ≡ setup_text (setup_value self))) }
        ensures other { IfOk result (λ found. IfNone found (text.now ≢ setup_text (setup_value self))) }
    {
        let written = self.to_text(alloc)?;
        if written.as_str() == text {
            Ok(Some(self))
        } else {
            Ok(None)
        }
    }

    /// What the lines say that follow those of words that are nulls.
    fn with_nulls(
        alloc: Global,
        nulls: Vec<String>,
        lines: &str,
    ) -> Result<Option<Setup>, AllocError>
        ensures back { IfOk result (λ found. (s : SetupValue) → IsSetup s → texts nulls.items ≡ s.nulls
            → lines.now ≡ setup_lines s → IsSomeAnd found (λ setup. setup_value setup ≡ s)) }
        ensures valid { IfOk result (λ found. IfSome found (λ setup. AreLines (texts nulls.items)
            → IsSetup (setup_value setup))) }
    {
        match parts_of(lines) {
            Some((numbers, lines)) => match columns_of_lines(alloc, lines)? {
                Some(columns) => Ok(Some(Setup {
                    numbers,
                    nulls,
                    columns,
                })),
                None => Ok(None),
            },
            None => Ok(None),
        }
    }

    /// The schema; `None` if the byte between two fields is no delimiter.
    pub fn schema(&self, alloc: Global) -> Result<Option<Schema>, AllocError>
        ensures schema { IfOk result (λ schema. IfSome schema (IsSchema self.now)) }
        ensures none { IfOk result (λ schema. IfNone schema (¬ (IsDelimiter self.now.numbers.delimiter))) }
    {
        let Some(delimiter) = Delimiter::new(self.numbers.delimiter) else {
            return Ok(None);
        };
        let mut columns = Vec::new(alloc);
        for named in &self.columns {
            columns.push(named.column)?;
        }
        Ok(Some(Schema {
            delimiter,
            reading: reading_of(alloc, self.numbers.is_lenient, &self.nulls)?,
            columns,
        }))
    }
}

/// How fields are read, where these words are nulls.
pub fn reading_of(
    alloc: Global,
    is_lenient: bool,
    words: &[String],
) -> Result<FieldReading, AllocError>
    ensures lenient { IfOk result (λ reading. reading.is_lenient ≡ is_lenient) }
    ensures nulls { IfOk result (λ reading. reading.nulls ≡ texts words.now) }
{
    let mut nulls = Vec::new(alloc);
    for word in words {
        nulls.push(Vec::from_slice(alloc, word.as_bytes())?)?;
    }
    Ok(FieldReading::new(is_lenient, nulls))
}

/// Appends a line for each word that is a null.
fn push_nulls(text: &mut String, nulls: &[String]) -> Result<(), AllocError>
    ensures { OnOk result (string_bytes text.new ≡ string_bytes text.old ++ null_lines (texts nulls.now)) }
{
    for null in nulls {
        writeln!(text, "null {null}")?;
    }
    Ok(())
}

/// Appends the line of a setup's numbers.
fn push_numbers(text: &mut String, numbers: Numbers) -> Result<(), AllocError>
    ensures { OnOk result (string_bytes text.new ≡ string_bytes text.old ++ (numbers_text numbers ++ 10 ∷ [])) }
{
    let Numbers {
        delimiter,
        is_lenient,
        bound_length,
        zone_rows,
    } = numbers;
    let lenient = u8::from(is_lenient);
    writeln!(text, "{delimiter} {lenient} {bound_length} {zone_rows}")?;
    Ok(())
}

/// Appends the line of a column: its kind and its name.
fn push_column(text: &mut String, named: &NamedColumn) -> Result<(), AllocError>
    ensures { OnOk result (string_bytes text.new ≡ string_bytes text.old
        ++ column_line (record { name = string_bytes named.now.name; column = named.now.column })) }
{
    push_kind(text, named.column)?;
    writeln!(text, " {}", named.name)?;
    Ok(())
}

/// The words that are nulls by the first lines of a text, and what follows those.
fn nulls_of_lines(alloc: Global, text: &str) -> Result<Option<(Vec<String>, &str)>, AllocError>
    ensures back { IfOk result (λ found. (s : SetupValue) → IsSetup s → text.now ≡ setup_text s
        → IsSomeAnd found (λ parts. (texts parts.0.items ≡ s.nulls) × (parts.1.now ≡ setup_lines s))) }
    ensures lines { IfOk result (λ found. IfSome found (λ parts. AreLines (texts parts.0.items))) }
{
    let mut nulls = Vec::new(alloc);
    let mut rest = text;
    while let Some(line) = rest.strip_prefix("null ") {
        let Some((word, after)) = line.split_once('\n') else {
            return Ok(None);
        };
        nulls.push(String::from_str(alloc, word)?)?;
        rest = after;
    }
    Ok(Some((nulls, rest)))
}

/// The numbers of a setup's text, and the lines of its columns.
fn parts_of(text: &str) -> Option<(Numbers, &str)>
    ensures back { (s : SetupValue) → IsSetup s → text.now ≡ setup_lines s
        → IsSomeAnd result (λ parts. (parts.0 ≡ s.numbers) × (parts.1.now ≡ column_lines s.columns)) }
    ensures says { IfSome result (λ parts. (line : List ℕ) × SaysNumbers line parts.0
        × (text.now ≡ line ++ 10 ∷ parts.1.now)) }
    ensures fit { IfSome result (λ parts. FitNumbers parts.0) }
{
    let (line, columns) = text.split_once('\n')?;
    let numbers = numbers_of(line)?;
    Some((numbers, columns))
}

/// The numbers of a line, if they are so many.
fn numbers_of(line: &str) -> Option<Numbers>
    ensures back { (numbers : Numbers) → FitNumbers numbers → line.now ≡ numbers_text numbers → result ≡ Some numbers }
    ensures says { IfSome result (SaysNumbers line.now) }
    ensures fit { IfSome result FitNumbers }
{
    let (delimiter, after_delimiter) = number_before(line)?;
    let (lenient, after_lenient) = number_before(after_delimiter)?;
    let (bound_length, rows) = number_before(after_lenient)?;
    if delimiter > u64::from(u8::MAX) {
        return None;
    }
    let is_lenient = flag_of(lenient)?;
    match rows.parse::<u64>() {
        Ok(zone_rows) => Some(Numbers {
            delimiter: delimiter as u8,
            is_lenient,
            bound_length: bound_length as usize,
            zone_rows,
        }),
        Err(_) => None,
    }
}

/// The number before the first blank of a text, and what follows that.
fn number_before(text: &str) -> Option<(u64, &str)>
    ensures back { (n : ℕ) (rest : List ℕ) → n < 2 ^ 64 → text.now ≡ decimal n ++ 32 ∷ rest
        → IsSomeAnd result (λ cut. (cut.0 ≡ n) × (cut.1.now ≡ rest)) }
    ensures says { IfSome result (λ cut. (word : List ℕ) × SaysNumber word cut.0
        × (text.now ≡ word ++ 32 ∷ cut.1.now)) }
{
    let (word, rest) = text.split_once(' ')?;
    match word.parse::<u64>() {
        Ok(number) => Some((number, rest)),
        Err(_) => None,
    }
}

/// The flag that 0 and 1 are.
fn flag_of(number: u64) -> Option<bool>
    ensures back { (flag : Bool) → number ≡ (if flag then 1 else 0) → result ≡ Some flag }
    ensures says { IfSome result (λ flag. number ≡ (if flag then 1 else 0)) }
{
    match number {
        0 => Some(false),
        1 => Some(true),
        _ => None,
    }
}

/// The columns of lines, if each is a kind and a name.
fn columns_of_lines(alloc: Global, lines: &str) -> Result<Option<Vec<NamedColumn>>, AllocError>
    ensures back { IfOk result (λ found. (columns : List ColumnValue) → HaveNames columns
        → (lines.now ≡ column_lines columns) → IsSomeAnd found (λ named. column_values named.items ≡ columns)) }
    ensures names { IfOk result (λ found. IfSome found (λ named. HaveNames (column_values named.items))) }
{
    let mut columns = Vec::new(alloc);
    let mut rest = lines;
    while !rest.is_empty() {
        let Some((line, after)) = rest.split_once('\n') else {
            return Ok(None);
        };
        let Some((column, name)) = column_of_line(line) else {
            return Ok(None);
        };
        let name = String::from_str(alloc, name)?;
        columns.push(NamedColumn { name, column })?;
        rest = after;
    }
    Ok(Some(columns))
}

/// The column of a line, and its name.
fn column_of_line(line: &str) -> Option<(ColumnType, &str)>
    ensures back { (column : ColumnValue) → IsName column.name → line.now ≡ kind_text column.column ++ 32 ∷ column.name
        → IsSomeAnd result (λ found. (found.0 ≡ column.column) × (found.1.now ≡ column.name)) }
    ensures name { IfSome result (λ found. IsName found.1.now) }
{
    let (word, name) = line.split_once(' ')?;
    let column = column_of(word)?;
    if is_name(name) {
        Some((column, name))
    } else {
        None
    }
}
