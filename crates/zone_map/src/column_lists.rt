//! Columns as a text that lists them, with their names and kinds.

ghost use Rattle.std.specs.Prelude.{◌≡◌, IfOk, IfSome, OnOk, Some, string_bytes};
ghost use Rattle.std.specs.List.{list_any};
ghost use Rattle.std.specs.Str.{bytes_eq};
ghost use Rattle.csv_columns.specs.Names.{IsName};
ghost use Rattle.csv_columns.specs.Setups.{column_values};
ghost use Rattle.std.specs.Fmt.{WritesOnOk};
ghost use Rattle.filter_sql.specs.Pieces.{quotable};
ghost use Rattle.filter_sql.specs.Tokens.{doubled, quoted};
ghost use Rattle.zone_map.specs.ColumnLists.{AreApart, is_plain_name, list_text, listed_behind, name_text};

use crate::program_errors::{About, ProgramError};
use csv_columns::{NamedColumn, column_of, is_name, push_kind};
use record_rows::{ColumnType, Kind};
use std::alloc::{AllocError, Global};
use std::fmt::{self, Display, Formatter, Write};

/// The columns that a text lists, as `id i64, "first name" utf8?`.
pub fn columns_in(alloc: Global, text: &str) -> Result<Vec<NamedColumn>, ProgramError>
    ensures { IfOk result (λ columns. AreApart columns.items) }
{
    let mut columns = Vec::new(alloc);
    let mut part = String::new(alloc);
    for piece in text.split(',') {
        add_piece(alloc, piece, &mut part, &mut columns)?;
    }
    if part.is_empty() {
        Ok(columns)
    } else {
        Err(no_column(alloc, &part))
    }
}

/// Adds what stands between two commas. The part so far is a column if no quotes and no parentheses are
/// open in it.
fn add_piece(
    alloc: Global,
    piece: &str,
    part: &mut String,
    columns: &mut Vec<NamedColumn>,
) -> Result<(), ProgramError>
    ensures { OnOk result (AreApart columns.old.items → AreApart columns.new.items) }
{
    part.push_str(piece)?;
    if is_open(part) {
        part.push(',')?;
    } else {
        add_column(alloc, part.trim(), columns)?;
        part.clear();
    }
    Ok(())
}

/// Whether a text ends inside of quotes, or of parentheses.
fn is_open(text: &str) -> bool {
    let mut is_quoted = false;
    let mut depth = 0usize;
    for byte in text.bytes() {
        match byte {
            b'"' => is_quoted = !is_quoted,
            b'(' if !is_quoted => depth = depth.saturating_add(1),
            b')' if !is_quoted => depth = depth.saturating_sub(1),
            _ => {}
        }
    }
    is_quoted || 0 < depth
}

/// Adds the column that a text is, if none has its name.
fn add_column(alloc: Global, text: &str, columns: &mut Vec<NamedColumn>) -> Result<(), ProgramError>
    ensures { OnOk result (AreApart columns.old.items → AreApart columns.new.items) }
{
    match column_in(alloc, text)? {
        Some(column) => {
            if has_name(columns, &column.name) {
                return Err(same_name(alloc, &column.name));
            }
            columns.push(column)?;
            Ok(())
        }
        None => Err(no_column(alloc, text)),
    }
}

/// Whether one of these columns has this name.
fn has_name(columns: &[NamedColumn], name: &str) -> bool
    ensures { result ≡ list_any (λ column. bytes_eq (string_bytes column.name) name.now) columns.now }
{
    columns.iter().any(|column| column.name.as_str() == name)
}

/// The error of a text that is no column.
fn no_column(alloc: Global, text: &str) -> ProgramError {
    let said = format!(in alloc;
        "--columns: {text:?} is no column: a name and a kind, as 'city utf8?' or 'fare decimal(10,2)'"
    );
    ProgramError::made(About::AllFiles, said)
}

/// The error of a name that two columns have.
fn same_name(alloc: Global, name: &str) -> ProgramError {
    let said = format!(in alloc; "--columns: two columns have the name {name:?}");
    ProgramError::made(About::AllFiles, said)
}

/// The column that a name and a kind are.
fn column_in(alloc: Global, text: &str) -> Result<Option<NamedColumn>, AllocError>
    ensures { IfOk result (λ found. IfSome found (λ column. IsName (string_bytes column.name))) }
{
    let Some((name, word)) = cut_kind(text) else {
        return Ok(None);
    };
    let word = word.replace(alloc, " ", "")?;
    let Some(column) = column_of(&word) else {
        return Ok(None);
    };
    match name_in(alloc, name.trim())? {
        Some(name) => Ok(Some(NamedColumn { name, column })),
        None => Ok(None),
    }
}

/// A name and a kind, cut at the last blank before the kind's parentheses, if it has some.
fn cut_kind(text: &str) -> Option<(&str, &str)> {
    match text.strip_suffix('?').unwrap_or(text).strip_suffix(')') {
        Some(inner) => {
            let (front, _) = inner.rsplit_once('(')?;
            let (name, _) = front.rsplit_once(' ')?;
            text.split_at_checked(name.len())
        }
        None => text.rsplit_once(' '),
    }
}

/// The name that a text is: as it stands, or in quotes with a quote doubled. None is empty or has a
/// line feed.
fn name_in(alloc: Global, text: &str) -> Result<Option<String>, AllocError>
    ensures { IfOk result (λ found. IfSome found (λ name. IsName (string_bytes name))) }
{
    let name = match text.strip_prefix('"') {
        Some(rest) => match rest.strip_suffix('"') {
            Some(inner) => inner.replace(alloc, "\"\"", "\"")?,
            None => return Ok(None),
        },
        None => String::from_str(alloc, text)?,
    };
    if is_name(&name) {
        Ok(Some(name))
    } else {
        Ok(None)
    }
}

/// The columns as a text that `columns_in` reads.
pub fn columns_text(alloc: Global, columns: &[NamedColumn]) -> Result<String, AllocError>
    ensures { IfOk result (λ text. string_bytes text ≡ list_text (column_values columns.now)) }
{
    let mut text = String::new(alloc);
    for named in columns {
        push_column(&mut text, named.name.as_str(), named.column)?;
    }
    Ok(text)
}

/// The columns that are to be given so that the one at this place is of another kind. All are to be given if its
/// name was made, since no header has such a name.
pub fn columns_with(
    alloc: Global,
    columns: &[NamedColumn],
    place: usize,
    kind: Kind,
) -> Result<String, AllocError> {
    let mut text = String::new(alloc);
    let is_made = columns
        .get(place)
        .is_some_and(|named| named.name.starts_with('$'));
    for (at, named) in columns.iter().enumerate() {
        let column = named.column;
        if at == place {
            push_column(&mut text, &named.name, ColumnType { kind, ..column })?;
        } else if is_made {
            push_column(&mut text, &named.name, column)?;
        }
    }
    Ok(text)
}

/// Adds a column to a list.
fn push_column(text: &mut String, name: &str, column: ColumnType) -> Result<(), AllocError>
    ensures { OnOk result (string_bytes text.new
        ≡ listed_behind (string_bytes text.old) (record { name = name.now; column = column })) }
{
    if !text.is_empty() {
        text.push_str(", ")?;
    }
    write!(text, "{} ", NameText(name))?;
    push_kind(text, column)
}

/// A name as `columns_in` reads it: in quotes unless it has letters, digits, `_` and `$` alone.
#[derive(Clone, Copy)]
pub struct NameText<'a>(pub &'a str);

/// The name, in quotes with a quote doubled where it needs them.
impl Display for NameText<'_> {
    ghost output = { λ named. Some (name_text named.0.now) };

    fn fmt<W: Write>(&self, f: &mut Formatter<W>) -> fmt::Result {
        let name = self.0;
        if is_plain_name(name) {
            f.write_str(name)
        } else {
            write_quoted(name, f)
        }
    }
}

/// Writes a name in quotes, and each quote in it twice.
fn write_quoted<W: Write>(name: &str, f: &mut Formatter<W>) -> fmt::Result
    ensures { WritesOnOk W.write_str_gives f.old result (quoted 34 name.now) f.new }
{
    f.write_char('"')?;
    write_doubled(name, f)?;
    f.write_char('"')
}

/// Writes a name, and each quote in it twice.
fn write_doubled<W: Write>(name: &str, f: &mut Formatter<W>) -> fmt::Result
    ensures { WritesOnOk W.write_str_gives f.old result (doubled 34 name.now) f.new }
{
    for letter in name.chars() {
        write_letter(letter, f)?;
    }
    Ok(())
}

/// Writes a character of a name, twice if it is a quote.
fn write_letter<W: Write>(letter: char, f: &mut Formatter<W>) -> fmt::Result
    ensures { WritesOnOk W.write_str_gives f.old result (quotable 34 letter) f.new }
{
    if letter == '"' {
        f.write_char(letter)?;
    }
    f.write_char(letter)
}

/// Whether a name has letters, digits, `_` and `$` alone.
fn is_plain_name(name: &str) -> bool
    ensures { result ≡ is_plain_name name.now }
{
    name.bytes().all(|byte| byte.is_ascii_alphanumeric() || byte == b'_' || byte == b'$')
}
