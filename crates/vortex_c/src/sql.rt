//! Filters from SQL's words, prepared to bytes.

ghost use Rattle.std.specs.Prelude.{◌≡◌, ◌⊎◌, IfErr, IfOk, IsUtf8, OnOk, Some, length, map};
ghost use Rattle.vortex_c.specs.FilterWords.{AnswersEncoding, AreNamed, AreValid, HasAnswer, IsColumnError};
ghost use Rattle.vortex_c.specs.FilterWords.{IsColumnsError, IsNamed, IsPreparedFrom, IsSqlError, IsSqlWithin};
ghost use Rattle.vortex_c.specs.FilterWords.{IsTextError, IsUnfit, encoding_depth, literals_of};
ghost use Rattle.vortex_c.specs.FilterWords.{OutOfMemory, SaysWhyNotPrepared, WritesEncoding, code_of_expected};
ghost use Rattle.vortex_c.specs.FilterWords.{code_of_mistake, column_tree, column_trees, fault_of_words, formula};
ghost use Rattle.vortex_c.specs.FilterWords.{kind_of_named, mistake_of_sql, parts_of, place_of_mistake, prepared_of};
ghost use Rattle.vortex_c.specs.FilterWords.{status_of_sql, tree_of_kind, trees_of_kinds, type_at, type_of};
ghost use Rattle.vortex_c.specs.FilterWords.{type_of_kind, types_of_kinds};

use crate::depth::encoding_depth;
use crate::giving::give;
use crate::status::{BAD_FILTER, BUFFER_TOO_SMALL, GIVEN, NO_MEMORY, NOT_UTF8, UNKNOWN_KIND};
use arrow_columns::Kind;
use column_cells::dtype_of;
use filter_encoding::{FilterEncodingError, append_filter};
use filter_sql::{Column as FilterColumn, Expected, ParseError, parse_within};
use logical_scalars::laws::shapes_say_types;
use logical_types::laws::shapes_say_words;
use std::alloc::{AllocError, AllocFailed, Global};
use std::str;
use vortex_dtype::DType;
use vortex_filter::Filter;

/// A column that a filter may name: its name, and the code of its kind.
#[derive(Clone, Copy)]
#[repr(C)]
pub struct NamedKind<'a> {
    /// Its name, in UTF-8.
    pub name: &'a [u8],
    /// The code of its kind.
    pub kind: u8,
    /// Of decimals: how many digits a number has at most. Else it is not read.
    pub precision: u8,
    /// Of decimals: how many of them stand behind the point. Else it is not read.
    pub scale: u8,
}

/// Where words are no filter, and why.
#[derive(Clone, Copy)]
#[repr(C)]
pub struct Mistake {
    /// Which byte of the words, or which column.
    pub place: usize,
    /// The code of what is wrong there.
    pub expected: u32,
}

/// Why there is no prepared filter.
#[derive(Clone, Copy)]
pub(crate) enum SqlError {
    /// An allocation was refused.
    OutOfMemory,
    /// The code of this column is of no kind.
    NotAKind(usize),
    /// The name of this column is not UTF-8.
    NameNotUtf8(usize),
    /// The words are not UTF-8.
    NotUtf8,
    /// The words are no filter.
    NoFilter(ParseError),
    /// The filter has no encoding at the depth that was asked for.
    NoEncoding,
}

/// Out of memory, whatever was asked for.
impl From<AllocError> for SqlError {
    ghost use Rattle.vortex_c.specs.declared.sql.SqlError.TheVariants.{OutOfMemory};

    ghost from_gives = { λ _ e. e ≡ OutOfMemory };

    fn from(_error: AllocError) -> SqlError {
        SqlError::OutOfMemory
    }
}

/// Out of memory; what was to be kept is dropped.
impl<T: Drop> From<AllocFailed<T>> for SqlError {
    ghost use Rattle.vortex_c.specs.declared.sql.SqlError.TheVariants.{OutOfMemory};

    ghost from_gives = { λ _ e. e ≡ OutOfMemory };

    fn from(_error: AllocFailed<T>) -> SqlError {
        SqlError::OutOfMemory
    }
}

/// Reads a filter from SQL's words, over columns by name and kind, and writes its stable encoding
/// with the types of the columns. The other calls on filters take these bytes. At most `depth`
/// connectives and parentheses may nest in the words. A filter of words that nest n deep nests at
/// most 2n + 5 deep in the encoding, and the other calls read so much.
///
/// - `BUFFER_TOO_SMALL`: `count` says how many bytes the encoding has.
/// - `UNKNOWN_KIND`: the code of a column is of no kind. `mistake.place` is the column.
/// - `NOT_UTF8`: a name is not UTF-8, and `mistake.place` is its column; or the words are not, and
///   it is the number of columns. These two are found before memory is asked for.
/// - `BAD_FILTER`: the words are no filter. `mistake.place` is the byte at which something else had
///   to come, and `mistake.expected` is the code of what. If words can be read at this depth, their
///   filter has an encoding.
/// - `NO_MEMORY`: `mistake` is not written.
#[unsafe(no_mangle)]
pub extern "C" fn doqallin_prepare_filter(
    alloc: Global,
    words: &[u8],
    columns: &[NamedKind],
    depth: usize,
    buffer: &mut [u8],
    count: &mut usize,
    mistake: &mut Mistake,
) -> u32
    ensures answer { AnswersEncoding (IsPreparedFrom depth words.now columns.now)
        buffer.old buffer.new count.old count.new result }
    ensures refused { (HasAnswer result)
        ⊎ (SaysWhyNotPrepared depth words.now columns.now mistake.old mistake.new result) }
    ensures kept_mistake { HasAnswer result → mistake.new ≡ mistake.old }
{
    match prepare(alloc, words, columns, depth) {
        Ok(bytes) => give(bytes.as_slice(), buffer, count),
        Err(refusal) => tell(refusal, columns.len(), mistake),
    }
}

/// The encoding of the filter that the words are.
fn prepare(
    alloc: Global,
    words: &[u8],
    columns: &[NamedKind],
    depth: usize,
) -> Result<Vec<u8>, SqlError>
    ensures prepared { IfOk result (λ bytes. IsPreparedFrom depth words.now columns.now bytes.items) }
    ensures refused { IfErr result (IsSqlError depth words.now columns.now) }
{
    // That 64 bits count both is all that the proof takes of them.
    let _ = byte_count(words);
    let _ = column_count(columns);
    shapes_say_types();
    shapes_say_words();
    let text = text_of(words, columns)?;
    let filter = filter_of(alloc, text, columns, depth)?;
    encoding_of(alloc, &filter, columns, encoding_depth(depth))
}

/// How many bytes the words have.
fn byte_count(words: &[u8]) -> usize
    ensures { result ≡ length words.now }
{
    words.len()
}

/// How many columns there are.
fn column_count(columns: &[NamedKind]) -> usize
    ensures { result ≡ length columns.now }
{
    columns.len()
}

/// The words as text, if they are UTF-8 and each column has a kind and a name. Takes no memory.
fn text_of<'a>(words: &'a [u8], columns: &[NamedKind]) -> Result<&'a str, SqlError>
    ensures text { IfOk result (λ text. (text.now ≡ words.now) × IsUtf8 words.now) }
    ensures named { OnOk result (AreNamed columns.now) }
    ensures refused { IfErr result (IsUnfit words.now columns.now) }
{
    check_columns(columns)?;
    match str::from_utf8(words) {
        Ok(text) => Ok(text),
        Err(_) => Err(SqlError::NotUtf8),
    }
}

/// The filter that the text is.
fn filter_of(
    alloc: Global,
    text: &str,
    columns: &[NamedKind],
    depth: usize,
) -> Result<Filter, SqlError>
    requires { AreNamed columns.now }
    ensures read { IfOk result
        (λ filter. IsSqlWithin depth (trees_of_kinds columns.now) text.now (formula filter)) }
    ensures valid { IfOk result (λ filter. AreValid (literals_of filter)) }
    ensures refused { IfErr result (IsTextError depth (trees_of_kinds columns.now) text.now) }
{
    let named = named_columns(alloc, columns)?;
    parse(alloc, text, &named, depth)
}

/// The filter that the text is, over these columns.
#[tactic(auto, using(crate::proofs::SqlSteps::shown))]
fn parse(
    alloc: Global,
    text: &str,
    named: &[FilterColumn],
    depth: usize,
) -> Result<Filter, SqlError>
    ensures read { IfOk result
        (λ filter. IsSqlWithin depth (column_trees named.now) text.now (formula filter)) }
    ensures valid { IfOk result (λ filter. AreValid (literals_of filter)) }
    ensures refused { IfErr result (IsTextError depth (column_trees named.now) text.now) }
{
    match parse_within(alloc, text, named, depth) {
        Ok(filter) => Ok(filter),
        Err(cause) => Err(fault_of_words(cause)),
    }
}

/// The error of words that are refused so.
fn fault_of_words(cause: ParseError) -> SqlError
    ensures { result ≡ fault_of_words cause }
{
    match cause {
        ParseError::OutOfMemory => SqlError::OutOfMemory,
        _ => SqlError::NoFilter(cause),
    }
}

/// Whether each column has a kind and a name; else the first that has not, and why.
#[tactic(auto, using(crate::proofs::SqlSteps::shown))]
fn check_columns(columns: &[NamedKind]) -> Result<(), SqlError>
    ensures named { OnOk result (AreNamed columns.now) }
    ensures refused { IfErr result (IsColumnsError columns.now) }
{
    for place in 0..columns.len() {
        let _ = kind_and_name(place, columns[place])?;
    }
    Ok(())
}

/// The kind and the name of the column at a place.
fn kind_and_name<'a>(place: usize, column: NamedKind<'a>) -> Result<(Kind, &'a str), SqlError>
    ensures kind { IfOk result (λ found. kind_of_named column.entry ≡ Some found.0) }
    ensures name { IfOk result (λ found. found.1.now ≡ column.entry.name.now) }
    ensures sound { OnOk result (IsNamed column.entry) }
    ensures refused { IfErr result (IsColumnError place column.entry) }
{
    let Some(kind) = Kind::with_code(column.kind, column.precision, column.scale) else {
        return Err(SqlError::NotAKind(place));
    };
    let Ok(name) = str::from_utf8(column.name) else {
        return Err(SqlError::NameNotUtf8(place));
    };
    Ok((kind, name))
}

/// The columns by name and type.
#[tactic(auto, using(crate::proofs::SqlSteps::shown))]
fn named_columns(alloc: Global, columns: &[NamedKind]) -> Result<Vec<FilterColumn>, SqlError>
    requires { AreNamed columns.now }
    ensures named { IfOk result (λ named. column_trees named.items ≡ trees_of_kinds columns.now) }
    ensures refused { IfErr result (λ refusal. refusal ≡ OutOfMemory) }
{
    let mut named = Vec::with_capacity(alloc, columns.len())?;
    for place in 0..columns.len() {
        let column = named_column(alloc, place, columns[place])?;
        named.push(column)?;
    }
    Ok(named)
}

/// The column at a place, by name and type.
fn named_column(alloc: Global, place: usize, column: NamedKind) -> Result<FilterColumn, SqlError>
    requires { IsNamed column }
    ensures named { IfOk result (λ named. column_tree named ≡ tree_of_kind column.entry) }
    ensures refused { IfErr result (λ refusal. refusal ≡ OutOfMemory) }
{
    let (kind, name) = kind_and_name(place, column)?;
    let name = String::from_str(alloc, name)?;
    Ok(FilterColumn {
        name,
        dtype: dtype_of_kind(alloc, kind)?,
    })
}

/// The encoding of a filter over these columns.
#[tactic(auto, using(crate::proofs::SqlSteps::shown))]
fn encoding_of(
    alloc: Global,
    filter: &Filter,
    columns: &[NamedKind],
    depth: usize,
) -> Result<Vec<u8>, SqlError>
    requires { AreValid (literals_of filter.now) }
    ensures { WritesEncoding depth (prepared_of columns.now (formula filter.now)) result }
{
    let types = types_of(alloc, columns)?;
    written(alloc, filter, &types, depth)
}

/// The encoding of a filter over columns of these types.
fn written(
    alloc: Global,
    filter: &Filter,
    types: &[DType],
    depth: usize,
) -> Result<Vec<u8>, SqlError>
    requires { AreValid (literals_of filter.now) }
    ensures { WritesEncoding depth (parts_of types.now filter.now) result }
{
    let mut bytes = Vec::new(alloc);
    match append_filter(filter, types, depth, &mut bytes) {
        Ok(()) => Ok(bytes),
        Err(FilterEncodingError::NoEncoding) => Err(SqlError::NoEncoding),
        Err(_) => Err(SqlError::OutOfMemory),
    }
}

/// The types of columns; of no kind, that of nulls.
#[tactic(auto, using(crate::proofs::SqlSteps::shown))]
fn types_of(alloc: Global, columns: &[NamedKind]) -> Result<Vec<DType>, SqlError>
    ensures types { IfOk result (λ types. map type_of types.items ≡ types_of_kinds columns.now) }
    ensures refused { IfErr result (λ refusal. refusal ≡ OutOfMemory) }
{
    let mut types = Vec::with_capacity(alloc, columns.len())?;
    for column in columns {
        let dtype = dtype_at(alloc, column)?;
        types.push(dtype)?;
    }
    Ok(types)
}

/// The type of a column; of no kind, that of nulls.
fn dtype_at(alloc: Global, column: &NamedKind) -> Result<DType, SqlError>
    ensures typed { IfOk result (λ dtype. type_of dtype ≡ type_at (kind_of_named column.now)) }
    ensures refused { IfErr result (λ refusal. refusal ≡ OutOfMemory) }
{
    match Kind::with_code(column.kind, column.precision, column.scale) {
        Some(kind) => dtype_of_kind(alloc, kind),
        None => Ok(DType::Null),
    }
}

/// The type of a kind.
fn dtype_of_kind(alloc: Global, kind: Kind) -> Result<DType, SqlError>
    ensures typed { IfOk result (λ dtype. type_of dtype ≡ type_of_kind kind) }
    ensures refused { IfErr result (λ refusal. refusal ≡ OutOfMemory) }
{
    match dtype_of(alloc, kind) {
        Ok(dtype) => Ok(dtype),
        Err(_) => Err(SqlError::OutOfMemory),
    }
}

/// Tells what is wrong, among so many columns, and gives the status.
fn tell(refusal: SqlError, columns: usize, mistake: &mut Mistake) -> u32
    ensures status { result ≡ status_of_sql refusal }
    ensures mistake { mistake.new ≡ mistake_of_sql columns refusal mistake.old }
    ensures refused { ¬ (HasAnswer result) }
{
    match refusal {
        SqlError::OutOfMemory => NO_MEMORY,
        SqlError::NotAKind(column) => wrong(column, 0, mistake, UNKNOWN_KIND),
        SqlError::NameNotUtf8(column) => wrong(column, 0, mistake, NOT_UTF8),
        SqlError::NotUtf8 => wrong(columns, 0, mistake, NOT_UTF8),
        SqlError::NoFilter(cause) => {
            let (place, expected) = place_and_code(cause);
            wrong(place, expected, mistake, BAD_FILTER)
        }
        SqlError::NoEncoding => wrong(0, TOO_DEEP, mistake, BAD_FILTER),
    }
}

/// Tells the place and the code, and gives the status back.
fn wrong(place: usize, expected: u32, mistake: &mut Mistake, status: u32) -> u32
    ensures status { result ≡ status }
    ensures mistake { mistake.new ≡ record { place = place; expected = expected } }
{
    *mistake = Mistake { place, expected };
    status
}

/// The code of what nests too deep.
const TOO_DEEP: u32 = 17;

/// The place of a mistake, and the code of what is wrong there.
pub(crate) fn place_and_code(cause: ParseError) -> (usize, u32)
    ensures place { result.0 ≡ place_of_mistake cause }
    ensures code { result.1 ≡ code_of_mistake cause }
{
    match cause {
        ParseError::OutOfMemory => (0, 0),
        ParseError::Expected { offset, expected } => (offset, code_of_expected(expected)),
        ParseError::NoColumn { offset } => (offset, 12),
        ParseError::TypesDiffer { offset } => (offset, 13),
        ParseError::NoLiteral { offset } => (offset, 14),
        ParseError::NumberTooLong { offset } => (offset, 15),
        ParseError::BadText { offset } => (offset, 16),
        ParseError::TooDeep { offset } => (offset, TOO_DEEP),
    }
}

/// The code of what had to come.
fn code_of_expected(expected: Expected) -> u32
    ensures { result ≡ code_of_expected expected }
{
    match expected {
        Expected::Filter => 0,
        Expected::Column => 1,
        Expected::Operator => 2,
        Expected::Literal => 3,
        Expected::Pattern => 4,
        Expected::Escape => 5,
        Expected::Null => 6,
        Expected::And => 7,
        Expected::Opening => 8,
        Expected::Closing => 9,
        Expected::Comma => 10,
        Expected::End => 11,
    }
}
