//! What is sought: how records are rows, and which rows match.

ghost use Rattle.std.specs.Prelude.{◌≡◌, IfErr, IfOk, false, length, replicate};
ghost use Rattle.file_search.specs.Words.{AreMarked, IsFilterOf, IsSchema, IsSetupOf, IsSought, IsUnread, IsUnsought};
ghost use Rattle.file_search.specs.Words.{NoFilterFor, NoMemory, NoSetup, column_trees, formula, setup_value};
ghost use Rattle.file_search.specs.Words.{column_tree, tree_of_named, trees_of_named};

use csv_columns::{NamedColumn, Setup};
use filter_sql::{Column, ParseError, filter_of_words};
use record_rows::{Schema, dtype_of};
use record_search::{RowFilter, named_columns};
use std::alloc::{AllocError, AllocFailed, Global};
use std::str;
use vortex_filter::Filter;

/// How records are rows, and which rows match.
#[derive(Drop)]
pub struct Sought {
    /// How records are rows.
    pub schema: Schema,
    /// Which rows match.
    pub filter: Filter,
}

/// Why nothing is sought.
#[derive(Clone, Copy, Debug, PartialEq, Eq)]
pub enum SoughtError {
    /// No memory was left.
    NoMemory,
    /// The text is of no setup, or the byte between two fields may not be one.
    NoSetup,
    /// The words are not UTF-8.
    NotUtf8,
    /// The words are no filter over the columns of the setup.
    NoFilter(ParseError),
}

impl From<AllocError> for SoughtError {
    ghost use Rattle.file_search.specs.declared.sought.SoughtError.TheVariants.{NoMemory};

    ghost from_gives = { λ _ e. e ≡ NoMemory };

    fn from(_error: AllocError) -> SoughtError {
        SoughtError::NoMemory
    }
}

impl<T: Drop> From<AllocFailed<T>> for SoughtError {
    ghost use Rattle.file_search.specs.declared.sought.SoughtError.TheVariants.{NoMemory};

    ghost from_gives = { λ _ e. e ≡ NoMemory };

    fn from(_error: AllocFailed<T>) -> SoughtError {
        SoughtError::NoMemory
    }
}

impl Sought {
    /// What is sought by the words of a filter, in a file that is read as the text of a setup says. At
    /// most `depth` connectives and parentheses may nest in the words.
    pub fn from_text(
        alloc: Global,
        setup: &[u8],
        words: &str,
        depth: usize,
    ) -> Result<Sought, SoughtError>
        ensures sought { IfOk result (λ sought.
            IsSought depth setup.now words.now sought.schema (formula sought.filter)) }
        ensures refused { IfErr result (IsUnsought depth setup.now words.now) }
    {
        let (setup, schema) = read_setup(alloc, setup)?;
        let filter = filter_over(alloc, &setup.columns, words, depth)?;
        Ok(Sought { schema, filter })
    }

    /// The same, of words that are to be UTF-8.
    pub fn from_bytes(
        alloc: Global,
        setup: &[u8],
        words: &[u8],
        depth: usize,
    ) -> Result<Sought, SoughtError>
        ensures sought { IfOk result (λ sought.
            IsSought depth setup.now words.now sought.schema (formula sought.filter)) }
        ensures refused { IfErr result (IsUnsought depth setup.now words.now) }
    {
        match str::from_utf8(words) {
            Ok(words) => Sought::from_text(alloc, setup, words, depth),
            Err(_) => Err(SoughtError::NotUtf8),
        }
    }

    /// The records that match.
    pub fn matcher(&self) -> RowFilter<'_>
        ensures schema { result.schema.now ≡ self.now.schema }
        ensures filter { result.filter.now ≡ self.now.filter }
    {
        RowFilter {
            schema: &self.schema,
            filter: &self.filter,
        }
    }

    /// Whether the filter names a column, for each column: the blocks of these are wanted.
    pub fn named_columns(&self, alloc: Global) -> Result<Vec<bool>, AllocError>
        ensures { IfOk result (λ named. AreMarked (formula self.now.filter)
            (replicate (length self.now.schema.columns.items) false) named.items) }
    {
        named_columns(alloc, &self.filter, self.schema.columns.len())
    }
}

/// The setup that a text is, and the schema of it.
fn read_setup(alloc: Global, text: &[u8]) -> Result<(Setup, Schema), SoughtError>
    ensures is { IfOk result (λ read. IsSetupOf text.now read.0) }
    ensures schema { IfOk result (λ read. IsSchema read.0 read.1) }
    ensures refused { IfErr result (IsUnread text.now) }
{
    let Some(setup) = Setup::from_text(alloc, text)? else {
        return Err(SoughtError::NoSetup);
    };
    match setup.schema(alloc)? {
        Some(schema) => Ok((setup, schema)),
        None => Err(SoughtError::NoSetup),
    }
}

/// The filter that words are over the columns of a setup.
fn filter_over(
    alloc: Global,
    columns: &[NamedColumn],
    words: &str,
    depth: usize,
) -> Result<Filter, SoughtError>
    ensures read { IfOk result (λ filter. IsFilterOf depth (trees_of_named columns.now) words.now (formula filter)) }
    ensures refused { IfErr result (NoFilterFor depth (trees_of_named columns.now) words.now) }
{
    let columns = filter_columns(alloc, columns)?;
    match filter_of_words(alloc, words, &columns, depth) {
        Ok(filter) => Ok(filter),
        Err(ParseError::OutOfMemory) => Err(SoughtError::NoMemory),
        Err(cause) => Err(SoughtError::NoFilter(cause)),
    }
}

/// The columns of a setup, as filters name them.
fn filter_columns(alloc: Global, columns: &[NamedColumn]) -> Result<Vec<Column>, AllocError>
    ensures { IfOk result (λ named. column_trees named.items ≡ trees_of_named columns.now) }
{
    let mut named = Vec::new(alloc);
    for column in columns {
        named.push(filter_column(alloc, column)?)?;
    }
    Ok(named)
}

/// A column of a setup, as filters name it.
fn filter_column(alloc: Global, column: &NamedColumn) -> Result<Column, AllocError>
    ensures { IfOk result (λ named. column_tree named ≡ tree_of_named column.now) }
{
    let name = String::from_str(alloc, &column.name)?;
    let dtype = dtype_of(alloc, column.column)?;
    Ok(Column { name, dtype })
}
