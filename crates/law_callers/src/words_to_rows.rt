//! Rows by the words of a filter, on the way of a caller from another language: the filter is read, written as
//! bytes, read back, and asked of columns.

ghost use Rattle.std.specs.Prelude.{ℕ, IfErr, OnOk, length, map};
ghost use Rattle.column_filters.specs.Words.{IsMask, cells_of_columns, matching};
ghost use Rattle.filter_encoding.specs.Encoding.{CanBeWritten};
ghost use Rattle.filter_sql.specs.ColumnNames.{column_trees};
ghost use Rattle.filter_sql.specs.Parsing.{IsSql};
ghost use Rattle.law_callers.specs.Refusals.{IsNoMask};
ghost use Rattle.vortex_dtype.specs.TypeOf.{type_of};
ghost use Rattle.vortex_filter.specs.Formula.{Formula};

use arrow_columns::Column as ArrowColumn;
use column_filters::{MaskError, mask_of_columns};
use filter_encoding::laws::low_filters_nest;
use filter_encoding::{FilterEncodingError, append_filter, read_filter};
use filter_sql::laws::{texts_nest_so, texts_say_one_filter};
use filter_sql::{Column, MAX_DEPTH, ParseError, parse};
use std::alloc::Global;
use vortex_dtype::DType;

/// How deep the bytes of a filter may nest whose words nest at most `MAX_DEPTH` deep.
const ENCODING_DEPTH: usize = 2 * MAX_DEPTH + 5;

/// Why there is no mask.
#[derive(Debug, Drop)]
pub enum WordsError {
    /// The words are no filter over the columns.
    NoFilter(ParseError),
    /// The filter has no encoding, or there is no memory for it.
    NoEncoding(FilterEncodingError),
    /// The columns are not read, or the mask is too small.
    NoMask(MaskError),
}

/// Writes which of so many rows of columns match the filter that words are over their names and types: if the
/// words are a filter, the mask is that filter's. If that filter has an encoding over these types, at any
/// depth, it is refused only for want of memory, or for what the columns and the mask are.
pub fn mask_of_words(
    alloc: Global,
    words: &str,
    named: &[Column],
    types: &[DType],
    columns: &[ArrowColumn],
    count: usize,
    mask: &mut [u8],
) -> Result<(), WordsError>
    ensures masked { (f : Formula) → IsSql (column_trees named.now) words.now f
        → OnOk result (IsMask (matching f (cells_of_columns columns.now)) count mask.new) }
    ensures refused { (f : Formula) (depth : ℕ) → IsSql (column_trees named.now) words.now f
        → CanBeWritten depth (record { types = map type_of types.now; filter = f })
        → IfErr result (IsNoMask f columns.now (map type_of types.now) count (length mask.old)) }
{
    texts_say_one_filter();
    texts_nest_so();
    low_filters_nest();
    let filter = match parse(alloc, words, named) {
        Ok(filter) => filter,
        Err(error) => return Err(WordsError::NoFilter(error)),
    };
    let mut bytes = Vec::new(alloc);
    if let Err(error) = append_filter(&filter, types, ENCODING_DEPTH, &mut bytes) {
        return Err(WordsError::NoEncoding(error));
    }
    let prepared = match read_filter(alloc, ENCODING_DEPTH, &bytes) {
        Ok(prepared) => prepared,
        Err(error) => return Err(WordsError::NoEncoding(error)),
    };
    match mask_of_columns(alloc, &prepared.filter, types, columns, count, mask) {
        Ok(()) => Ok(()),
        Err(error) => Err(WordsError::NoMask(error)),
    }
}
