//! Texts of filters, read as the filters that they are.

ghost use Rattle.filter_sql.specs.ColumnNames.{column_trees};
ghost use Rattle.filter_sql.specs.Parsing.{IsSql, ReadsAs};
ghost use Rattle.vortex_filter.specs.Formula.{Formula};

use filter_sql::laws::texts_say_one_filter;
use filter_sql::{Column, ParseError, parse};
use std::alloc::Global;
use vortex_filter::Filter;

/// The filter of a text: if the text is a filter, that one, or there is no memory.
pub fn read_text(alloc: Global, text: &str, columns: &[Column]) -> Result<Filter, ParseError>
    ensures { (f : Formula) → IsSql (column_trees columns.now) text.now f → ReadsAs f result }
{
    texts_say_one_filter();
    parse(alloc, text, columns)
}
