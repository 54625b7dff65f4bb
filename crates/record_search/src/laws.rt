//! The laws of rows and statistics in a search: what holds of all of them, whatever calls gave them.
//!
//! These functions do nothing when they run. The contract of each is a law over the definitions in
//! `specs/`, and its proof is the law's proof.

ghost use Rattle.record_search.specs.Laws.{DecisionsAreRight, DescribedIsRead, IndexesAreReadBack, IndexesFindAll};
ghost use Rattle.record_search.specs.Laws.{PiecesAreRead, RightIndexesHavePieces, RowsAreRead};

use logical_types::laws::shapes_say_words;
use vortex_row::laws::{keys_are_apart, values_have_no_typed};
use vortex_value::laws::{order_is_reversed, order_is_transitive};

/// The row that is computed of a record is the one that `record_rows` reads; a record without one
/// has none.
pub fn rows_are_read()
    ensures { RowsAreRead }
{
    shapes_say_words();
}

/// The statistics that are computed of a piece are those that it says, for each type that columns of
/// records have.
pub fn pieces_are_read()
    ensures { PiecesAreRead }
{}

/// What a describer says of the rows of records is read back: statistics of each column, right for its
/// cells, with the nulls counted and the best bounds of so many bytes.
pub fn described_is_read()
    ensures { DescribedIsRead }
{}

/// An index that is right for a file can be written: the statistics of its zones are a piece for each
/// column. So an attempt fails for want of memory alone.
pub fn right_indexes_have_pieces()
    ensures { RightIndexesHavePieces }
{}

/// What statistics of a zone decide of a filter is so of each of its records.
pub fn decisions_are_right()
    ensures { DecisionsAreRight }
{
    keys_are_apart();
    values_have_no_typed();
    order_is_reversed();
    order_is_transitive();
}

/// What is read back of an index that was written is right for each file for which the index is, also
/// if it says nothing of columns that are not wanted.
pub fn indexes_are_read_back()
    ensures { IndexesAreReadBack }
{}

/// A search by an index that is right for a file writes what a search of the whole file does.
pub fn indexes_find_all()
    ensures { IndexesFindAll }
{}
