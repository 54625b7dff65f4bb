//! The laws of outcomes, each as the contract of a function that does nothing.

ghost use Rattle.column_filters.specs.Words.{NamedPiecesDecide, OutcomesCoverRows};

use statistics_bytes::laws::encodings_tell_statistics;
use vortex_value::laws::{order_is_reversed, order_is_transitive};

/// If the statistics of the columns that a filter names are right for the rows of a zone, its truth on
/// each row is among the outcomes of the zone. Columns of which nothing is said may have any cells.
pub fn outcomes_cover_rows()
    ensures { OutcomesCoverRows }
{
    order_is_reversed();
    order_is_transitive();
}

/// The outcomes of a zone are those by any statistics that its pieces say of the columns that the filter
/// names. Whatever is said of the others changes nothing.
pub fn named_pieces_decide()
    ensures { NamedPiecesDecide }
{
    encodings_tell_statistics();
}
