//! The statistics of a zone, read of its bytes.

ghost use Rattle.std.specs.Prelude.{◌≡◌, ◌∷◌, List, [], ℕ, IfOk, IfSome, Some, map};
ghost use Rattle.record_rows.specs.Cells.{column_type};
ghost use Rattle.record_search.specs.Decoding.{piece_in};
ghost use Rattle.statistics_bytes.specs.Pieces.{Says};
ghost use Rattle.vortex_statistics.specs.Statistics.{Known, known};

use record_rows::ColumnType;
use record_search::laws::pieces_are_read;
use record_search::read_statistics;
use std::alloc::{AllocError, Global};
use vortex_statistics::ColumnStatistics;

/// What is known of the only column of a file in a zone that has these bytes of statistics: what their
/// piece says of the column. `None` if they are no piece that says anything of it.
pub fn known_of_column(
    alloc: Global,
    column: ColumnType,
    bytes: &[u8],
) -> Result<Option<Vec<ColumnStatistics>>, AllocError>
    ensures { IfOk result (λ read. IfSome read (λ all. (piece : List ℕ) × (s : Known)
        × (piece_in bytes.now ≡ Some (piece, [])) × (map known all.items ≡ s ∷ [])
        × Says (column_type column) piece s)) }
{
    pieces_are_read();
    let columns = [column];
    read_statistics(alloc, &columns, bytes)
}
