//! Zones that are skipped by their bytes of outcomes.

ghost use Rattle.std.specs.Prelude.{◌≡◌, ◌<◌, ℕ, List, Contains, false, map, true};
ghost use Rattle.arrow_columns.specs.Columns.{rows_in};
ghost use Rattle.arrow_columns.specs.declared.columns.Column.{Column};
ghost use Rattle.column_cells.specs.Types.{type_of_column};
ghost use Rattle.vortex_dtype.specs.TypeTree.{TypeTree};
ghost use Rattle.vortex_cells.specs.Cells.{Cell};
ghost use Rattle.vortex_filter.specs.Formula.{Formula, is_match};
ghost use Rattle.column_filters.specs.Tables.{cells_of_columns};
ghost use Rattle.column_filters.specs.Words.{matching};
ghost use Rattle.column_filters.specs.Zones.{ArePiecesRight, IsOutcome};
ghost use Rattle.law_callers.specs.Pieces.{AreEven, ArePiecesOf, AreWrittenRight};

use column_filters::laws::outcomes_cover_rows;
use column_statistics::laws::encodings_stay_right;

/// Whether a zone can be skipped, of which a filter has this byte of outcomes. If what the pieces of the
/// columns that it names say is right for the rows of the zone, then the filter matches none of them.
pub fn can_be_skipped(byte: u8) -> bool
    ensures { (f : Formula) (types : List TypeTree) (bytes offsets : List ℕ) (p : ℕ)
        → IsOutcome f types bytes offsets p byte
        → (rows : List (List Cell)) → ArePiecesRight f types bytes offsets p rows
        → (row : List Cell) → Contains rows row → result ≡ true → is_match f row ≡ false }
{
    outcomes_cover_rows();
    byte / 4 % 2 == 0
}

/// Whether a zone can be skipped whose pieces are bytes that are right for its columns, as those that
/// `column_encoding` writes and `merged_encoding` makes. If so, the filter matches none of its rows.
pub fn can_skip_written(byte: u8) -> bool
    ensures { (f : Formula) (types : List TypeTree) (bytes offsets : List ℕ) (p : ℕ)
        → IsOutcome f types bytes offsets p byte
        → (rows : List (List Cell)) → AreWrittenRight types bytes offsets p rows
        → (row : List Cell) → Contains rows row → result ≡ true → is_match f row ≡ false }
{
    encodings_stay_right();
    can_be_skipped(byte)
}

/// Whether a zone of columns can be skipped whose pieces are right for them. If so, the filter matches
/// none of their rows: the mask of the columns has no bit.
pub fn can_skip_columns(byte: u8) -> bool
    ensures { (f : Formula) (columns : List Column) (bytes offsets : List ℕ) (p : ℕ)
        → AreEven columns → ArePiecesOf columns bytes offsets p
        → IsOutcome f (map type_of_column columns) bytes offsets p byte
        → (row : ℕ) → row < rows_in columns → result ≡ true
        → matching f (cells_of_columns columns) row ≡ false }
{
    can_skip_written(byte)
}
