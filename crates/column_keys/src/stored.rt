//! Whether what keys give are values of logical types.

ghost use Rattle.std.specs.Prelude.{IfErr, MatchOption, OnOk, length, map};
ghost use Rattle.column_keys.specs.Read.{HaveColumns, HaveStored, IsFirstNoValue, IsNoValueIn};
ghost use Rattle.column_keys.specs.Words.{AreKinds, AreStored, HaveColumn, content, raws_in};

use crate::cells::cell_at;
use crate::errors::KeysError;
use crate::types::known_kind;
use arrow_columns::Kind;
use column_items::has_value;
use vortex_value::Scalar;

/// `NotAValue` for the first column of these kinds in which a row has no value of its logical type, and
/// the first such row.
pub(crate) fn expect_values(kinds: &[Option<Kind>], rows: &[Vec<Scalar>]) -> Result<(), KeysError>
    requires kinds { AreKinds kinds.now (length kinds.now) }
    requires cells { HaveColumns rows.now (length kinds.now) }
    ensures stored { OnOk result (HaveStored kinds.now rows.now (length kinds.now)) }
    ensures fault { IfErr result (IsNoValueIn kinds.now rows.now) }
{
    for column in 0..kinds.len() {
        let kind = known_kind(kinds[column]);
        if let Some(row) = first_no_value(rows, column, kind) {
            return Err(KeysError::NotAValue { column, row });
        }
    }
    Ok(())
}

/// The first row that has no value of the kind in a column.
fn first_no_value(rows: &[Vec<Scalar>], which: usize, kind: Kind) -> Option<usize>
    requires { HaveColumn rows.now which }
    ensures { MatchOption result
        (AreStored kind (map content (raws_in rows.now which)) (length rows.now))
        (IsFirstNoValue kind (map content (raws_in rows.now which))) }
{
    for row in 0..rows.len() {
        if !has_value(kind, cell_at(rows, row, which).value.as_ref()) {
            return Some(row);
        }
    }
    None
}
