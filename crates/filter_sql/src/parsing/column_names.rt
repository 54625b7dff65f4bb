//! The columns that a text names.

ghost use Rattle.std.specs.Prelude.{◌≡◌, ◌==◌, slice_get, slice_index};
ghost use Rattle.std.specs.List.{position_from};
ghost use Rattle.std.specs.Option.{option_map};
ghost use Rattle.std.specs.Str.{bytes_eq};
ghost use Rattle.std.specs.String.{string_bytes};
ghost use Rattle.vortex_dtype.specs.TypeOf.{type_of};
ghost use Rattle.filter_sql.specs.declared.column.Column.{Column};
ghost use Rattle.filter_sql.specs.Mistakes.{Gives};
ghost use Rattle.filter_sql.specs.ColumnNames.{column_named, column_trees, digits_number, named_place, numbered_place};
ghost use Rattle.filter_sql.specs.ColumnNames.{or_numbered, typed_place};

use crate::column::Column;
use crate::parsing::errors::{Cause, TokenError};
use vortex_dtype::DType;

/// A column: its place, and its type.
#[derive(Clone, Copy)]
pub(crate) struct Found<'a> {
    pub(crate) place: usize,
    pub(crate) dtype: &'a DType,
}

/// The first column with this name; if there is none, `$1` is the first column, and so on.
#[tactic(auto, unfolding(crate::specs::ColumnNames::column_named))]
fn column_named<'a>(columns: &'a [Column], name: &str) -> Option<Found<'a>>
    ensures { option_map (λ x. (x.place, type_of x.dtype.now)) result
        ≡ column_named (column_trees columns.now) name.now }
{
    let place = place_named(columns, name)?;
    column_at(columns, place)
}

/// The column at the place.
#[tactic(auto, using(crate::proofs::ColumnSteps::looked_up))]
fn column_at(columns: &[Column], place: usize) -> Option<Found<'_>>
    ensures { option_map (λ x. (x.place, type_of x.dtype.now)) result
        ≡ typed_place place (slice_get (column_trees columns.now) place) }
{
    let column = columns.get(place)?;
    Some(Found {
        place,
        dtype: &column.dtype,
    })
}

/// The column with this name, which has to be there. So many tokens are left.
pub(crate) fn expect_column<'a>(
    columns: &'a [Column],
    name: &str,
    left: usize,
) -> Result<Found<'a>, TokenError>
    ensures { Gives (λ x. (x.place, type_of x.dtype.now)) result
        (column_named (column_trees columns.now) name.now) (TokenError.At left Cause.NoColumn) }
{
    match column_named(columns, name) {
        Some(column) => Ok(column),
        None => Err(TokenError::At(left, Cause::NoColumn)),
    }
}

/// The place of the first column with this name, or the place that it numbers.
fn place_named(columns: &[Column], name: &str) -> Option<usize>
    ensures { result ≡ or_numbered name.now (named_place (column_trees columns.now) name.now) }
{
    match first_named(columns, name) {
        Some(place) => Some(place),
        None => numbered_place(name),
    }
}

/// The place of the first column with this name.
fn first_named(columns: &[Column], name: &str) -> Option<usize>
    ensures { result
        ≡ position_from (λ (c : Column). bytes_eq (string_bytes c.name) name.now) 0 columns.now }
{
    columns
        .iter()
        .position(|column| column.name.as_str() == name)
}

/// The place that `$1`, `$2` and so on stand for.
#[tactic(auto, unfolding(crate::specs::ColumnNames::numbered_place))]
fn numbered_place(name: &str) -> Option<usize>
    ensures { result ≡ numbered_place name.now }
{
    match name.strip_prefix('$') {
        Some(digits) => digits_number(digits)?.checked_sub(1),
        None => None,
    }
}

/// The number that the digits say.
fn digits_number(digits: &str) -> Option<usize>
    ensures { result ≡ digits_number digits.now }
{
    if has_plus(digits) {
        return None;
    }
    digits.parse().ok()
}

/// Whether a plus sign stands first, which `parse` takes.
fn has_plus(digits: &str) -> bool
    ensures { result ≡ (slice_index digits.now 0 == 43) }
{
    !digits.is_empty() && digits.as_bytes()[0] == b'+'
}
