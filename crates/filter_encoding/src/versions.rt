//! The versions of the layout: the first byte of each encoding.

ghost use Rattle.std.specs.Prelude.{◌≡◌, map};
ghost use Rattle.std.specs.List.{list_any};
ghost use Rattle.filter_encoding.specs.Words.{cell_of, formula, has_extended, is_extended, is_extension, parts_of};
ghost use Rattle.filter_encoding.specs.Words.{type_of, version_of};

use vortex_dtype::DType;
use vortex_filter::Filter;
use vortex_value::Scalar;

/// The version without extensions.
pub(crate) const PLAIN: u8 = 1;
/// The version with extensions.
pub(crate) const EXTENDED: u8 = 2;

/// The version that is written of a filter over columns of these types.
pub(crate) fn version_of(filter: &Filter, columns: &[DType]) -> u8
    ensures { result ≡ version_of (parts_of columns.now filter.now) }
{
    if any_extension(columns) || has_extended(filter) {
        EXTENDED
    } else {
        PLAIN
    }
}

/// Whether a type is an extension.
#[tactic(auto, using(crate::proofs::TypeLaws::levels))]
fn is_extension(dtype: &DType) -> bool
    ensures { result ≡ is_extension (type_of dtype.now) }
{
    matches!(dtype, DType::Extension(_))
}

/// Whether one of the types is an extension.
fn any_extension(dtypes: &[DType]) -> bool
    ensures { result ≡ list_any is_extension (map type_of dtypes.now) }
{
    for dtype in dtypes {
        if is_extension(dtype) {
            return true;
        }
    }
    false
}

/// Whether one of the literals is of an extension.
fn any_extended(literals: &[Scalar]) -> bool
    ensures { result ≡ list_any is_extended (map cell_of literals.now) }
{
    for literal in literals {
        if is_extension(&literal.dtype) {
            return true;
        }
    }
    false
}

/// Whether one of the filter's literals is of an extension.
fn has_extended(filter: &Filter) -> bool
    ensures { result ≡ has_extended (formula filter.now) }
{
    match filter {
        Filter::Constant(_) | Filter::IsNull { .. } | Filter::Like { .. } => false,
        Filter::Compare { literal, .. } => is_extension(&literal.dtype),
        Filter::In { literals, .. } => any_extended(literals),
        Filter::Between { lower, upper, .. } => {
            is_extension(&lower.dtype) || is_extension(&upper.dtype)
        }
        Filter::StartsWith { prefix, .. } => is_extension(&prefix.dtype),
        Filter::And(left, right) => has_extended(left) || has_extended(right),
        Filter::Or(one, other) => has_extended(one) || has_extended(other),
        Filter::Not(inner) => has_extended(inner),
    }
}
