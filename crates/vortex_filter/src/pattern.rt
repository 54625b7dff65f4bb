//! Which strings match a pattern.

ghost use Rattle.std.specs.Prelude.{◌≡◌};
ghost use Rattle.vortex_filter.specs.PatternTests.{pattern_truth};
ghost use Rattle.vortex_filter.specs.Words.{cell_of, lent_cell};

use crate::truth::Truth;
use like_patterns::{Case, Pattern};
use vortex_value::{Scalar, ScalarValue};

/// Whether a cell matches the pattern.
pub(crate) fn truth_of_pattern(cell: Option<&Scalar>, pattern: &Pattern, case: Case) -> Truth
    ensures { result ≡ pattern_truth case pattern.now (lent_cell cell.entry) }
{
    match cell {
        Some(value) => truth_of_match(value, pattern, case),
        None => Truth::Unknown,
    }
}

/// Whether a value matches the pattern.
fn truth_of_match(value: &Scalar, pattern: &Pattern, case: Case) -> Truth
    ensures { result ≡ pattern_truth case pattern.now (cell_of value.now) }
{
    if !value.dtype.is_utf8() {
        return Truth::Unknown;
    }
    match value.value() {
        Some(ScalarValue::Utf8(text)) => Truth::of(pattern.is_match(case, text.as_str())),
        _ => Truth::Unknown,
    }
}
