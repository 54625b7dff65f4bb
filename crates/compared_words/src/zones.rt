// SPDX-License-Identifier: Apache-2.0
//! Zones of a file that a search may leave out.

ghost use Rattle.std.specs.Float.{Float, binary64};
ghost use Rattle.std.specs.Ordering.{int_cmp, nan_last_cmp};
ghost use Rattle.std.specs.Prelude.{◌≡◌, ◌-◌, ◌^◌, ◌*ℤ◌, ℕ, ℤ, IsTrue, List, Some, false, pos};
ghost use Rattle.compared_words.specs.Compared.{IsWordDecided, ReadsAs, places_of};
ghost use Rattle.logical_types.specs.Places.{number_at};
ghost use Rattle.logical_types.specs.Words.{Writes};
ghost use Rattle.logical_types.specs.declared.logical.DecimalType.{DecimalType as DecimalTypes};
ghost use Rattle.logical_types.specs.declared.logical.LogicalType.{LogicalType};
ghost use Rattle.logical_types.specs.declared.logical.LogicalType.TheVariants.{Decimal, Float64};
ghost use Rattle.vortex_filter.specs.Operators.{holds};
ghost use Rattle.vortex_filter.specs.declared.operator.CompareOperator.{CompareOperator};

use crate::laws::words_are_compared;
use zone_index::Decision;

/// Whether a zone can be left out, by what its statistics decide of a filter that compares a column with a
/// literal. If so, no word of its records there is a value that compares so, no word a float that does, and
/// no word a decimal that does, whatever digits the literal has.
pub fn can_skip(decision: Decision) -> bool
    ensures values { (k : ℕ) (logical : LogicalType) (op : CompareOperator) (literal word : List ℕ) (y z : ℤ)
        → IsWordDecided decision k logical op literal word → Writes logical word y → Writes logical literal z
        → IsTrue result → holds op (int_cmp y z) ≡ false }
    ensures floats { (k : ℕ) (op : CompareOperator) (literal word : List ℕ) (x number : Float)
        → IsWordDecided decision k Float64 op literal word → ReadsAs binary64 word x
        → ReadsAs binary64 literal number → IsTrue result → holds op (nan_last_cmp x number) ≡ false }
    ensures decimals { (k : ℕ) (d : DecimalTypes) (op : CompareOperator) (literal word : List ℕ) (y number : ℤ)
        → IsWordDecided decision k (Decimal d) op literal word → Writes (Decimal d) word y
        → number_at (places_of d literal) literal ≡ Some number → IsTrue result
        → holds op (int_cmp (y *ℤ pos (10 ^ (places_of d literal - d.scale))) number) ≡ false }
{
    words_are_compared();
    match decision {
        Decision::NoneMatch => true,
        Decision::AllMatch | Decision::Unknown => false,
    }
}
