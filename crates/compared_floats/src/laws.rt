// SPDX-License-Identifier: Apache-2.0
//! The law of floats that are compared, the contract of a function that does nothing.

ghost use Rattle.compared_floats.specs.Compared.{FloatsAreCompared};

use filter_pruning::laws::searches_find_all;
use vortex_filter::laws::comparisons_stand;

/// Statistics of columns say that no row has a float in one of them that compares so with a number, and are
/// right for the columns. Then no bits in the buffer, but those of nulls, are a float which does. Floats
/// compare by their order: -0 is 0, and each NaN is equal to each and above all numbers.
pub fn floats_are_compared()
    ensures { FloatsAreCompared }
{
    searches_find_all();
    comparisons_stand();
}
