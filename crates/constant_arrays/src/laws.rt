// SPDX-License-Identifier: Apache-2.0
//! The law of constant arrays, the contract of a function that does nothing.

ghost use Rattle.constant_arrays.specs.Laws.{ConstantsEqualColumns};

/// A constant array is equal to the column written out: rows, slices, casts, comparisons, filters,
/// statistics and keys of the one are those of the other.
pub fn constants_equal_columns()
    ensures { ConstantsEqualColumns }
{}
