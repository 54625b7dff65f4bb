// SPDX-License-Identifier: Apache-2.0
//! Laws of words, each the contract of a function that does nothing.

ghost use mir.Syntax.{w128};
ghost use Rattle.std.specs.Prelude.{◌≡◌, ◌<◌, ◌↔◌, ◌^◌, FitsSigned, false, ℕ, ℤ, List, Some, unsigned_abs};
ghost use Rattle.logical_types.specs.DecimalWorth.{IsWorth};
ghost use Rattle.logical_types.specs.Decimals.{decimal_text, decimal_value};
ghost use Rattle.logical_types.specs.Extensions.{FitsStorage, IsExtension, storage_type_of};
ghost use Rattle.logical_types.specs.Places.{IsPlaceOfWord, fine_scale};
ghost use Rattle.logical_types.specs.Printed.{IsPrinted, is_float};
ghost use Rattle.logical_types.specs.Shapes.{Shape, place_in, shape_of, shape_of_extension, storage_in};
ghost use Rattle.logical_types.specs.declared.logical.LogicalType.{LogicalType as LogicalTypes};
ghost use Rattle.logical_types.specs.Storing.{decimal_bytes};
ghost use Rattle.logical_types.specs.Words.{IsStorageOf, Writes};
ghost use Rattle.logical_types.specs.declared.decimals.places.DecimalPlace.{DecimalPlace};
ghost use Rattle.logical_types.specs.declared.decimals.places.DecimalPlace.TheVariants.{At};
ghost use Rattle.logical_types.specs.declared.extensions.StorageType.{StorageType};
ghost use Rattle.std.specs.Cmp.Lexicographic.{slice_cmp};
ghost use Rattle.std.specs.Ordering.{int_cmp, nat_cmp};

use crate::logical::{DecimalType, LogicalType};

/// What is written of a number is read as that number.
pub fn decimals_read_back(decimal: DecimalType, number: i128)
    ensures { unsigned_abs number < 10 ^ decimal.precision
        → decimal_value (10 ^ decimal.precision) decimal.scale (decimal_text decimal.scale number) ≡ Some number }
{
    let _ = decimal;
    let _ = number;
}

/// A word that is read writes the number, times 10 ^ scale, exactly.
pub fn decimals_are_exact(decimal: DecimalType)
    ensures { (word : List ℕ) (z : ℤ) → decimal_value (10 ^ decimal.precision) decimal.scale word ≡ Some z
        → IsWorth decimal.scale word z }
{
    let _ = decimal;
}

/// The number that lies among the values of a type is exactly the one that the word writes.
pub fn places_are_exact(decimal: DecimalType)
    ensures { (word : List ℕ) (place : DecimalPlace) (h : IsPlaceOfWord decimal word place)
        → IsWorth (fine_scale decimal.scale word) word h.number }
{
    let _ = decimal;
}

/// The 16 bytes of numbers sort as the numbers do.
pub fn decimal_bytes_sort_as_numbers()
    ensures { (x y : ℤ) → FitsSigned w128 x → FitsSigned w128 y
        → slice_cmp nat_cmp (decimal_bytes x) (decimal_bytes y) ≡ int_cmp x y }
{}

/// What stores the values of a type holds the storage of each.
pub fn storages_fit(logical: LogicalType)
    ensures { (z : ℤ) → IsStorageOf logical z → FitsStorage (storage_type_of logical) z }
{
    let _ = logical;
}

/// A word writes one value of a type: so what is written is read as the same.
pub fn a_word_is_of_one_value(logical: LogicalType)
    ensures { (word : List ℕ) (y z : ℤ) → Writes logical word y → Writes logical word z → y ≡ z }
{
    let _ = logical;
}

/// One word is printed of a value, unless it is a float: two words that are printed of it are the same.
pub fn a_value_has_one_word(logical: LogicalType)
    ensures { (word other : List ℕ) (z : ℤ) → is_float logical ≡ false
        → IsPrinted logical word z → IsPrinted logical other z → word ≡ other }
{
    let _ = logical;
}

/// The word of a value says its storage, as a function of the word.
pub fn shapes_say_words()
    ensures { (l : LogicalTypes) (word : List ℕ) (z : ℤ)
        → (storage_in (shape_of l) word ≡ Some z) ↔ Writes l word z }
{}

/// The id, the metadata and the storage of an extension say its logical type, as a function of them.
pub fn shapes_say_extensions()
    ensures says { (l : LogicalTypes) (id metadata : List ℕ) (kind : StorageType)
        → (shape_of_extension id metadata kind ≡ Some (shape_of l))
        ↔ IsExtension id metadata kind l }
    ensures whole { (id metadata : List ℕ) (kind : StorageType) (shape : Shape)
        → shape_of_extension id metadata kind ≡ Some shape
        → (l : LogicalTypes) × (shape_of l ≡ shape) }
{}

/// What is printed of an integer lies at it.
pub fn integers_lie_at_themselves()
    ensures { (z : ℤ) → unsigned_abs z < 10 ^ 38
        → place_in 38 0 (decimal_text 0 z) ≡ Some (At z) }
{}
