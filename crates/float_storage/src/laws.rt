// SPDX-License-Identifier: Apache-2.0
//! Laws of storages, each the contract of a function that does nothing.

ghost use Rattle.std.specs.Prelude.{◌≡◌, ◌≤ℤ◌, IsTrue};
ghost use Rattle.std.specs.Float.{NotNan, binary32, binary64, ◌≤ᶠ◌};
ghost use Rattle.std.specs.Ordering.{int_cmp, nan_last_cmp};
ghost use Rattle.std.specs.declared.cmp.Ordering.TheVariants.{Equal};
ghost use Rattle.float_storage.specs.Storage.{IsStorage, bits_of_storage, float_of_storage, storage_of};
ghost use Rattle.float_storage.specs.Storage.{storage_of_bits};
ghost use lib.Ieee.{eq, of_bits};

/// Storages have the order of floats, with all NaNs equal and above the numbers.
pub fn storages_sort_as_f64(x: f64, y: f64)
    ensures order { nan_last_cmp x y ≡ int_cmp (storage_of binary64 x) (storage_of binary64 y) }
    ensures keeps { x ≤ᶠ y → storage_of binary64 x ≤ℤ storage_of binary64 y }
    ensures reflects { NotNan x → NotNan y → storage_of binary64 x ≤ℤ storage_of binary64 y → x ≤ᶠ y }
    ensures equal { IsTrue (eq x y) → storage_of binary64 x ≡ storage_of binary64 y }
{}

/// A float made of its own storage equals it, and a NaN is a NaN again.
pub fn f64_comes_back(x: f64)
    ensures { nan_last_cmp (float_of_storage binary64 (storage_of binary64 x)) x ≡ Equal }
{}

/// Each integer within the bounds is the storage of a float.
pub fn f64_storage_comes_back(storage: i64)
    ensures float { IsStorage binary64 storage
        → storage_of binary64 (float_of_storage binary64 storage) ≡ storage }
    ensures bits { IsStorage binary64 storage
        → storage_of_bits binary64 (bits_of_storage binary64 storage) ≡ storage }
{}

/// The storage of bits is that of the float that has them.
pub fn bits_have_the_storage_of_f64(bits: u64)
    ensures { storage_of_bits binary64 bits ≡ storage_of binary64 (of_bits binary64 bits) }
{}

/// Storages have the order of floats, with all NaNs equal and above the numbers.
pub fn storages_sort_as_f32(x: f32, y: f32)
    ensures order { nan_last_cmp x y ≡ int_cmp (storage_of binary32 x) (storage_of binary32 y) }
    ensures keeps { x ≤ᶠ y → storage_of binary32 x ≤ℤ storage_of binary32 y }
    ensures reflects { NotNan x → NotNan y → storage_of binary32 x ≤ℤ storage_of binary32 y → x ≤ᶠ y }
    ensures equal { IsTrue (eq x y) → storage_of binary32 x ≡ storage_of binary32 y }
{}

/// A float made of its own storage equals it, and a NaN is a NaN again.
pub fn f32_comes_back(x: f32)
    ensures { nan_last_cmp (float_of_storage binary32 (storage_of binary32 x)) x ≡ Equal }
{}

/// Each integer within the bounds is the storage of a float.
pub fn f32_storage_comes_back(storage: i32)
    ensures float { IsStorage binary32 storage
        → storage_of binary32 (float_of_storage binary32 storage) ≡ storage }
    ensures bits { IsStorage binary32 storage
        → storage_of_bits binary32 (bits_of_storage binary32 storage) ≡ storage }
{}

/// The storage of bits is that of the float that has them.
pub fn bits_have_the_storage_of_f32(bits: u32)
    ensures { storage_of_bits binary32 bits ≡ storage_of binary32 (of_bits binary32 bits) }
{}
