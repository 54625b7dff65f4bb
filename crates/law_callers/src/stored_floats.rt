//! Floats that are stored as integers, and come back.

ghost use lib.Ieee.{of_bits};
ghost use Rattle.std.specs.Float.{binary32, binary64};
ghost use Rattle.std.specs.Ordering.{nan_last_cmp};
ghost use Rattle.std.specs.Prelude.{◌≡◌, ◌↔◌, IsTrue};
ghost use Rattle.std.specs.declared.cmp.Ordering.TheVariants.{Equal, Less};
ghost use Rattle.float_storage.specs.Storage.{IsStorage, storage_of};

use float_storage::laws::{
    bits_have_the_storage_of_f32, bits_have_the_storage_of_f64, f32_comes_back,
    f32_storage_comes_back, f64_comes_back, f64_storage_comes_back, storages_sort_as_f32,
};
use float_storage::{
    f32_bits_of_storage, f32_of_storage, f64_bits_of_storage, f64_of_storage, storage_of_f32,
    storage_of_f32_bits, storage_of_f64, storage_of_f64_bits,
};

/// Stores a float, and makes a float of what is stored: the same number, or again a NaN.
pub fn store_and_restore_f64(number: f64) -> f64
    ensures { nan_last_cmp result number ≡ Equal }
{
    f64_comes_back(number);
    f64_of_storage(storage_of_f64(number))
}

/// Makes a float of what is stored, and stores it.
pub fn restore_and_store_f64(storage: i64) -> i64
    requires { IsStorage binary64 storage }
    ensures { result ≡ storage }
{
    f64_storage_comes_back(storage);
    storage_of_f64(f64_of_storage(storage))
}

/// Makes the bits of a float of what is stored, and stores them.
pub fn restore_and_store_bits_of_f64(storage: i64) -> i64
    requires { IsStorage binary64 storage }
    ensures { result ≡ storage }
{
    f64_storage_comes_back(storage);
    storage_of_f64_bits(f64_bits_of_storage(storage))
}

/// Stores the bits of a float, as the float is stored.
pub fn store_bits_of_f64(bits: u64) -> i64
    ensures { result ≡ storage_of binary64 (of_bits binary64 bits) }
{
    bits_have_the_storage_of_f64(bits);
    storage_of_f64_bits(bits)
}

/// Stores a float, and makes a float of what is stored: the same number, or again a NaN.
pub fn store_and_restore_f32(number: f32) -> f32
    ensures { nan_last_cmp result number ≡ Equal }
{
    f32_comes_back(number);
    f32_of_storage(storage_of_f32(number))
}

/// Makes a float of what is stored, and stores it.
pub fn restore_and_store_f32(storage: i32) -> i32
    requires { IsStorage binary32 storage }
    ensures { result ≡ storage }
{
    f32_storage_comes_back(storage);
    storage_of_f32(f32_of_storage(storage))
}

/// Makes the bits of a float of what is stored, and stores them.
pub fn restore_and_store_bits_of_f32(storage: i32) -> i32
    requires { IsStorage binary32 storage }
    ensures { result ≡ storage }
{
    f32_storage_comes_back(storage);
    storage_of_f32_bits(f32_bits_of_storage(storage))
}

/// Stores the bits of a float, as the float is stored.
pub fn store_bits_of_f32(bits: u32) -> i32
    ensures { result ≡ storage_of binary32 (of_bits binary32 bits) }
{
    bits_have_the_storage_of_f32(bits);
    storage_of_f32_bits(bits)
}

/// Whether a float is less than another, by what is stored.
pub fn is_less_f32(one: f32, other: f32) -> bool
    ensures { IsTrue result ↔ (nan_last_cmp one other ≡ Less) }
{
    storages_sort_as_f32(one, other);
    storage_of_f32(one) < storage_of_f32(other)
}
