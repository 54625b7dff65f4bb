// SPDX-License-Identifier: Apache-2.0
//! Of f32, in i32.

ghost use Rattle.std.specs.Prelude.{◌≡◌, ◌↔◌, IsTrue};
ghost use Rattle.std.specs.Float.{binary32};
ghost use Rattle.float_storage.specs.Storage.{IsStorage, bits_of_storage, float_of_storage, storage_of};
ghost use Rattle.float_storage.specs.Storage.{storage_of_bits};

use std::num::{f32_from_bits_with_nan, f32_to_bits_with_nan};

/// The bits of infinity.
const INFINITY: u32 = 0x7f80_0000;

/// The storage of infinity.
const GREATEST: i32 = 0x7f80_0000;

/// The bit of the sign.
const SIGN: u32 = 0x8000_0000;

/// The storage of the float that has these bits. All NaNs have one storage, whatever else they hold.
#[inline]
pub fn storage_of_f32_bits(bits: u32) -> i32
    ensures value { result ≡ storage_of_bits binary32 bits }
    ensures within { IsStorage binary32 result }
{
    let size = bits % SIGN;
    if size > INFINITY {
        GREATEST + 1
    } else if bits >= SIGN {
        -(size as i32)
    } else {
        size as i32
    }
}

/// The storage of a float. Both zeros have the storage 0.
#[inline]
pub fn storage_of_f32(number: f32) -> i32
    ensures value { result ≡ storage_of binary32 number }
    ensures within { IsStorage binary32 result }
{
    storage_of_f32_bits(f32_to_bits_with_nan(number))
}

/// Whether this integer is the storage of a float: it lies between those of the two infinities, or is
/// that of NaN, one above.
#[inline]
pub fn is_f32_storage(storage: i32) -> bool
    ensures { IsTrue result ↔ IsStorage binary32 storage }
{
    -GREATEST <= storage && storage <= GREATEST + 1
}

/// The bits of the float that has this storage: of 0 those of the zero without a sign.
#[inline]
pub fn f32_bits_of_storage(storage: i32) -> u32
    requires { IsStorage binary32 storage }
    ensures { result ≡ bits_of_storage binary32 storage }
{
    if storage < 0 {
        SIGN + storage.unsigned_abs()
    } else {
        storage as u32
    }
}

/// The float that has this storage: of 0 the zero without a sign.
#[inline]
pub fn f32_of_storage(storage: i32) -> f32
    requires { IsStorage binary32 storage }
    ensures { result ≡ float_of_storage binary32 storage }
{
    f32_from_bits_with_nan(f32_bits_of_storage(storage))
}
