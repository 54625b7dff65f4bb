// SPDX-License-Identifier: Apache-2.0
//! Of f64, in i64.

ghost use Rattle.std.specs.Prelude.{◌≡◌, ◌↔◌, IsTrue};
ghost use Rattle.std.specs.Float.{binary64};
ghost use Rattle.float_storage.specs.Storage.{IsStorage, bits_of_storage, float_of_storage, storage_of};
ghost use Rattle.float_storage.specs.Storage.{storage_of_bits};

use std::num::{f64_from_bits_with_nan, f64_to_bits_with_nan};

/// The bits of infinity.
const INFINITY: u64 = 0x7ff0_0000_0000_0000;

/// The storage of infinity.
const GREATEST: i64 = 0x7ff0_0000_0000_0000;

/// The bit of the sign.
const SIGN: u64 = 0x8000_0000_0000_0000;

/// The storage of the float that has these bits. All NaNs have one storage, whatever else they hold.
#[inline]
pub fn storage_of_f64_bits(bits: u64) -> i64
    ensures value { result ≡ storage_of_bits binary64 bits }
    ensures within { IsStorage binary64 result }
{
    let size = bits % SIGN;
    if size > INFINITY {
        GREATEST + 1
    } else if bits >= SIGN {
        -(size as i64)
    } else {
        size as i64
    }
}

/// The storage of a float. Both zeros have the storage 0.
#[inline]
pub fn storage_of_f64(number: f64) -> i64
    ensures value { result ≡ storage_of binary64 number }
    ensures within { IsStorage binary64 result }
{
    storage_of_f64_bits(f64_to_bits_with_nan(number))
}

/// Whether this integer is the storage of a float: it lies between those of the two infinities, or is
/// that of NaN, one above.
#[inline]
pub fn is_f64_storage(storage: i64) -> bool
    ensures { IsTrue result ↔ IsStorage binary64 storage }
{
    -GREATEST <= storage && storage <= GREATEST + 1
}

/// The bits of the float that has this storage: of 0 those of the zero without a sign.
#[inline]
pub fn f64_bits_of_storage(storage: i64) -> u64
    requires { IsStorage binary64 storage }
    ensures { result ≡ bits_of_storage binary64 storage }
{
    if storage < 0 {
        SIGN + storage.unsigned_abs()
    } else {
        storage as u64
    }
}

/// The float that has this storage: of 0 the zero without a sign.
#[inline]
pub fn f64_of_storage(storage: i64) -> f64
    requires { IsStorage binary64 storage }
    ensures { result ≡ float_of_storage binary64 storage }
{
    f64_from_bits_with_nan(f64_bits_of_storage(storage))
}
