// SPDX-License-Identifier: Apache-2.0
//! Ranks of floats: integers that go up with their storages, and are quicker to make of bits.

ghost use Rattle.std.specs.Prelude.{◌≡◌};
ghost use Rattle.std.specs.Float.{binary32, binary64};
ghost use Rattle.arrow_columns.specs.Ranks.{storage_of_rank};
ghost use Rattle.float_storage.specs.Storage.{storage_of_bits};

/// The bit of the sign of f32.
const SIGN_32: u32 = 0x8000_0000;

/// How many f32 are NaNs with a sign.
const SIGNED_NANS_32: i32 = 0x007f_ffff;

/// The storage of infinity in f32.
const INFINITY_32: i32 = 0x7f80_0000;

/// The rank of the f32 with these bits. Numbers with a sign go down as their bits go up. NaNs with a sign
/// come below them, and wrap around to the top.
#[inline(always)]
pub fn rank_of_f32_bits(bits: u32) -> i32
    ensures { storage_of_rank binary32 result ≡ storage_of_bits binary32 bits }
{
    let turned = if bits >= SIGN_32 {
        SIGN_32 + (u32::MAX - bits)
    } else {
        bits
    };
    turned.cast_signed().wrapping_sub(SIGNED_NANS_32)
}

/// The storage of the f32 that have this rank.
pub fn storage_of_f32_rank(rank: i32) -> i32
    ensures { result ≡ storage_of_rank binary32 rank }
{
    if rank > INFINITY_32 - SIGNED_NANS_32 {
        INFINITY_32 + 1
    } else if rank < -SIGNED_NANS_32 {
        rank + SIGNED_NANS_32 + 1
    } else {
        rank + SIGNED_NANS_32
    }
}

/// The bit of the sign of f64.
const SIGN_64: u64 = 0x8000_0000_0000_0000;

/// How many f64 are NaNs with a sign.
const SIGNED_NANS_64: i64 = 0x000f_ffff_ffff_ffff;

/// The storage of infinity in f64.
const INFINITY_64: i64 = 0x7ff0_0000_0000_0000;

/// The rank of the f64 with these bits. Numbers with a sign go down as their bits go up. NaNs with a sign
/// come below them, and wrap around to the top.
#[inline(always)]
pub fn rank_of_f64_bits(bits: u64) -> i64
    ensures { storage_of_rank binary64 result ≡ storage_of_bits binary64 bits }
{
    let turned = if bits >= SIGN_64 {
        SIGN_64 + (u64::MAX - bits)
    } else {
        bits
    };
    turned.cast_signed().wrapping_sub(SIGNED_NANS_64)
}

/// The storage of the f64 that have this rank.
pub fn storage_of_f64_rank(rank: i64) -> i64
    ensures { result ≡ storage_of_rank binary64 rank }
{
    if rank > INFINITY_64 - SIGNED_NANS_64 {
        INFINITY_64 + 1
    } else if rank < -SIGNED_NANS_64 {
        rank + SIGNED_NANS_64 + 1
    } else {
        rank + SIGNED_NANS_64
    }
}
