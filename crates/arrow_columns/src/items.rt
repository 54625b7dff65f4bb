//! Items of a buffer as the numbers that they stand for.

ghost use Rattle.std.specs.Prelude.{◌≡◌, ℕ, ℤ, List, pos};
ghost use Rattle.std.specs.Float.{binary32, binary64};
ghost use Rattle.std.specs.Int.{int_max, int_min};
ghost use Rattle.std.specs.Ordering.{int_cmp};
ghost use Rattle.arrow_columns.specs.Words.{integer_of, number_of, storage_of_rank};
ghost use Rattle.arrow_columns.specs.declared.kinds.IntegerKind.TheVariants.{I16, I32, I64, I8, U16, U32, U64, U8};
ghost use Rattle.arrow_columns.specs.declared.kinds.ItemKind.{ItemKind};
ghost use Rattle.arrow_columns.specs.declared.kinds.ItemKind.TheVariants as items;

use crate::ranks::{rank_of_f32_bits, rank_of_f64_bits, storage_of_f32_rank, storage_of_f64_rank};
use float_storage::{storage_of_f32_bits, storage_of_f64_bits};
use std::cmp::Ordering;

/// The number of an item of N bytes.
pub trait Item<const N: usize>: Copy + Drop {
    ghost kind: { ItemKind };

    ghost number: { Self → ℤ };

    /// The number of an item with these bytes.
    fn of_bytes(bytes: [u8; N]) -> Self
        ensures { number result ≡ number_of kind bytes.entry };

    /// The lesser one.
    fn lesser(self, other: Self) -> Self
        ensures { number result ≡ int_min (number self) (number other) };

    /// The greater one.
    fn greater(self, other: Self) -> Self
        ensures { number result ≡ int_max (number self) (number other) };

    /// How it stands to another one.
    fn compare(self, other: Self) -> Ordering
        ensures { result ≡ int_cmp (number self) (number other) };

    /// The number.
    fn whole(self) -> i128
        ensures { result ≡ number self };
}

impl Item<1> for u8 {
    ghost kind = { items.Integer U8 };

    ghost number = { pos };

    #[inline(always)]
    fn of_bytes(bytes: [u8; 1]) -> u8
        ensures { pos result ≡ integer_of U8 bytes }
    {
        u8::from_le_bytes(bytes)
    }

    fn lesser(self, other: u8) -> u8 {
        self.min(other)
    }

    fn greater(self, other: u8) -> u8 {
        self.max(other)
    }

    #[inline(always)]
    fn compare(self, other: u8) -> Ordering {
        self.cmp(&other)
    }

    fn whole(self) -> i128 {
        self as i128
    }
}

impl Item<2> for u16 {
    ghost kind = { items.Integer U16 };

    ghost number = { pos };

    #[inline(always)]
    fn of_bytes(bytes: [u8; 2]) -> u16
        ensures { pos result ≡ integer_of U16 bytes }
    {
        u16::from_le_bytes(bytes)
    }

    fn lesser(self, other: u16) -> u16 {
        self.min(other)
    }

    fn greater(self, other: u16) -> u16 {
        self.max(other)
    }

    #[inline(always)]
    fn compare(self, other: u16) -> Ordering {
        self.cmp(&other)
    }

    fn whole(self) -> i128 {
        self as i128
    }
}

impl Item<4> for u32 {
    ghost kind = { items.Integer U32 };

    ghost number = { pos };

    #[inline(always)]
    fn of_bytes(bytes: [u8; 4]) -> u32
        ensures { pos result ≡ integer_of U32 bytes }
    {
        u32::from_le_bytes(bytes)
    }

    fn lesser(self, other: u32) -> u32 {
        self.min(other)
    }

    fn greater(self, other: u32) -> u32 {
        self.max(other)
    }

    #[inline(always)]
    fn compare(self, other: u32) -> Ordering {
        self.cmp(&other)
    }

    fn whole(self) -> i128 {
        self as i128
    }
}

impl Item<8> for u64 {
    ghost kind = { items.Integer U64 };

    ghost number = { pos };

    #[inline(always)]
    fn of_bytes(bytes: [u8; 8]) -> u64
        ensures { pos result ≡ integer_of U64 bytes }
    {
        u64::from_le_bytes(bytes)
    }

    fn lesser(self, other: u64) -> u64 {
        self.min(other)
    }

    fn greater(self, other: u64) -> u64 {
        self.max(other)
    }

    #[inline(always)]
    fn compare(self, other: u64) -> Ordering {
        self.cmp(&other)
    }

    fn whole(self) -> i128 {
        self as i128
    }
}

impl Item<1> for i8 {
    ghost kind = { items.Integer I8 };

    ghost number = { λ x. x };

    #[inline(always)]
    fn of_bytes(bytes: [u8; 1]) -> i8
        ensures { result ≡ integer_of I8 bytes }
    {
        i8::from_le_bytes(bytes)
    }

    fn lesser(self, other: i8) -> i8 {
        self.min(other)
    }

    fn greater(self, other: i8) -> i8 {
        self.max(other)
    }

    #[inline(always)]
    fn compare(self, other: i8) -> Ordering {
        self.cmp(&other)
    }

    fn whole(self) -> i128 {
        self as i128
    }
}

impl Item<2> for i16 {
    ghost kind = { items.Integer I16 };

    ghost number = { λ x. x };

    #[inline(always)]
    fn of_bytes(bytes: [u8; 2]) -> i16
        ensures { result ≡ integer_of I16 bytes }
    {
        i16::from_le_bytes(bytes)
    }

    fn lesser(self, other: i16) -> i16 {
        self.min(other)
    }

    fn greater(self, other: i16) -> i16 {
        self.max(other)
    }

    #[inline(always)]
    fn compare(self, other: i16) -> Ordering {
        self.cmp(&other)
    }

    fn whole(self) -> i128 {
        self as i128
    }
}

impl Item<4> for i32 {
    ghost kind = { items.Integer I32 };

    ghost number = { λ x. x };

    #[inline(always)]
    fn of_bytes(bytes: [u8; 4]) -> i32
        ensures { result ≡ integer_of I32 bytes }
    {
        i32::from_le_bytes(bytes)
    }

    fn lesser(self, other: i32) -> i32 {
        self.min(other)
    }

    fn greater(self, other: i32) -> i32 {
        self.max(other)
    }

    #[inline(always)]
    fn compare(self, other: i32) -> Ordering {
        self.cmp(&other)
    }

    fn whole(self) -> i128 {
        self as i128
    }
}

impl Item<8> for i64 {
    ghost kind = { items.Integer I64 };

    ghost number = { λ x. x };

    #[inline(always)]
    fn of_bytes(bytes: [u8; 8]) -> i64
        ensures { result ≡ integer_of I64 bytes }
    {
        i64::from_le_bytes(bytes)
    }

    fn lesser(self, other: i64) -> i64 {
        self.min(other)
    }

    fn greater(self, other: i64) -> i64 {
        self.max(other)
    }

    #[inline(always)]
    fn compare(self, other: i64) -> Ordering {
        self.cmp(&other)
    }

    fn whole(self) -> i128 {
        self as i128
    }
}

impl Item<16> for i128 {
    ghost kind = { items.I128 };

    ghost number = { λ x. x };

    #[inline(always)]
    fn of_bytes(bytes: [u8; 16]) -> i128
        ensures { result ≡ number_of items.I128 bytes }
    {
        i128::from_le_bytes(bytes)
    }

    fn lesser(self, other: i128) -> i128 {
        self.min(other)
    }

    fn greater(self, other: i128) -> i128 {
        self.max(other)
    }

    #[inline(always)]
    fn compare(self, other: i128) -> Ordering {
        self.cmp(&other)
    }

    fn whole(self) -> i128 {
        self
    }
}

/// The storage of a float of 32 bits.
#[derive(Clone, Copy, Drop)]
pub struct Storage32 {
    pub storage: i32,
}

impl Item<4> for Storage32 {
    ghost kind = { items.F32 };

    ghost number = { λ x. x.storage };

    #[inline(always)]
    fn of_bytes(bytes: [u8; 4]) -> Storage32
        ensures { result.storage ≡ number_of items.F32 bytes }
    {
        let storage = storage_of_f32_bits(u32::from_le_bytes(bytes));
        Storage32 { storage }
    }

    #[inline(always)]
    fn lesser(self, other: Storage32) -> Storage32 {
        let storage = self.storage.min(other.storage);
        Storage32 { storage }
    }

    #[inline(always)]
    fn greater(self, other: Storage32) -> Storage32 {
        let storage = self.storage.max(other.storage);
        Storage32 { storage }
    }

    #[inline(always)]
    fn compare(self, other: Storage32) -> Ordering {
        self.storage.cmp(&other.storage)
    }

    fn whole(self) -> i128 {
        self.storage as i128
    }
}

/// The storage of a float of 64 bits.
#[derive(Clone, Copy, Drop)]
pub struct Storage64 {
    pub storage: i64,
}

impl Item<8> for Storage64 {
    ghost kind = { items.F64 };

    ghost number = { λ x. x.storage };

    #[inline(always)]
    fn of_bytes(bytes: [u8; 8]) -> Storage64
        ensures { result.storage ≡ number_of items.F64 bytes }
    {
        let storage = storage_of_f64_bits(u64::from_le_bytes(bytes));
        Storage64 { storage }
    }

    #[inline(always)]
    fn lesser(self, other: Storage64) -> Storage64 {
        let storage = self.storage.min(other.storage);
        Storage64 { storage }
    }

    #[inline(always)]
    fn greater(self, other: Storage64) -> Storage64 {
        let storage = self.storage.max(other.storage);
        Storage64 { storage }
    }

    #[inline(always)]
    fn compare(self, other: Storage64) -> Ordering {
        self.storage.cmp(&other.storage)
    }

    fn whole(self) -> i128 {
        self.storage as i128
    }
}

/// A float of 32 bits by its rank, which is quicker to make than its storage.
#[derive(Clone, Copy, Drop)]
pub struct Rank32 {
    rank: i32,
}

impl Item<4> for Rank32 {
    ghost kind = { items.F32 };

    ghost number = { λ x. storage_of_rank binary32 x.rank };

    #[inline(always)]
    fn of_bytes(bytes: [u8; 4]) -> Rank32
        ensures { storage_of_rank binary32 result.rank ≡ number_of items.F32 bytes }
    {
        let rank = rank_of_f32_bits(u32::from_le_bytes(bytes));
        Rank32 { rank }
    }

    #[inline(always)]
    fn lesser(self, other: Rank32) -> Rank32 {
        let rank = self.rank.min(other.rank);
        Rank32 { rank }
    }

    #[inline(always)]
    fn greater(self, other: Rank32) -> Rank32 {
        let rank = self.rank.max(other.rank);
        Rank32 { rank }
    }

    #[inline(always)]
    fn compare(self, other: Rank32) -> Ordering {
        storage_of_f32_rank(self.rank).cmp(&storage_of_f32_rank(other.rank))
    }

    fn whole(self) -> i128 {
        storage_of_f32_rank(self.rank) as i128
    }
}

/// A float of 64 bits by its rank, which is quicker to make than its storage.
#[derive(Clone, Copy, Drop)]
pub struct Rank64 {
    rank: i64,
}

impl Item<8> for Rank64 {
    ghost kind = { items.F64 };

    ghost number = { λ x. storage_of_rank binary64 x.rank };

    #[inline(always)]
    fn of_bytes(bytes: [u8; 8]) -> Rank64
        ensures { storage_of_rank binary64 result.rank ≡ number_of items.F64 bytes }
    {
        let rank = rank_of_f64_bits(u64::from_le_bytes(bytes));
        Rank64 { rank }
    }

    #[inline(always)]
    fn lesser(self, other: Rank64) -> Rank64 {
        let rank = self.rank.min(other.rank);
        Rank64 { rank }
    }

    #[inline(always)]
    fn greater(self, other: Rank64) -> Rank64 {
        let rank = self.rank.max(other.rank);
        Rank64 { rank }
    }

    #[inline(always)]
    fn compare(self, other: Rank64) -> Ordering {
        storage_of_f64_rank(self.rank).cmp(&storage_of_f64_rank(other.rank))
    }

    fn whole(self) -> i128 {
        storage_of_f64_rank(self.rank) as i128
    }
}
