//! Integers as they are written into a buffer.

ghost use Rattle.std.specs.Prelude.{◌≡◌, ℕ, ℤ, List, MatchBool, pos};
ghost use Rattle.arrow_columns.specs.Words.{IsOfKind, integer_of};
ghost use Rattle.arrow_columns.specs.declared.kinds.IntegerKind.{IntegerKind};
ghost use Rattle.arrow_columns.specs.declared.kinds.IntegerKind.TheVariants.{I16, I32, I64, I8, U16, U32, U64, U8};

/// An integer of N bytes.
pub trait Integer<const N: usize>: Copy + Drop {
    ghost kind: { IntegerKind };

    ghost number: { Self → ℤ };

    /// Whether the kind has this number. Where it is inlined early, an integer of 64 bits is
    /// compared in 64 bits, not in 128.
    fn fits(whole: i128) -> bool
        ensures { MatchBool result (IsOfKind kind whole) (¬ (IsOfKind kind whole)) };

    /// The integer of this number.
    fn of_whole(whole: i128) -> Self
        requires { IsOfKind kind whole }
        ensures { number result ≡ whole };

    /// The integer 0.
    fn zero() -> Self
        ensures { number result ≡ pos 0 };

    /// The bytes, the low one first.
    fn to_bytes(self) -> [u8; N]
        ensures { integer_of kind result ≡ number self };
}

impl Integer<1> for u8 {
    ghost kind = { U8 };

    ghost number = { pos };

    #[inline(always)]
    fn fits(whole: i128) -> bool {
        u8::MIN as i128 <= whole && whole <= u8::MAX as i128
    }

    fn of_whole(whole: i128) -> u8 {
        whole as u8
    }

    fn zero() -> u8 {
        0
    }

    fn to_bytes(self) -> [u8; 1] {
        self.to_le_bytes()
    }
}

impl Integer<2> for u16 {
    ghost kind = { U16 };

    ghost number = { pos };

    #[inline(always)]
    fn fits(whole: i128) -> bool {
        u16::MIN as i128 <= whole && whole <= u16::MAX as i128
    }

    fn of_whole(whole: i128) -> u16 {
        whole as u16
    }

    fn zero() -> u16 {
        0
    }

    fn to_bytes(self) -> [u8; 2] {
        self.to_le_bytes()
    }
}

impl Integer<4> for u32 {
    ghost kind = { U32 };

    ghost number = { pos };

    #[inline(always)]
    fn fits(whole: i128) -> bool {
        u32::MIN as i128 <= whole && whole <= u32::MAX as i128
    }

    fn of_whole(whole: i128) -> u32 {
        whole as u32
    }

    fn zero() -> u32 {
        0
    }

    fn to_bytes(self) -> [u8; 4] {
        self.to_le_bytes()
    }
}

impl Integer<8> for u64 {
    ghost kind = { U64 };

    ghost number = { pos };

    #[inline(always)]
    fn fits(whole: i128) -> bool {
        u64::MIN as i128 <= whole && whole <= u64::MAX as i128
    }

    fn of_whole(whole: i128) -> u64 {
        whole as u64
    }

    fn zero() -> u64 {
        0
    }

    fn to_bytes(self) -> [u8; 8] {
        self.to_le_bytes()
    }
}

impl Integer<1> for i8 {
    ghost kind = { I8 };

    ghost number = { λ x. x };

    #[inline(always)]
    fn fits(whole: i128) -> bool {
        i8::MIN as i128 <= whole && whole <= i8::MAX as i128
    }

    fn of_whole(whole: i128) -> i8 {
        whole as i8
    }

    fn zero() -> i8 {
        0
    }

    fn to_bytes(self) -> [u8; 1] {
        self.to_le_bytes()
    }
}

impl Integer<2> for i16 {
    ghost kind = { I16 };

    ghost number = { λ x. x };

    #[inline(always)]
    fn fits(whole: i128) -> bool {
        i16::MIN as i128 <= whole && whole <= i16::MAX as i128
    }

    fn of_whole(whole: i128) -> i16 {
        whole as i16
    }

    fn zero() -> i16 {
        0
    }

    fn to_bytes(self) -> [u8; 2] {
        self.to_le_bytes()
    }
}

impl Integer<4> for i32 {
    ghost kind = { I32 };

    ghost number = { λ x. x };

    #[inline(always)]
    fn fits(whole: i128) -> bool {
        i32::MIN as i128 <= whole && whole <= i32::MAX as i128
    }

    fn of_whole(whole: i128) -> i32 {
        whole as i32
    }

    fn zero() -> i32 {
        0
    }

    fn to_bytes(self) -> [u8; 4] {
        self.to_le_bytes()
    }
}

impl Integer<8> for i64 {
    ghost kind = { I64 };

    ghost number = { λ x. x };

    #[inline(always)]
    fn fits(whole: i128) -> bool {
        i64::MIN as i128 <= whole && whole <= i64::MAX as i128
    }

    fn of_whole(whole: i128) -> i64 {
        whole as i64
    }

    fn zero() -> i64 {
        0
    }

    fn to_bytes(self) -> [u8; 8] {
        self.to_le_bytes()
    }
}
