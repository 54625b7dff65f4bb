//! Floats of 64 bits that are compared with a number, by their bits.

ghost use Rattle.std.specs.Prelude.{◌≡◌, ◌-ℤ◌, ◌≤ℤ◌, IfSome, if◌then◌else◌, int_lt, negsuc, pos};
ghost use Rattle.std.specs.Float.{binary64};
ghost use Rattle.std.specs.Int.{int_max};
ghost use Rattle.arrow_columns.specs.declared.kinds.ItemKind.TheVariants.{F64};
ghost use Rattle.column_kernels.specs.Words.{holds, int_cmp, number_of};
ghost use Rattle.float_storage.specs.Storage.{infinity, storage_of_bits};

use crate::items::Comparand;
use vortex_filter::CompareOperator;

/// The storage of infinity.
const INFINITY: i64 = 0x7ff0_0000_0000_0000;

/// How many f64 are NaNs with a sign.
const SIGNED_NANS: i64 = 0x000f_ffff_ffff_ffff;

/// A storage that those of floats are above or not. Read as those of an integer, the bits of floats without a
/// sign go up from 0. Less one more than infinity's, those of NaNs with a sign go up from the least integer, and
/// those of numbers with a sign up to the greatest one, as the numbers go down.
#[derive(Clone, Copy)]
struct Threshold {
    storage: i64,
    /// The greatest bits of a float without a sign that is not above it, or -1.
    positive: i64,
    /// How many bits there are below those of the first number with a sign that is not above it.
    negative: i64,
    ghost is_no_nan: { storage ≤ℤ pos (infinity binary64) },
    ghost is_positive: { positive ≡ int_max storage (negsuc 0) },
    ghost is_negative: { negative ≡ (if int_lt storage (pos 0) then pos 4503599627370495 -ℤ storage
        else negsuc (infinity binary64)) },
}

impl Threshold {
    /// A storage, if it is that of a number above -infinity, or of infinity.
    fn of(storage: i64) -> Option<Threshold>
        ensures { IfSome result (λ threshold. threshold.storage ≡ storage) }
    {
        if storage > INFINITY || storage < -INFINITY {
            return None;
        }
        let negative = if storage < 0 {
            SIGNED_NANS - storage
        } else {
            -INFINITY - 1
        };
        Some(Threshold {
            storage,
            positive: storage.max(-1),
            negative,
        })
    }

    /// Whether it is below the storage of the float with these bits. That of a NaN is above those of numbers.
    #[inline(always)]
    fn is_below(self, bits: u64) -> bool
        ensures { result ≡ int_lt self.storage (storage_of_bits binary64 bits) }
    {
        let signed = bits.cast_signed();
        (signed > self.positive) | (signed.wrapping_sub(INFINITY + 1) < self.negative)
    }
}

/// A number with which floats are compared, by its storage and the one before.
#[derive(Clone, Copy, Drop)]
pub(crate) struct Number64 {
    before: Threshold,
    own: Threshold,
    ghost follows: { before.storage ≡ own.storage -ℤ pos 1 },
}

impl Number64 {
    /// The number with this storage, if there is one, but for -infinity.
    pub(crate) fn of(storage: i128) -> Option<Number64>
        ensures { IfSome result (λ number. number.own.storage ≡ storage) }
    {
        match i64::try_from(storage) {
            Ok(storage) => Number64::of_storage(storage),
            Err(_) => None,
        }
    }

    /// The same of a storage that is in range.
    fn of_storage(storage: i64) -> Option<Number64>
        ensures { IfSome result (λ number. number.own.storage ≡ storage) }
    {
        let before = Threshold::of(storage.checked_sub(1)?)?;
        let own = Threshold::of(storage)?;
        Some(Number64 { before, own })
    }
}

impl Comparand<8> for Number64 {
    ghost kind = { F64 };

    ghost number = { λ number. number.own.storage };

    #[inline(always)]
    fn holds(self, operator: CompareOperator, bytes: [u8; 8]) -> bool
        ensures { result ≡ holds operator (int_cmp (number_of F64 bytes) self.own.storage) }
    {
        let bits = u64::from_le_bytes(bytes);
        let is_from = self.before.is_below(bits);
        let is_above = self.own.is_below(bits);
        match operator {
            CompareOperator::Eq => is_from & !is_above,
            CompareOperator::NotEq => !is_from | is_above,
            CompareOperator::Gt => is_above,
            CompareOperator::Gte => is_from,
            CompareOperator::Lt => !is_from,
            CompareOperator::Lte => !is_above,
        }
    }
}
