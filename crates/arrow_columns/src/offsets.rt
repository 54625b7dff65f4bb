//! Offsets as they lie in a buffer.

ghost use Rattle.std.specs.Prelude.{◌≡◌};
ghost use Rattle.arrow_columns.specs.Words.{largest_offset, offset_of};
ghost use Rattle.arrow_columns.specs.declared.offset_width.OffsetWidth.{OffsetWidth};
ghost use Rattle.arrow_columns.specs.declared.offset_width.OffsetWidth.TheVariants.{Bits32, Bits64};

/// An offset of N bytes.
pub trait Offset<const N: usize> {
    ghost width: { OffsetWidth };

    /// The offset of these bytes, the low one first. A negative one is read as above the largest.
    fn of_bytes(bytes: [u8; N]) -> usize
        ensures { result ≡ offset_of width bytes.entry };

    /// The largest offset.
    fn largest() -> usize
        ensures { result ≡ largest_offset width };
}

impl Offset<4> for u32 {
    ghost width = { Bits32 };

    fn of_bytes(bytes: [u8; 4]) -> usize
        ensures { result ≡ offset_of Bits32 bytes }
    {
        u32::from_le_bytes(bytes) as usize
    }

    fn largest() -> usize {
        0x7fff_ffff
    }
}

impl Offset<8> for u64 {
    ghost width = { Bits64 };

    fn of_bytes(bytes: [u8; 8]) -> usize
        ensures { result ≡ offset_of Bits64 bytes }
    {
        u64::from_le_bytes(bytes) as usize
    }

    fn largest() -> usize {
        0x7fff_ffff_ffff_ffff
    }
}
