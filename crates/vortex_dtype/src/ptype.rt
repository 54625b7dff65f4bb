//! The integer types.

ghost use Rattle.std.specs.Prelude.{◌≡◌};
ghost use Rattle.vortex_dtype.specs.Words.{byte_width_of, is_signed_ptype, ptype_text};

/// An integer type: signed or unsigned, of 1, 2, 4 or 8 bytes.
///
/// Ports the integer variants of `vortex_array::dtype::PType`.
#[derive(Clone, Copy, Debug, PartialEq, Eq, Hash)]
pub enum PType {
    /// Unsigned of 1 byte.
    U8,
    /// Unsigned of 2 bytes.
    U16,
    /// Unsigned of 4 bytes.
    U32,
    /// Unsigned of 8 bytes.
    U64,
    /// Signed of 1 byte.
    I8,
    /// Signed of 2 bytes.
    I16,
    /// Signed of 4 bytes.
    I32,
    /// Signed of 8 bytes.
    I64,
}

impl PType {
    /// How many bytes a number of the type takes.
    pub fn byte_width(&self) -> usize
        ensures { result ≡ byte_width_of self.now }
    {
        match self {
            PType::U8 | PType::I8 => 1,
            PType::U16 | PType::I16 => 2,
            PType::U32 | PType::I32 => 4,
            PType::U64 | PType::I64 => 8,
        }
    }

    /// Whether the type has negative numbers.
    ///
    /// Ports `PType::is_signed_int`.
    pub fn is_signed(&self) -> bool
        ensures { result ≡ is_signed_ptype self.now }
    {
        match self {
            PType::U8 | PType::U16 | PType::U32 | PType::U64 => false,
            PType::I8 | PType::I16 | PType::I32 | PType::I64 => true,
        }
    }

    /// The type's name, such as `u8`. Of this port alone: upstream prints it by `Display`.
    pub fn name(&self) -> &'static str
        ensures { result.now ≡ ptype_text self.now }
    {
        match self {
            PType::U8 => "u8",
            PType::U16 => "u16",
            PType::U32 => "u32",
            PType::U64 => "u64",
            PType::I8 => "i8",
            PType::I16 => "i16",
            PType::I32 => "i32",
            PType::I64 => "i64",
        }
    }
}
