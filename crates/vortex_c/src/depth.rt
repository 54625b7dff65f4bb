//! How deep a filter may nest.

ghost use Rattle.std.specs.Prelude.{◌≡◌};
ghost use Rattle.vortex_c.specs.FilterWords.{encoding_depth};

/// How many connectives nest at most in the encoding of a filter whose words nest so deep. A test
/// nests none in the words and up to 4 in the encoding, as `not between` with numbers that the
/// column's type lacks. The left one of two operands nests in the encoding, and not in the words.
pub(crate) fn encoding_depth(depth: usize) -> usize
    ensures { result ≡ encoding_depth depth }
{
    depth.saturating_mul(2).saturating_add(5)
}
