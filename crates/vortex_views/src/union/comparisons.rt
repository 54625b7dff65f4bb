//! Equality and text of views of unions.

ghost use Rattle.std.specs.Prelude.{Some};
ghost use Rattle.vortex_views.specs.Words.{partial_equiv_from_equiv, ref_equal, ref_equiv, ref_text};
ghost use Rattle.vortex_views.specs.ViewWords.{union_ref};

use super::UnionScalar;
use std::fmt::{self, Display, Formatter, Write};

impl PartialEq for UnionScalar<'_> {
    ghost eq = { λ a b. ref_equal (union_ref a) (union_ref b) };

    ghost laws = { partial_equiv_from_equiv (ref_equiv union_ref) };

    fn eq(&self, other: &UnionScalar<'_>) -> bool {
        self.scalar == other.scalar
    }
}

impl Eq for UnionScalar<'_> {
    ghost laws = { ref_equiv union_ref };
}

/// Writes `null`, or the name of the chosen variant and the child's text in parentheses, as
/// `int(42i32)`.
///
/// Ports the `Display` of `UnionScalar`.
impl Display for UnionScalar<'_> {
    ghost output = { λ x. Some (ref_text (union_ref x)) };

    fn fmt<W: Write>(&self, f: &mut Formatter<W>) -> fmt::Result {
        self.scalar.fmt(f)
    }
}
