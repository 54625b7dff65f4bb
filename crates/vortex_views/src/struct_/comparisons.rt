//! Equality, hash and text of views of structs.

ghost use Rattle.std.specs.Prelude.{Some};
ghost use Rattle.vortex_views.specs.Words.{partial_equiv_from_equiv, ref_alike, ref_equal, ref_equiv, ref_feed};
ghost use Rattle.vortex_views.specs.Words.{ref_text};
ghost use Rattle.vortex_views.specs.ViewWords.{struct_ref};

use super::StructScalar;
use std::fmt::{self, Display, Formatter, Write};
use std::hash::{Hash, Hasher};

impl PartialEq for StructScalar<'_> {
    ghost eq = { λ a b. ref_equal (struct_ref a) (struct_ref b) };

    ghost laws = { partial_equiv_from_equiv (ref_equiv struct_ref) };

    fn eq(&self, other: &StructScalar<'_>) -> bool {
        self.scalar == other.scalar
    }
}

impl Eq for StructScalar<'_> {
    ghost laws = { ref_equiv struct_ref };
}

impl Hash for StructScalar<'_> {
    ghost hash_input = { λ x. ref_feed (struct_ref x) };

    ghost respects_eq = { (ref_alike struct_ref).fed };

    fn hash<H: Hasher>(&self, state: &mut H) {
        self.scalar.hash(state);
    }
}

/// Writes what the scalar's own `Display` writes.
///
/// Ports the `Display` of `StructScalar`.
impl Display for StructScalar<'_> {
    ghost output = { λ x. Some (ref_text (struct_ref x)) };

    fn fmt<W: Write>(&self, f: &mut Formatter<W>) -> fmt::Result {
        self.scalar.fmt(f)
    }
}
