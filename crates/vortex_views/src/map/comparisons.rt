//! Equality, hash and text of views of maps.

ghost use Rattle.std.specs.Prelude.{Some};
ghost use Rattle.vortex_views.specs.Words.{partial_equiv_from_equiv, ref_alike, ref_equal, ref_equiv, ref_feed};
ghost use Rattle.vortex_views.specs.Words.{ref_text};
ghost use Rattle.vortex_views.specs.ViewWords.{map_ref};

use super::MapScalar;
use std::fmt::{self, Display, Formatter, Write};
use std::hash::{Hash, Hasher};

/// Maps are equal if their types are the same up to nullability and they have equal entries in the
/// same order. Repeated keys count.
impl PartialEq for MapScalar<'_> {
    ghost eq = { λ a b. ref_equal (map_ref a) (map_ref b) };

    ghost laws = { partial_equiv_from_equiv (ref_equiv map_ref) };

    fn eq(&self, other: &MapScalar<'_>) -> bool {
        self.scalar == other.scalar
    }
}

impl Eq for MapScalar<'_> {
    ghost laws = { ref_equiv map_ref };
}

impl Hash for MapScalar<'_> {
    ghost hash_input = { λ x. ref_feed (map_ref x) };

    ghost respects_eq = { (ref_alike map_ref).fed };

    fn hash<H: Hasher>(&self, state: &mut H) {
        self.scalar.hash(state);
    }
}

/// Writes what the scalar's own `Display` writes.
///
/// Ports the `Display` of `MapScalar`.
impl Display for MapScalar<'_> {
    ghost output = { λ x. Some (ref_text (map_ref x)) };

    fn fmt<W: Write>(&self, f: &mut Formatter<W>) -> fmt::Result {
        self.scalar.fmt(f)
    }
}
