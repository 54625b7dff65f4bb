//! Equality, hash and text of views of lists.

ghost use Rattle.std.specs.Prelude.{Some};
ghost use Rattle.vortex_views.specs.Words.{partial_equiv_from_equiv, ref_alike, ref_equal, ref_equiv, ref_feed};
ghost use Rattle.vortex_views.specs.Words.{ref_text};
ghost use Rattle.vortex_views.specs.ViewWords.{list_ref};

use super::ListScalar;
use std::fmt::{self, Display, Formatter, Write};
use std::hash::{Hash, Hasher};

impl PartialEq for ListScalar<'_> {
    ghost eq = { λ a b. ref_equal (list_ref a) (list_ref b) };

    ghost laws = { partial_equiv_from_equiv (ref_equiv list_ref) };

    fn eq(&self, other: &ListScalar<'_>) -> bool {
        self.scalar == other.scalar
    }
}

impl Eq for ListScalar<'_> {
    ghost laws = { ref_equiv list_ref };
}

impl Hash for ListScalar<'_> {
    ghost hash_input = { λ x. ref_feed (list_ref x) };

    ghost respects_eq = { (ref_alike list_ref).fed };

    fn hash<H: Hasher>(&self, state: &mut H) {
        self.scalar.hash(state);
    }
}

/// Writes what the scalar's own `Display` writes.
///
/// Ports the `Display` of `ListScalar`.
impl Display for ListScalar<'_> {
    ghost output = { λ x. Some (ref_text (list_ref x)) };

    fn fmt<W: Write>(&self, f: &mut Formatter<W>) -> fmt::Result {
        self.scalar.fmt(f)
    }
}
