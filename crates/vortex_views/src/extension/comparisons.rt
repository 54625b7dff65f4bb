//! Equality, hash and text of views of extensions.

ghost use Rattle.std.specs.Prelude.{Some};
ghost use Rattle.vortex_views.specs.Words.{partial_equiv_from_equiv, ref_alike, ref_equal, ref_equiv, ref_feed};
ghost use Rattle.vortex_views.specs.Words.{ref_text};
ghost use Rattle.vortex_views.specs.ViewWords.{ext_ref};

use super::ExtScalar;
use std::fmt::{self, Display, Formatter, Write};
use std::hash::{Hash, Hasher};

impl PartialEq for ExtScalar<'_> {
    ghost eq = { λ a b. ref_equal (ext_ref a) (ext_ref b) };

    ghost laws = { partial_equiv_from_equiv (ref_equiv ext_ref) };

    fn eq(&self, other: &ExtScalar<'_>) -> bool {
        self.scalar == other.scalar
    }
}

impl Eq for ExtScalar<'_> {
    ghost laws = { ref_equiv ext_ref };
}

impl Hash for ExtScalar<'_> {
    ghost hash_input = { λ x. ref_feed (ext_ref x) };

    ghost respects_eq = { (ref_alike ext_ref).fed };

    fn hash<H: Hasher>(&self, state: &mut H) {
        self.scalar.hash(state);
    }
}

/// Writes what the scalar's own `Display` writes: the text of the storage.
///
/// Ports the `Display` of `ExtScalar`.
impl Display for ExtScalar<'_> {
    ghost output = { λ x. Some (ref_text (ext_ref x)) };

    fn fmt<W: Write>(&self, f: &mut Formatter<W>) -> fmt::Result {
        self.scalar.fmt(f)
    }
}
