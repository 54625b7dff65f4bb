//! Equality, order, hash and text of views of strings.

ghost use Rattle.std.specs.Prelude.{Some};
ghost use Rattle.std.specs.Ordering.{on};
ghost use Rattle.vortex_leaves.specs.Words.{bytes_cmp, partial_equiv_from_equiv, ref_alike, ref_equal, ref_equiv};
ghost use Rattle.vortex_leaves.specs.Words.{ref_feed, ref_order, ref_text};
ghost use Rattle.vortex_leaves.specs.ViewWords.{text_order, text_ref};

use super::Utf8Scalar;
use std::cmp::Ordering;
use std::fmt::{self, Display, Formatter, Write};
use std::hash::{Hash, Hasher};

impl PartialEq for Utf8Scalar<'_> {
    ghost eq = { λ a b. ref_equal (text_ref a) (text_ref b) };

    ghost laws = { partial_equiv_from_equiv (ref_equiv text_ref) };

    fn eq(&self, other: &Utf8Scalar<'_>) -> bool {
        self.scalar == other.scalar
    }
}

impl Eq for Utf8Scalar<'_> {
    ghost laws = { ref_equiv text_ref };
}

impl PartialOrd for Utf8Scalar<'_> {
    ghost partial_cmp = { λ a b. ref_order (text_ref a) (text_ref b) };

    ghost laws = { text_order.partial };

    fn partial_cmp(&self, other: &Utf8Scalar<'_>) -> Option<Ordering> {
        Some(self.cmp(other))
    }
}

/// A null is below the others. Strings go by their bytes, a proper beginning below.
impl Ord for Utf8Scalar<'_> {
    ghost cmp = { on text_ref bytes_cmp };

    ghost total = { text_order.total };

    ghost matches_partial_cmp = { text_order.agrees };

    ghost matches_eq = { text_order.ties };

    fn cmp(&self, other: &Utf8Scalar<'_>) -> Ordering {
        self.value().cmp(&other.value())
    }
}

impl Hash for Utf8Scalar<'_> {
    ghost hash_input = { λ x. ref_feed (text_ref x) };

    ghost respects_eq = { (ref_alike text_ref).fed };

    fn hash<H: Hasher>(&self, state: &mut H) {
        self.scalar.hash(state);
    }
}

/// Writes `null`, or the whole string in quotes, with escapes.
impl Display for Utf8Scalar<'_> {
    ghost output = { λ x. Some (ref_text (text_ref x)) };

    fn fmt<W: Write>(&self, f: &mut Formatter<W>) -> fmt::Result {
        self.scalar.fmt(f)
    }
}
