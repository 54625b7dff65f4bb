//! Equality, order, hash and text of views of bytes.

ghost use Rattle.std.specs.Prelude.{Some};
ghost use Rattle.std.specs.Ordering.{on};
ghost use Rattle.vortex_leaves.specs.Words.{bytes_cmp, partial_equiv_from_equiv, ref_alike, ref_equal, ref_equiv};
ghost use Rattle.vortex_leaves.specs.Words.{ref_feed, ref_order, ref_text};
ghost use Rattle.vortex_leaves.specs.ViewWords.{bytes_order, bytes_ref};

use super::BinaryScalar;
use std::cmp::Ordering;
use std::fmt::{self, Display, Formatter, Write};
use std::hash::{Hash, Hasher};

impl PartialEq for BinaryScalar<'_> {
    ghost eq = { λ a b. ref_equal (bytes_ref a) (bytes_ref b) };

    ghost laws = { partial_equiv_from_equiv (ref_equiv bytes_ref) };

    fn eq(&self, other: &BinaryScalar<'_>) -> bool {
        self.scalar == other.scalar
    }
}

impl Eq for BinaryScalar<'_> {
    ghost laws = { ref_equiv bytes_ref };
}

impl PartialOrd for BinaryScalar<'_> {
    ghost partial_cmp = { λ a b. ref_order (bytes_ref a) (bytes_ref b) };

    ghost laws = { bytes_order.partial };

    fn partial_cmp(&self, other: &BinaryScalar<'_>) -> Option<Ordering> {
        Some(self.cmp(other))
    }
}

/// A null is below the others. The others go by their bytes, a proper beginning below.
impl Ord for BinaryScalar<'_> {
    ghost cmp = { on bytes_ref bytes_cmp };

    ghost total = { bytes_order.total };

    ghost matches_partial_cmp = { bytes_order.agrees };

    ghost matches_eq = { bytes_order.ties };

    fn cmp(&self, other: &BinaryScalar<'_>) -> Ordering {
        self.value().cmp(&other.value())
    }
}

impl Hash for BinaryScalar<'_> {
    ghost hash_input = { λ x. ref_feed (bytes_ref x) };

    ghost respects_eq = { (ref_alike bytes_ref).fed };

    fn hash<H: Hasher>(&self, state: &mut H) {
        self.scalar.hash(state);
    }
}

/// Writes `null`, or in quotes each byte in hexadecimal, with spaces between.
impl Display for BinaryScalar<'_> {
    ghost output = { λ x. Some (ref_text (bytes_ref x)) };

    fn fmt<W: Write>(&self, f: &mut Formatter<W>) -> fmt::Result {
        self.scalar.fmt(f)
    }
}
