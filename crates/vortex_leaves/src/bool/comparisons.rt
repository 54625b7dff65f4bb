//! Equality, order, hash and text of views of booleans.

ghost use Rattle.std.specs.Prelude.{◌&&◌, Some};
ghost use Rattle.vortex_leaves.specs.Words.{equal, partial_equiv_from_equiv, same_type, text_of, typed_feed};
ghost use Rattle.vortex_leaves.specs.Words.{typed_order, view_alike, view_equiv};
ghost use Rattle.vortex_leaves.specs.ViewWords.{bool_order, bool_view_cmp, bool_view_content, bool_view_raw};
ghost use Rattle.vortex_leaves.specs.ViewWords.{bool_view_type};

use super::BoolScalar;
use std::cmp::Ordering;
use std::fmt::{self, Display, Formatter, Write};
use std::hash::{Hash, Hasher};
use vortex_value::{ScalarRef, ScalarValue};

impl PartialEq for BoolScalar<'_> {
    ghost eq = { λ a b. same_type (bool_view_type a) (bool_view_type b)
        && equal (bool_view_content a) (bool_view_content b) };

    ghost laws = { partial_equiv_from_equiv (view_equiv bool_view_type bool_view_content) };

    fn eq(&self, other: &BoolScalar<'_>) -> bool {
        self.dtype.eq_ignore_nullability(other.dtype) && self.value == other.value
    }
}

impl Eq for BoolScalar<'_> {
    ghost laws = { view_equiv bool_view_type bool_view_content };
}

impl PartialOrd for BoolScalar<'_> {
    ghost partial_cmp = { λ a b. typed_order
        (bool_view_type a) (bool_view_content a) (bool_view_type b) (bool_view_content b) };

    ghost laws = { bool_order.partial };

    fn partial_cmp(&self, other: &BoolScalar<'_>) -> Option<Ordering> {
        Some(self.cmp(other))
    }
}

/// A null is below the others, and false is below true.
impl Ord for BoolScalar<'_> {
    ghost cmp = { bool_view_cmp };

    ghost total = { bool_order.total };

    ghost matches_partial_cmp = { bool_order.agrees };

    ghost matches_eq = { bool_order.ties };

    fn cmp(&self, other: &BoolScalar<'_>) -> Ordering {
        self.value.cmp(&other.value)
    }
}

impl Hash for BoolScalar<'_> {
    ghost hash_input = { λ x. typed_feed (bool_view_type x) (bool_view_content x) };

    ghost respects_eq = { (view_alike bool_view_type bool_view_content).fed };

    fn hash<H: Hasher>(&self, state: &mut H) {
        let value = self.value.map(ScalarValue::Bool);
        ScalarRef::from_parts(self.dtype, value.as_ref()).hash(state);
        drop(value);
    }
}

/// Writes `true`, `false` or `null`.
impl Display for BoolScalar<'_> {
    ghost output = { λ x. Some (text_of (bool_view_type x) (bool_view_raw x)) };

    fn fmt<W: Write>(&self, f: &mut Formatter<W>) -> fmt::Result {
        let value = self.value.map(ScalarValue::Bool);
        let written = ScalarRef::from_parts(self.dtype, value.as_ref()).fmt(f);
        drop(value);
        written
    }
}
