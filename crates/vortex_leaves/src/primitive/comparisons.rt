//! Equality, order, hash and text of views of integers.

ghost use Rattle.std.specs.Prelude.{◌&&◌, Some};
ghost use Rattle.vortex_leaves.specs.Words.{equal, partial_equiv_from_equiv, same_type, text_of, typed_feed};
ghost use Rattle.vortex_leaves.specs.Words.{typed_order, view_alike, view_equiv};
ghost use Rattle.vortex_leaves.specs.ViewWords.{number_order, number_view_content, number_view_raw, number_view_type};

use super::PrimitiveScalar;
use std::cmp::Ordering;
use std::fmt::{self, Display, Formatter, Write};
use std::hash::{Hash, Hasher};
use vortex_value::{ScalarRef, ScalarValue};

impl PartialEq for PrimitiveScalar<'_> {
    ghost eq = { λ a b. same_type (number_view_type a) (number_view_type b)
        && equal (number_view_content a) (number_view_content b) };

    ghost laws = { partial_equiv_from_equiv (view_equiv number_view_type number_view_content) };

    fn eq(&self, other: &PrimitiveScalar<'_>) -> bool {
        self.dtype.eq_ignore_nullability(other.dtype) && self.pvalue == other.pvalue
    }
}

impl Eq for PrimitiveScalar<'_> {
    ghost laws = { view_equiv number_view_type number_view_content };
}

/// `None` exactly if the `PType`s differ. Else a null is below the others, and numbers go by size.
impl PartialOrd for PrimitiveScalar<'_> {
    ghost partial_cmp = { λ a b. typed_order
        (number_view_type a) (number_view_content a) (number_view_type b) (number_view_content b) };

    ghost laws = { number_order };

    fn partial_cmp(&self, other: &PrimitiveScalar<'_>) -> Option<Ordering> {
        if self.dtype.eq_ignore_nullability(other.dtype) {
            self.pvalue.partial_cmp(&other.pvalue)
        } else {
            None
        }
    }
}

impl Hash for PrimitiveScalar<'_> {
    ghost hash_input = { λ x. typed_feed (number_view_type x) (number_view_content x) };

    ghost respects_eq = { (view_alike number_view_type number_view_content).fed };

    fn hash<H: Hasher>(&self, state: &mut H) {
        let value = self.pvalue.map(ScalarValue::Primitive);
        ScalarRef::from_parts(self.dtype, value.as_ref()).hash(state);
        drop(value);
    }
}

/// Writes `null`, or the number in decimal and then its `PType`.
impl Display for PrimitiveScalar<'_> {
    ghost output = { λ x. Some (text_of (number_view_type x) (number_view_raw x)) };

    fn fmt<W: Write>(&self, f: &mut Formatter<W>) -> fmt::Result {
        let value = self.pvalue.map(ScalarValue::Primitive);
        let written = ScalarRef::from_parts(self.dtype, value.as_ref()).fmt(f);
        drop(value);
        written
    }
}
