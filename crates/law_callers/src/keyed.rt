//! Scalars that are compared by their keys.

ghost use Rattle.std.specs.Prelude.{◌≡◌, IfOk};
ghost use Rattle.vortex_value.specs.Equality.{HasNoTyped};
ghost use Rattle.vortex_value.specs.Values.Scalars.{IsValid, scalar_content};
ghost use Rattle.vortex_row.specs.ContentOrder.{content_cmp};
ghost use Rattle.vortex_row.specs.Held.{IsHeld};
ghost use Rattle.vortex_row.specs.Keys.{key};
ghost use Rattle.law_callers.specs.KeyProps.{held-prop, plain-prop};

use std::alloc::Global;
use std::cmp::Ordering;
use vortex_row::laws::{keys_are_ordered, values_have_no_typed};
use vortex_row::{RowError, SortOptions, append_key, compare_keys};
use vortex_value::{Scalar, ScalarRef};

/// A valid scalar with its key. It is compared by the key alone.
#[derive(Drop)]
#[derive_where(PartialEq, Eq, PartialOrd, Ord)]
pub struct Keyed {
    bytes: Vec<u8>,
    #[derive_where(skip(EqHashOrd))]
    scalar: Scalar,
    ghost keyed: { bytes.items ≡ key (scalar_content scalar) },
    ghost held: { IsHeld (scalar_content scalar) } by { held-prop (scalar_content scalar) },
    ghost plain: { HasNoTyped (scalar_content scalar) } by { plain-prop (scalar_content scalar) },
}

impl Keyed {
    /// The scalar with its key. `HasVariant` if a variant stands in its type, and `OutOfMemory`.
    pub fn try_new(alloc: Global, scalar: Scalar) -> Result<Keyed, RowError>
        requires { IsValid scalar }
        ensures { IfOk result (λ keyed. keyed.scalar ≡ scalar) }
    {
        values_have_no_typed();
        let mut bytes = Vec::new(alloc);
        append_key(ScalarRef::of(&scalar), SortOptions::default(), &mut bytes)?;
        Ok(Keyed { bytes, scalar })
    }

    /// The scalar.
    pub fn scalar(&self) -> &Scalar
        ensures { result.now ≡ self.now.scalar }
    {
        &self.scalar
    }

    /// The order of the contents of two scalars, by their keys.
    pub fn compare(&self, other: &Keyed) -> Ordering
        ensures { result ≡
            content_cmp (scalar_content self.now.scalar) (scalar_content other.now.scalar) }
    {
        keys_are_ordered();
        compare_keys(self.bytes.as_slice(), other.bytes.as_slice())
    }
}
