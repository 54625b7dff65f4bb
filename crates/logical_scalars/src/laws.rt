// SPDX-License-Identifier: Apache-2.0
//! Laws of scalars of logical types, each the contract of a function that does nothing.

ghost use Rattle.std.specs.Prelude.{◌≡◌, ◌↔◌, ℤ, Some};
ghost use Rattle.std.specs.Ordering.{int_cmp};
ghost use Rattle.vortex_dtype.specs.TypeTree.{TypeTree};
ghost use Rattle.vortex_dtype.specs.Words.{Same};
ghost use Rattle.vortex_value.specs.Words.{scalar_order, scalar_type};
ghost use Rattle.vortex_value.specs.declared.scalars.Scalar.{Scalar};
ghost use Rattle.logical_scalars.specs.Stored.{Holds, IsOfLogicalType};
ghost use Rattle.logical_scalars.specs.TypeShapes.{shape_in};
ghost use Rattle.logical_types.specs.Shapes.{Shape, shape_of};
ghost use Rattle.logical_types.specs.declared.logical.LogicalType.{LogicalType as LogicalTypes};

use logical_types::{LogicalType, laws};

/// Scalars of one logical type compare as the storages of their values do.
pub fn scalars_sort_as_storages(logical: LogicalType)
    ensures { (x y : Scalar) (a b : ℤ) → Holds logical a x → Holds logical b y
        → Same (scalar_type x) (scalar_type y) → scalar_order x y ≡ Some (int_cmp a b) }
{
    laws::storages_fit(logical);
    laws::decimal_bytes_sort_as_numbers();
    vortex_dtype::laws::equality_decides();
}

/// A column's type says its logical type, as a function of it.
pub fn shapes_say_types()
    ensures says { (l : LogicalTypes) (t : TypeTree)
        → (shape_in t ≡ Some (shape_of l)) ↔ IsOfLogicalType t l }
    ensures whole { (t : TypeTree) (shape : Shape) → shape_in t ≡ Some shape
        → (l : LogicalTypes) × (shape_of l ≡ shape) }
{
    laws::shapes_say_extensions();
}
