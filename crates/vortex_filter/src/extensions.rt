//! Casts that take what stores a value for the value.

ghost use Rattle.std.specs.Prelude.{◌≡◌};
ghost use Rattle.vortex_dtype.specs.TypeOf.{dtype_trees};
ghost use Rattle.vortex_filter.specs.Extensions.{has_extension, have_extension, reinterprets};
ghost use Rattle.vortex_filter.specs.Words.{scalar_content, scalar_type, type_of};

use crate::evaluation::is_null;
use vortex_dtype::DType;
use vortex_value::Scalar;

/// Whether a cast of the scalar to another type takes a storage for a value, or a value for its
/// storage: an extension stands in one of the types, and it is no null.
pub(crate) fn reinterprets(scalar: &Scalar, dtype: &DType) -> bool
    ensures { result
        ≡ reinterprets (scalar_type scalar.now) (type_of dtype.now) (scalar_content scalar.now) }
{
    !is_null(scalar) && (has_extension(&scalar.dtype) || has_extension(dtype))
}

/// Whether an extension stands in the type, at any depth.
#[cycle(extensions)]
#[tactic(auto, using(crate::proofs::ExtensionSteps::shown))]
fn has_extension(dtype: &DType) -> bool
    ensures { result ≡ has_extension (type_of dtype.now) }
{
    match dtype {
        DType::List(element, _) => has_extension(element),
        DType::FixedSizeList(element, _, _) => has_extension(element),
        DType::Map(map, _) => has_extension(map.key_dtype()) || has_extension(map.value_dtype()),
        DType::Struct(fields, _) => have_extension(fields.dtypes()),
        DType::Union(variants, _) => have_extension(variants.dtypes()),
        DType::Extension(_) => true,
        _ => false,
    }
}

/// Whether an extension stands in any of the types, at any depth.
#[cycle(extensions)]
#[tactic(auto, using(crate::proofs::ExtensionSteps::shown))]
fn have_extension(dtypes: &[DType]) -> bool
    ensures { result ≡ have_extension (dtype_trees dtypes.now) }
{
    for dtype in dtypes {
        if has_extension(dtype) {
            return true;
        }
    }
    false
}
