//! Integer scalars as another integer type of the same width.

ghost use Rattle.std.specs.Prelude.{◌≡◌, ◌↔◌, IfErr, IfOk, IsOk, IsSome};
ghost use Rattle.vortex_value.specs.Words.{IsAsWide, IsMadeOf, IsValid, in_ptype, ptype_in, reinterpreted, scalar_raw};
ghost use Rattle.vortex_value.specs.Words.{scalar_type};

use crate::scalars::Scalar;
use crate::values::ScalarValue;
use vortex_dtype::{DType, PType, VortexError};
use vortex_pvalue::laws::is_in_range;

impl Scalar {
    /// The integer of this `PType` that has the same bits. A null stays null, and the nullability
    /// of the type stays.
    ///
    /// `WidthsDiffer` exactly if the `PType` has another width than the type's. The caller knows
    /// that the type is an integer type, and no extension over one. Ports
    /// `Scalar::primitive_reinterpret_cast`, which panics at another type.
    pub fn primitive_reinterpret_cast(&self, ptype: PType) -> Result<Scalar, VortexError>
        requires valid { IsValid self.now }
        requires integer { IsSome (ptype_in (scalar_type self.now)) }
        ensures ok { IsOk result ↔ IsAsWide ptype (scalar_type self.now) }
        ensures made { IfOk result (IsMadeOf
            (in_ptype ptype (scalar_type self.now)) (reinterpreted ptype (scalar_raw self.now))) }
        ensures valid { IfOk result IsValid }
        ensures refused { IfErr result (λ e. e ≡ VortexError.WidthsDiffer) }
    {
        let DType::Primitive(own, nullability) = &self.dtype else {
            unreachable!()
        };
        if own.byte_width() != ptype.byte_width() {
            return Err(VortexError::WidthsDiffer);
        }
        let value = match &self.value {
            Some(value) => {
                let number = value.as_primitive().reinterpret_cast(ptype);
                is_in_range(&number);
                Some(ScalarValue::Primitive(number))
            }
            None => None,
        };
        Ok(Scalar {
            dtype: DType::Primitive(ptype, *nullability),
            value,
        })
    }
}
