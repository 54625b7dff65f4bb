// SPDX-License-Identifier: Apache-2.0
//! Constant arrays of another type.

ghost use Rattle.std.specs.Prelude.{◌≡◌, IfOk};
ghost use Rattle.constant_arrays.specs.Words.{AnswersCast, IsValid, casts, items, scalar_answer, scalar_of};
ghost use Rattle.constant_arrays.specs.Words.{scalar_raw, scalar_type, type_of};

use crate::array::ConstantArray;
use std::alloc::Global;
use vortex_dtype::{DType, VortexError};

impl ConstantArray {
    /// The array of the target type with the same content in each row, by one cast. It is refused as
    /// `Scalar::cast` is, also without rows.
    pub fn cast(&self, alloc: Global, target: &DType) -> Result<ConstantArray, VortexError>
        requires { IsValid (scalar_of self.now) }
        ensures answer { AnswersCast (scalar_type (scalar_of self.now)) (type_of target.now)
            (scalar_raw (scalar_of self.now)) (scalar_answer result) }
        ensures items { IfOk result (λ a. items a ≡ casts (type_of target.now) (items self.now)) }
    {
        let scalar = self.scalar.cast(alloc, target)?;
        Ok(ConstantArray {
            scalar,
            len: self.len,
        })
    }
}
