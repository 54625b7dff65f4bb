// SPDX-License-Identifier: Apache-2.0
//! Constant arrays, their rows and their slices.

ghost use Rattle.std.specs.Prelude.{◌≡◌, ◌⊎◌, ◌↔◌, ◌<◌, ◌≤◌, ◌==◌, Err, IfErr, IfOk, IsOk, Some, length, replicate};
ghost use Rattle.std.specs.Prelude.{slice_get, slice_range};
ghost use Rattle.constant_arrays.specs.Words.{IndexOutOfBounds, IsFlat, IsMadeOf, IsRange, IsValid, OutOfMemory};
ghost use Rattle.constant_arrays.specs.Words.{RangeOutOfBounds, cell_of, items, len_of};
ghost use Rattle.constant_arrays.specs.Words.{scalar_of, scalar_raw, scalar_type};

use crate::error::ConstantArrayError;
use std::alloc::Global;
use vortex_dtype::DType;
use vortex_value::Scalar;

/// A column that has the same scalar, a value or a null, in each row.
///
/// The scalar need not be valid: the contracts say what asks for it.
#[derive(Debug, Drop)]
pub struct ConstantArray {
    pub(crate) scalar: Scalar,
    pub(crate) len: usize,
}

impl ConstantArray {
    /// The array that has this scalar in each of `len` rows.
    pub fn new(scalar: Scalar, len: usize) -> ConstantArray
        ensures scalar { scalar_of result ≡ scalar }
        ensures items { items result ≡ replicate len (cell_of scalar) }
    {
        ConstantArray { scalar, len }
    }

    /// The scalar that each row has. There is one without rows too.
    pub fn scalar(&self) -> &Scalar
        ensures { result.now ≡ scalar_of self.now }
    {
        &self.scalar
    }

    /// The type of the rows.
    pub fn dtype(&self) -> &DType
        ensures { result.now ≡ (scalar_of self.now).dtype }
    {
        &self.scalar.dtype
    }

    /// How many rows there are.
    pub fn len(&self) -> usize
        ensures { result ≡ length (items self.now) }
    {
        self.len
    }

    /// Whether there are no rows.
    pub fn is_empty(&self) -> bool
        ensures { result ≡ (length (items self.now) == 0) }
    {
        self.len == 0
    }

    /// A copy of the scalar that the row at an index has.
    ///
    /// `IndexOutOfBounds` exactly if there is no such row, before memory is asked for. Else
    /// `OutOfMemory` is the only refusal, and never comes for a valid scalar of a type whose values
    /// take no memory.
    pub fn scalar_at(&self, alloc: Global, index: usize) -> Result<Scalar, ConstantArrayError>
        ensures item { IfOk result (λ x. slice_get (items self.now) index ≡ Some (cell_of x)) }
        ensures copied { IfOk result
            (IsMadeOf (scalar_type (scalar_of self.now)) (scalar_raw (scalar_of self.now))) }
        ensures bounds { (result ≡ Err (IndexOutOfBounds index (len_of self.now)))
            ↔ (length (items self.now) ≤ index) }
        ensures refused { IfErr result
            (λ e. (e ≡ IndexOutOfBounds index (len_of self.now)) ⊎ (e ≡ OutOfMemory)) }
        ensures flat { index < length (items self.now) → IsFlat (scalar_type (scalar_of self.now))
            → IsValid (scalar_of self.now) → IsOk result }
    {
        if index >= self.len {
            return Err(ConstantArrayError::IndexOutOfBounds {
                index,
                len: self.len,
            });
        }
        copied(alloc, &self.scalar)
    }

    /// The array of the rows `start..end`.
    ///
    /// `RangeOutOfBounds` exactly if the range starts behind its end, or ends behind the array, before
    /// memory is asked for. Else `OutOfMemory` is the only refusal, and never comes for a valid scalar
    /// of a type whose values take no memory.
    pub fn slice(
        &self,
        alloc: Global,
        start: usize,
        end: usize,
    ) -> Result<ConstantArray, ConstantArrayError>
        ensures items { IfOk result (λ a. items a ≡ slice_range (items self.now) start end) }
        ensures copied { IfOk result (λ a. IsMadeOf (scalar_type (scalar_of self.now))
            (scalar_raw (scalar_of self.now)) (scalar_of a)) }
        ensures bounds { (result ≡ Err (RangeOutOfBounds start end (len_of self.now)))
            ↔ ¬ (IsRange start end (length (items self.now))) }
        ensures refused { IfErr result
            (λ e. (e ≡ RangeOutOfBounds start end (len_of self.now)) ⊎ (e ≡ OutOfMemory)) }
        ensures flat { IsRange start end (length (items self.now))
            → IsFlat (scalar_type (scalar_of self.now)) → IsValid (scalar_of self.now) → IsOk result }
    {
        if start > end || end > self.len {
            return Err(ConstantArrayError::RangeOutOfBounds {
                start,
                end,
                len: self.len,
            });
        }
        Ok(ConstantArray {
            scalar: copied(alloc, &self.scalar)?,
            len: end - start,
        })
    }
}

/// A copy of a scalar. `OutOfMemory` is its only refusal.
fn copied(alloc: Global, scalar: &Scalar) -> Result<Scalar, ConstantArrayError>
    ensures copied { IfOk result (IsMadeOf (scalar_type scalar.now) (scalar_raw scalar.now)) }
    ensures refused { IfErr result (λ e. e ≡ OutOfMemory) }
    ensures flat { IsFlat (scalar_type scalar.now) → IsValid scalar.now → IsOk result }
{
    match scalar.clone(alloc) {
        Ok(copy) => Ok(copy),
        Err(_) => Err(ConstantArrayError::OutOfMemory),
    }
}
