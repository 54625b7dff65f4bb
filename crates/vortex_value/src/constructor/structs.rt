//! The maker of structs.

ghost use Rattle.std.specs.Prelude.{◌≡◌, ◌⊎◌, not, position, IfOk, IfErr, IsErrAnd, MatchOption};
ghost use Rattle.vortex_value.specs.Words.{GivesOnly, IsFinite, IsMadeOf, IsValid, MadeOfItems, OutOfMemory};
ghost use Rattle.vortex_value.specs.Words.{RefusesExactly, RefusesItems, RefusesOrNoMemory, WholeRun, WrongKind};
ghost use Rattle.vortex_value.specs.Words.{child_trees, fields_cause, fields_in, fields_of, raw_of, raw_tuple};
ghost use Rattle.vortex_value.specs.Words.{scalar_type, struct_cause, tree_eq, type_of, zip};

use super::lists::tuple_of;
use crate::scalars::Scalar;
use crate::values::ScalarValue;
use std::alloc::Global;
use vortex_dtype::{DType, StructFields, VortexError};

impl Scalar {
    /// The struct of these children, in the order of its fields.
    ///
    /// `WrongKind` exactly if the type is no struct, before any child is taken. Then the children
    /// are kept, which may find no memory. Then `WrongLength` if they are not as many as the
    /// fields, and `WrongChild` with the first child whose type is not exactly its field's,
    /// nullability included. Else `OutOfMemory` if there is no memory. Ports `Scalar::struct_`,
    /// which panics instead.
    pub fn struct_<I: IntoIterator<Item = Scalar>>(
        alloc: Global,
        dtype: DType,
        children: I,
    ) -> Result<Scalar, VortexError>
        requires { GivesOnly I.into_iter_gives I.IntoIter.can_next I.IntoIter.next_gives
            I.IntoIter.remaining children IsValid }
        ensures refused { MatchOption (fields_in (type_of dtype))
            (IsErrAnd result (λ e. e ≡ WrongKind))
            (λ fields. RefusesItems I.into_iter_gives I.IntoIter.next_gives children
            (fields_cause fields.types) result) }
        ensures made { MadeOfItems I.into_iter_gives I.IntoIter.next_gives children
            (struct_cause (fields_in (type_of dtype)))
            (λ items. IsMadeOf (type_of dtype) (raw_tuple (child_trees items))) result }
        ensures valid { IfOk result IsValid }
    {
        let value = struct_value(alloc, &dtype, children.into_iter());
        Scalar::with_value(dtype, value)
    }
}

/// The raw value of the struct of these children, or why there is none.
fn struct_value<I: Iterator<Item = Scalar>>(
    alloc: Global,
    dtype: &DType,
    children: I,
) -> Result<Option<ScalarValue>, VortexError>
    requires can { I.can_next children }
    requires ends { IsFinite (I.remaining children) }
    ensures refused { MatchOption (fields_in (type_of dtype.now))
        (IsErrAnd result (λ e. e ≡ WrongKind))
        (λ fields. IfErr result (λ e. (e ≡ OutOfMemory) ⊎ WholeRun I.next_gives children
        (λ run. fields_cause fields.types run.items ≡ Some e))) }
    ensures made { IfOk result (λ value. WholeRun I.next_gives children
        (λ run. (struct_cause (fields_in (type_of dtype.now)) run.items ≡ None)
        × (raw_of value ≡ raw_tuple (child_trees run.items)))) }
{
    let Some(fields) = dtype.as_struct_fields_opt() else {
        return Err(VortexError::WrongKind);
    };
    let children: Vec<Scalar> = children.collect(alloc)?;
    fields_value(alloc, fields, children)
}

/// The raw value with these children as its fields.
fn fields_value(
    alloc: Global,
    fields: &StructFields,
    children: Vec<Scalar>,
) -> Result<Option<ScalarValue>, VortexError>
    ensures refused { RefusesOrNoMemory
        (fields_cause (fields_of fields.now).types children.items) result }
    ensures made { IfOk result (λ value. raw_of value ≡ raw_tuple (child_trees children.items)) }
{
    check_fields(fields, &children)?;
    tuple_of(alloc, children)
}

/// Tests that these children fit these fields.
fn check_fields(fields: &StructFields, children: &[Scalar]) -> Result<(), VortexError>
    ensures { RefusesExactly (fields_cause (fields_of fields.now).types children.now) result }
{
    if fields.nfields() != children.len() {
        return Err(VortexError::WrongLength {
            expected: fields.nfields(),
            found: children.len(),
        });
    }
    match wrong_field(fields.dtypes(), children) {
        Some(index) => Err(VortexError::WrongChild { index }),
        None => Ok(()),
    }
}

/// The place of the first child whose type is not exactly its field's.
fn wrong_field(dtypes: &[DType], children: &[Scalar]) -> Option<usize>
    ensures { result ≡ position
        (λ pair. not (tree_eq (scalar_type pair.1) (type_of pair.0)))
        (zip dtypes.now children.now) }
{
    let mut pairs = dtypes.iter().zip(children);
    pairs.position(|(dtype, child)| child.dtype != *dtype)
}
