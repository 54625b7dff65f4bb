//! Views of structs.

ghost use Rattle.std.specs.Prelude.{◌≡◌, Ok, Some, true, is_none, is_some, map, option_map, slice_get, All, IfErr};
ghost use Rattle.std.specs.Prelude.{IfOk, IfSome, IsErrAnd, IsTrue, MatchOption, MatchResult};
ghost use Rattle.vortex_views.specs.Words.{AnswersCast, CopiesPartOf, GivesView, IsProjectedType, IsProjectedValue};
ghost use Rattle.vortex_views.specs.Words.{IsRefOf, IsValid, IsValidPart, IsValidRef, OutOfMemory, RefusesExactly};
ghost use Rattle.vortex_views.specs.Words.{RefusesOrNoMemory, counts_cause, field_named, fields_in, fields_of};
ghost use Rattle.vortex_views.specs.Words.{fields_within, is_absent, is_null_or_tuple, lent_raw, names_in, parts_of};
ghost use Rattle.vortex_views.specs.Words.{raw_of, ref_order, ref_part, ref_type, scalar_raw, scalar_type};
ghost use Rattle.vortex_views.specs.Words.{selection_cause, struct_cast_cause, type_of, value_named, zip};

use crate::iterators::Fields;
use crate::parts::{copy_part_if_any, is_null_or_tuple, item_or_null, items_of, part_at};
use std::alloc::Global;
use std::cmp::Ordering;
use vortex_dtype::{DType, FieldName, FieldNames, StructFields, VortexError};
use vortex_value::{Scalar, ScalarRef, ScalarValue};

mod comparisons;

/// A view of a scalar of a struct type: a null, or a value for each field.
#[derive(Clone, Copy, Debug)]
pub struct StructScalar<'a> {
    scalar: ScalarRef<'a>,
    ghost kind: { is_some (fields_in (ref_type scalar)) ≡ true },
}

impl<'a> StructScalar<'a> {
    ghost use Rattle.vortex_views.specs.ViewWords.{fields_left, struct_ref, struct_view_raw, struct_view_type};
    ghost use Rattle.vortex_views.specs.ViewWords.{viewed_struct};

    /// The type.
    pub fn dtype(&self) -> &'a DType
        ensures { type_of result.now ≡ struct_view_type self.now }
    {
        self.scalar.dtype()
    }

    /// The names and the types of the fields, also of a null.
    pub fn struct_fields(&self) -> &'a StructFields
        ensures { Some (fields_of result.now) ≡ fields_in (struct_view_type self.now) }
    {
        self.scalar.dtype().as_struct_fields_opt().unwrap()
    }

    /// The names of the fields, in order, also of a null.
    pub fn names(&self) -> FieldNames<'a>
        ensures { Some (names_in result)
            ≡ option_map (λ fields. fields.names) (fields_in (struct_view_type self.now)) }
    {
        self.struct_fields().names()
    }

    /// Whether it is null.
    pub fn is_null(&self) -> bool
        ensures { result ≡ is_absent (struct_view_raw self.now) }
    {
        self.scalar.is_null()
    }

    /// A copy of the first field with the name; `None` exactly if no field has it. A null has no
    /// fields.
    ///
    /// `OutOfMemory` if there is none for the copy. Of a valid struct, a field of a type whose
    /// values take no memory never gives it. Ports `StructScalar::field`, which panics at a null.
    pub fn field(&self, alloc: Global, name: &str) -> Result<Option<Scalar>, VortexError>
        ensures { CopiesPartOf (viewed_struct self.now) (λ part. field_named part name.now) result }
    {
        match self.struct_fields().find(name) {
            Some(index) => self.field_by_idx(alloc, index),
            None => Ok(None),
        }
    }

    /// A copy of the field at this place; `None` exactly past the end. A null has no fields.
    ///
    /// `OutOfMemory` if there is none for the copy. Of a valid struct, a field of a type whose
    /// values take no memory never gives it. Ports `StructScalar::field_by_idx`, which panics at a
    /// null.
    pub fn field_by_idx(&self, alloc: Global, index: usize) -> Result<Option<Scalar>, VortexError>
        ensures { CopiesPartOf
            (viewed_struct self.now) (λ part. slice_get (fields_within part) index) result }
    {
        copy_part_if_any(alloc, self.field_ref_by_idx(index))
    }

    /// The field at this place, borrowed; `None` exactly past the end. A null has no fields.
    /// Upstream has no such call.
    pub fn field_ref_by_idx(&self, index: usize) -> Option<ScalarRef<'a>>
        ensures lent { option_map ref_part result
            ≡ slice_get (fields_within (viewed_struct self.now)) index }
        ensures valid { IsValidRef (struct_ref self.now) → IfSome result IsValidRef }
    {
        field_at(self.struct_fields(), self.items(), index)
    }

    /// An iterator over copies of the fields, in order; `None` exactly for a null. Each copy is
    /// made when its item is asked for, and the item is `OutOfMemory` if there is none for it.
    ///
    /// Ports `StructScalar::fields_iter`, whose iterator has no name.
    pub fn fields_iter(&self, alloc: Global) -> Option<Fields<'a>>
        ensures null { is_none result ≡ is_absent (struct_view_raw self.now) }
        ensures fields { IfSome result (λ fields.
            fields_left fields ≡ fields_within (viewed_struct self.now)) }
        ensures valid { IsValidRef (struct_ref self.now)
            → IfSome result (λ fields. All IsValidPart (fields_left fields)) }
    {
        if self.is_null() {
            None
        } else {
            Some(Fields::new(self.struct_fields().dtypes(), self.items(), alloc))
        }
    }

    /// The one scalar of the target type with this struct's content. Fields are cast in their
    /// order, whatever their names; the names of the result are the target's.
    ///
    /// `WrongKind` exactly if the target is no struct; an extension over one is not. Else
    /// `WrongLength` exactly if it has another number of fields. Both come for a null too, and
    /// before any memory is asked for. Else the refusals are those of `Scalar::cast`. `CannotCast`
    /// comes only if the table of casts does not allow the cast or the target has no value of the
    /// content. `OutOfMemory` never comes in its place for a null.
    pub fn cast(&self, alloc: Global, dtype: &DType) -> Result<Scalar, VortexError>
        requires { IsValidRef (struct_ref self.now) }
        ensures { MatchOption (struct_cast_cause
            (fields_in (struct_view_type self.now)) (fields_in (type_of dtype.now)))
            (AnswersCast (struct_view_type self.now) (type_of dtype.now)
            (struct_view_raw self.now) result)
            (λ cause. IsErrAnd result (λ e. e ≡ cause)) }
    {
        let Some(target) = dtype.as_struct_fields_opt() else {
            return Err(VortexError::WrongKind);
        };
        check_counts(self.struct_fields(), target)?;
        self.scalar.cast(alloc, dtype)
    }

    /// The struct of the fields that the names select, in the order of the names, with this
    /// struct's nullability. A name may be repeated. For a null it is the null of that type.
    ///
    /// `NoField` exactly if one of the names is the name of no field, also for a null, and before
    /// any memory is asked for. Else `OutOfMemory` if there is none.
    pub fn project(&self, alloc: Global, projection: &[FieldName]) -> Result<Scalar, VortexError>
        ensures refused { RefusesOrNoMemory
            (selection_cause (fields_in (struct_view_type self.now)) projection.now) result }
        ensures typed { IfOk result (λ made. IsProjectedType
            (struct_view_type self.now) projection.now (scalar_type made)) }
        ensures value { IfOk result (λ made. IfSome (fields_in (struct_view_type self.now))
            (λ fields. IsProjectedValue fields projection.now
            (struct_view_raw self.now) (scalar_raw made))) }
        ensures valid { IsValidRef (struct_ref self.now) → IfOk result IsValid }
    {
        let fields = self.struct_fields().project(alloc, projection)?;
        let value = self.projected_value(alloc, projection);
        Scalar::with_value(DType::Struct(fields, self.dtype().nullability()), value)
    }

    /// The raw value of the projection to these names.
    fn projected_value(
        &self,
        alloc: Global,
        projection: &[FieldName],
    ) -> Result<Option<ScalarValue>, VortexError>
        ensures { MatchResult result
            (λ made. IfSome (fields_in (struct_view_type self.now))
            (λ fields. IsProjectedValue fields projection.now
            (struct_view_raw self.now) (raw_of made)))
            (λ e. e ≡ OutOfMemory) }
    {
        if self.is_null() {
            return Ok(None);
        }
        let values = named_values(alloc, self.struct_fields(), self.scalar.value(), projection)?;
        Ok(Some(ScalarValue::Tuple(values)))
    }

    /// The order of the contents, if the types are the same up to nullability, and else `None`. A
    /// null is below all others.
    ///
    /// Ports the `PartialOrd` of `StructScalar`.
    pub fn partial_cmp(&self, other: &StructScalar<'_>) -> Option<Ordering>
        ensures { result ≡ ref_order (struct_ref self.now) (struct_ref other.now) }
    {
        self.scalar.partial_cmp(&other.scalar)
    }

    /// The raw values of the fields.
    fn items(&self) -> &'a [Option<ScalarValue>]
        ensures { map raw_of result.now ≡ parts_of (struct_view_raw self.now) }
    {
        items_of(self.scalar.value())
    }
}

/// `WrongLength` exactly if the target has another number of fields.
fn check_counts(own: &StructFields, target: &StructFields) -> Result<(), VortexError>
    ensures { RefusesExactly (counts_cause (fields_of own.now) (fields_of target.now)) result }
{
    let (expected, found) = (target.nfields(), own.nfields());
    if expected == found {
        Ok(())
    } else {
        Err(VortexError::WrongLength { expected, found })
    }
}

/// The field at this place, borrowed; `None` past the end of the fields or of their values.
fn field_at<'a>(
    fields: &'a StructFields,
    values: &'a [Option<ScalarValue>],
    place: usize,
) -> Option<ScalarRef<'a>>
    ensures { option_map ref_part result
        ≡ slice_get (zip (fields_of fields.now).types (map raw_of values.now)) place }
{
    let dtype = fields.field_by_index(place)?;
    part_at(dtype, values, place)
}

/// Copies of the values of the first fields with these names; a null for a name that no field has.
fn named_values(
    alloc: Global,
    fields: &StructFields,
    value: Option<&ScalarValue>,
    names: &[FieldName],
) -> Result<Vec<Option<ScalarValue>>, VortexError>
    ensures { MatchResult result
        (λ made. map raw_of made.items ≡ map
        (value_named (fields_of fields.now) (lent_raw value.entry)) names.now)
        (λ e. e ≡ OutOfMemory) }
{
    let mut made = Vec::with_capacity(alloc, names.len())?;
    for name in names {
        let named = value_named(fields, value, name.as_str());
        made.push(copy_of(alloc, named)?)?;
    }
    Ok(made)
}

/// The value of the first field with the name; a null if no field has it.
fn value_named<'a>(
    fields: &StructFields,
    value: Option<&'a ScalarValue>,
    name: &str,
) -> Option<&'a ScalarValue>
    ensures { lent_raw result ≡ value_named (fields_of fields.now) (lent_raw value.entry) name.now }
{
    let place = fields.find(name)?;
    item_or_null(value, place)
}

/// A copy of a raw value, or `OutOfMemory`. `None` is the null.
fn copy_of(alloc: Global, value: Option<&ScalarValue>) -> Result<Option<ScalarValue>, VortexError>
    ensures { MatchResult result
        (λ copy. raw_of copy ≡ lent_raw value.entry)
        (λ e. e ≡ OutOfMemory) }
{
    match value {
        Some(value) => Ok(Some(value.clone(alloc)?)),
        None => Ok(None),
    }
}

/// The view of a scalar's type and raw value, even if the value is not valid for the type. It is
/// valid if the scalar is.
///
/// `WrongKind` exactly if the type is no struct, or the raw value is neither a null nor a tuple.
/// Ports `TryFrom<&Scalar> for StructScalar`.
impl<'a> TryFrom<&'a Scalar> for StructScalar<'a> {
    type Error = VortexError;

    ghost use Rattle.vortex_views.specs.ViewWords.{struct_ref};

    ghost try_from_gives = { λ scalar. GivesView
        (λ view. IsRefOf (scalar_type scalar.now) (scalar_raw scalar.now) (struct_ref view))
        (IsTrue (is_some (fields_in (scalar_type scalar.now)))
        × IsTrue (is_null_or_tuple (scalar_raw scalar.now))) };

    fn try_from(scalar: &'a Scalar) -> Result<StructScalar<'a>, VortexError> {
        if scalar.dtype().as_struct_fields_opt().is_none() {
            return Err(VortexError::WrongKind);
        }
        if !is_null_or_tuple(scalar.value()) {
            return Err(VortexError::WrongKind);
        }
        Ok(StructScalar {
            scalar: ScalarRef::of(scalar),
        })
    }
}
