//! Which raw values are valid for a type, and the path to the first breach of one that is not.
#![tactic(auto, using(crate::proofs::ValidSteps::shown))]

ghost use Rattle.std.specs.Prelude.{◌≡◌, ◌≢◌, ◌↔◌, Bool, Err, List, Option, IfErr, IsOk, IsTrue, false, option_map};
ghost use Rattle.std.specs.Prelude.{true};
ghost use Rattle.vortex_value.specs.Words.{Checks, Found, Global, HasPath, IsFlat, NonNullable, Refuses, Shows, Valid};
ghost use Rattle.vortex_value.specs.Words.{as_type_trees, breaches, breaches_at, breaches_of_entry, child_breaches};
ghost use Rattle.vortex_value.specs.Words.{dtype_trees, element_breaches, entry_breaches, field_breaches, here};
ghost use Rattle.vortex_value.specs.Words.{integer_type, is_leaf, is_some, lent_raw, map_of, raw_of, raw_tuple};
ghost use Rattle.vortex_value.specs.Words.{type_of, type_with, under, value_tree, value_trees, variant_tree};
ghost use Rattle.vortex_value.specs.Words.{variant_type, variants_of};

use crate::scalars::Scalar;
use crate::storage::{storage_of, variant_with};
use crate::unions::UnionValue;
use crate::values::ScalarValue;
use std::alloc::Global;
use std::mem;
use vortex_dtype::{
    Breach, DType, MapDType, Nullability, PType, Path, Step, UnionVariants, VortexError,
};

/// Why a raw value is not valid.
#[derive(Drop)]
enum ValidityError {
    /// There is no memory for the steps of the path.
    NoMemory,
    /// The check keeps no path, or there is no breach yet.
    NoPath,
    /// The first breach with its steps, the innermost first.
    First { steps: Vec<Step>, breach: Breach },
}

/// A breach of the value itself, with an empty path if there is memory for the steps to come.
fn breach_here(alloc: Option<Global>, breach: Breach) -> ValidityError
    ensures { Shows (is_some alloc) result (here breach) }
{
    match alloc {
        Some(alloc) => ValidityError::First {
            steps: Vec::new(alloc),
            breach,
        },
        None => ValidityError::NoPath,
    }
}

/// The breach as it is seen from one level up: the path has one step more.
fn add_step(fault: ValidityError, step: Step) -> ValidityError
    ensures { (kept : Bool) (fs : List Found)
        → Shows kept fault fs → Shows kept result (under step fs) }
{
    match fault {
        ValidityError::NoMemory => ValidityError::NoMemory,
        ValidityError::NoPath => ValidityError::NoPath,
        ValidityError::First { mut steps, breach } => match steps.push(step) {
            Ok(()) => ValidityError::First { steps, breach },
            Err(_) => ValidityError::NoMemory,
        },
    }
}

/// What a check leaves behind if it does not pass.
#[derive(Drop)]
struct Trace {
    /// The memory for the steps of the path; `None` if no path is kept.
    alloc: Option<Global>,
    /// Why the value is not valid, once that is known.
    fault: ValidityError,
}

impl Trace {
    /// The trace of a check that is to come.
    fn new(alloc: Option<Global>) -> Trace
        ensures { result.alloc ≡ alloc }
    {
        Trace {
            alloc,
            fault: ValidityError::NoPath,
        }
    }

    /// Leaves a breach of the value itself, and answers that it is not valid.
    #[cold]
    fn refuse(&mut self, breach: Breach) -> bool
        ensures { Checks self.old.alloc result self.new (here breach) }
    {
        self.fault = breach_here(self.alloc, breach);
        false
    }

    /// Adds a step to the breach that a part has left, and answers that the whole is not valid.
    #[cold]
    fn refuse_in_part(&mut self, step: Step) -> bool
        ensures { (alloc : Option Global) (fs : List Found)
            → Checks alloc false self.old fs → Checks alloc result self.new (under step fs) }
    {
        let fault = mem::replace(&mut self.fault, ValidityError::NoMemory);
        self.fault = add_step(fault, step);
        false
    }
}

/// The refusal that a trace with a path is: the steps from the outermost on.
fn refusal(trace: Trace) -> VortexError
    requires { HasPath trace.fault }
    ensures { (fs : List Found) → Shows true trace.fault fs → Refuses result fs }
{
    let Trace { alloc: _, fault } = trace;
    match fault {
        ValidityError::NoMemory => VortexError::OutOfMemory,
        ValidityError::NoPath => unreachable!(),
        ValidityError::First { mut steps, breach } => {
            steps.reverse();
            VortexError::Invalid {
                path: Path::of(steps),
                breach,
            }
        }
    }
}

/// Whether the raw value has no parts and is of just this type. It is asked first, and saves most
/// calls of the recursion.
#[inline(always)]
fn is_leaf_of(value: &ScalarValue, dtype: &DType) -> bool
    ensures { result ≡ is_leaf (type_of dtype.now) (value_tree value.now) }
{
    match (value, dtype) {
        (ScalarValue::Primitive(number), DType::Primitive(ptype, _)) => number.ptype() == *ptype,
        (ScalarValue::Utf8(_), DType::Utf8(_)) => true,
        (ScalarValue::Binary(_), DType::Binary(_)) => true,
        (ScalarValue::Bool(_), DType::Bool(_)) => true,
        _ => false,
    }
}

/// Whether a raw value, or a null, is valid for the type. If it is not, the trace has the first
/// breach.
#[cycle(validity)]
#[inline(always)]
fn check(value: Option<&ScalarValue>, dtype: &DType, trace: &mut Trace) -> bool
    ensures { Checks trace.old.alloc result trace.new
        (breaches (type_of dtype.now) (lent_raw value.entry)) }
{
    match value {
        Some(value) => check_present(value, dtype, trace),
        None => dtype.is_nullable() || trace.refuse(Breach::NullNotAllowed),
    }
}

/// Whether a raw value that is present is valid for the type. A leaf of just this type needs no
/// call of the recursion.
#[cycle(validity)]
#[inline(always)]
fn check_present(value: &ScalarValue, dtype: &DType, trace: &mut Trace) -> bool
    ensures { Checks trace.old.alloc result trace.new
        (breaches (type_of dtype.now) (value_tree value.now)) }
{
    is_leaf_of(value, dtype) || check_value(value, dtype, trace)
}

/// Whether a raw value is valid for the type, by the recursion. For an extension its storage
/// decides.
#[cycle(validity)]
fn check_value(value: &ScalarValue, dtype: &DType, trace: &mut Trace) -> bool
    ensures { Checks trace.old.alloc result trace.new
        (breaches (type_of dtype.now) (value_tree value.now)) }
{
    match (storage_of(dtype), value) {
        (DType::List(element, _), ScalarValue::Tuple(items)) => {
            check_elements(items, element, trace)
        }
        (DType::FixedSizeList(element, size, _), ScalarValue::Tuple(items)) => {
            if items.len() == *size as usize {
                check_elements(items, element, trace)
            } else {
                trace.refuse(Breach::WrongLength)
            }
        }
        (DType::Map(map, _), ScalarValue::Tuple(items)) => check_entries(items, map, trace),
        (DType::Struct(fields, _), ScalarValue::Tuple(items)) => {
            if items.len() == fields.nfields() {
                check_fields(items, fields.dtypes(), trace)
            } else {
                trace.refuse(Breach::WrongLength)
            }
        }
        (DType::Union(variants, _), ScalarValue::Union(union)) => {
            check_child(union, variants, trace)
        }
        (DType::Variant(_), ScalarValue::Variant(scalar)) => check_variant(scalar, trace),
        (storage, value) => is_leaf_of(value, storage) || trace.refuse(Breach::WrongValue),
    }
}

/// Whether the elements of a list are valid, in order. Integers have a loop of their own.
#[cycle(validity)]
fn check_elements(items: &[Option<ScalarValue>], element: &DType, trace: &mut Trace) -> bool
    ensures { Checks trace.old.alloc result trace.new
        (element_breaches (type_of element.now) 0 (value_trees items.now)) }
{
    match element {
        DType::Primitive(ptype, nullability) => check_numbers(items, *ptype, *nullability, trace),
        _ => check_parts(items, element, trace),
    }
}

/// Whether the elements of a list of integers are valid, in order.
fn check_numbers(
    items: &[Option<ScalarValue>],
    ptype: PType,
    nullability: Nullability,
    trace: &mut Trace,
) -> bool
    ensures { Checks trace.old.alloc result trace.new
        (element_breaches (integer_type ptype nullability) 0 (value_trees items.now)) }
{
    for (index, item) in items.iter().enumerate() {
        if !check_number(item.as_ref(), ptype, nullability, trace) {
            return trace.refuse_in_part(Step::Element(index));
        }
    }
    true
}

/// Whether a raw value, or a null, is valid for this type of integers.
#[inline(always)]
fn check_number(
    value: Option<&ScalarValue>,
    ptype: PType,
    nullability: Nullability,
    trace: &mut Trace,
) -> bool
    ensures { Checks trace.old.alloc result trace.new
        (breaches (integer_type ptype nullability) (lent_raw value.entry)) }
{
    match value {
        Some(ScalarValue::Primitive(number)) if number.ptype() == ptype => true,
        Some(_) => trace.refuse(Breach::WrongValue),
        None if nullability == Nullability::Nullable => true,
        None => trace.refuse(Breach::NullNotAllowed),
    }
}

/// Whether the elements of a list of any type are valid, in order.
#[cycle(validity)]
fn check_parts(items: &[Option<ScalarValue>], element: &DType, trace: &mut Trace) -> bool
    ensures { Checks trace.old.alloc result trace.new
        (element_breaches (type_of element.now) 0 (value_trees items.now)) }
{
    for (index, item) in items.iter().enumerate() {
        if !check(item.as_ref(), element, trace) {
            return trace.refuse_in_part(Step::Element(index));
        }
    }
    true
}

/// Whether the entries of a map are valid, in order.
#[cycle(validity)]
fn check_entries(items: &[Option<ScalarValue>], map: &MapDType, trace: &mut Trace) -> bool
    ensures { Checks trace.old.alloc result trace.new
        (entry_breaches (map_of map.now).key (map_of map.now).value 0 (value_trees items.now)) }
{
    for (index, item) in items.iter().enumerate() {
        if !check_entry(item.as_ref(), map, trace) {
            return trace.refuse_in_part(Step::Entry(index));
        }
    }
    true
}

/// Whether one entry of a map is valid: it is a tuple, and no null.
#[cycle(validity)]
fn check_entry(entry: Option<&ScalarValue>, map: &MapDType, trace: &mut Trace) -> bool
    ensures { Checks trace.old.alloc result trace.new
        (breaches_of_entry (map_of map.now).key (map_of map.now).value
        (lent_raw entry.entry)) }
{
    match entry {
        None => trace.refuse(Breach::NullEntry),
        Some(ScalarValue::Tuple(parts)) => check_pair(parts, map, trace),
        Some(_) => trace.refuse(Breach::WrongValue),
    }
}

/// Whether the parts of an entry are valid: a key, and then a value.
#[cycle(validity)]
fn check_pair(parts: &[Option<ScalarValue>], map: &MapDType, trace: &mut Trace) -> bool
    ensures { Checks trace.old.alloc result trace.new
        (breaches_of_entry (map_of map.now).key (map_of map.now).value
        (raw_tuple (value_trees parts.now))) }
{
    if parts.len() != 2 {
        return trace.refuse(Breach::WrongLength);
    }
    if !check(parts[0].as_ref(), map.key_dtype(), trace) {
        return trace.refuse_in_part(Step::Key);
    }
    check(parts[1].as_ref(), map.value_dtype(), trace) || trace.refuse_in_part(Step::Value)
}

/// Whether the fields of a struct are valid, in order.
#[cycle(validity)]
fn check_fields(items: &[Option<ScalarValue>], fields: &[DType], trace: &mut Trace) -> bool
    ensures { Checks trace.old.alloc result trace.new
        (field_breaches 0 (dtype_trees fields.now) (value_trees items.now)) }
{
    for (index, (item, field)) in items.iter().zip(fields).enumerate() {
        if !check(item.as_ref(), field, trace) {
            return trace.refuse_in_part(Step::Field(index));
        }
    }
    true
}

/// Whether a union is valid: its id has a variant, and its child fits that.
#[cycle(validity)]
fn check_child(union: &UnionValue, variants: &UnionVariants, trace: &mut Trace) -> bool
    ensures { Checks trace.old.alloc result trace.new (child_breaches
        (type_with union.now.type_id (variants_of variants.now).type_ids
        (as_type_trees (variants_of variants.now).types))
        (λ t. breaches t (raw_of (option_map (λ b. b.value) union.now.child)))) }
{
    match variant_with(variants, union.type_id) {
        Some((_, variant)) => {
            check(union.child.as_deref(), variant, trace) || trace.refuse_in_part(Step::Child)
        }
        None => trace.refuse(Breach::UnknownTypeId),
    }
}

/// Whether the scalar in a variant is valid: a null is of type Null alone.
#[cycle(validity)]
fn check_variant(scalar: &Scalar, trace: &mut Trace) -> bool
    ensures { Checks trace.old.alloc result trace.new
        (breaches_at (variant_type NonNullable) (variant_tree scalar.now)) }
{
    match &scalar.value {
        Some(value) => {
            check_present(value, &scalar.dtype, trace) || trace.refuse_in_part(Step::Inner)
        }
        None => match &scalar.dtype {
            DType::Null => true,
            _ => trace.refuse(Breach::VariantNull),
        },
    }
}

impl Scalar {
    /// Tests that the raw value, or `None` for a null, is valid for the type.
    ///
    /// `Invalid` has the first breach in reading order and the path to it. `OutOfMemory` comes in
    /// its place if there is no memory for the steps of the path. A valid value takes no memory,
    /// nor does any value of a type whose values take none.
    pub fn validate(
        alloc: Global,
        dtype: &DType,
        value: Option<&ScalarValue>,
    ) -> Result<(), VortexError>
        ensures ok { IsOk result ↔ Valid (type_of dtype.now) (lent_raw value.entry) }
        ensures refused { IfErr result
            (λ e. Refuses e (breaches (type_of dtype.now) (lent_raw value.entry))) }
        ensures flat { IsFlat (type_of dtype.now) → result ≢ Err VortexError.OutOfMemory }
    {
        let mut trace = Trace::new(Some(alloc));
        if check(value, dtype, &mut trace) {
            Ok(())
        } else {
            Err(refusal(trace))
        }
    }

    /// Whether the raw value, or `None` for a null, is valid for the type.
    pub fn is_compatible(dtype: &DType, value: Option<&ScalarValue>) -> bool
        ensures { IsTrue result ↔ Valid (type_of dtype.now) (lent_raw value.entry) }
    {
        check(value, dtype, &mut Trace::new(None))
    }
}
