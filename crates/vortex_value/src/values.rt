//! Raw values.

ghost use Rattle.std.specs.Prelude.{◌≡◌, MatchResult};

use crate::copies;
use crate::scalars::Scalar;
use crate::unions::UnionValue;
use std::alloc::Global;
use vortex_dtype::{BufferString, ByteBuffer, VortexError};
use vortex_pvalue::PValue;

/// A raw value. Its type stands elsewhere. A contract sees it as a tree.
///
/// Ports `vortex_array::scalar::ScalarValue`.
#[cycle(value)]
#[derive(Debug, Drop)]
pub enum ScalarValue {
    /// A truth value.
    Bool(bool),
    /// An integer with its `PType`.
    Primitive(PValue),
    /// A string.
    Utf8(BufferString),
    /// Bytes.
    Binary(ByteBuffer),
    /// The parts of a list, a struct or a map. Each entry of a map is a tuple of two.
    Tuple(Vec<Option<ScalarValue>>),
    /// A union's id and child.
    Union(UnionValue),
    /// A scalar, which brings its type along.
    Variant(Box<Scalar>),
}

/// The calls `as_*` and `into_*` give what the value holds. The caller knows which variant it is:
/// here it is a `requires`, and upstream's calls of the same names panic at another variant.
#[tactic(auto, using(crate::proofs::ValueSteps::shown))]
impl ScalarValue {
    ghost use Rattle.vortex_value.specs.Words.{IsBoolValue, IsBytesValue, IsIntegerValue, IsTextValue, IsTupleValue};
    ghost use Rattle.vortex_value.specs.Words.{IsUnionValue, IsVariantValue, OutOfMemory, TakesNoMemory, ptype_of};
    ghost use Rattle.vortex_value.specs.Words.{raw_bool, raw_bytes, raw_integer, raw_text, raw_tuple, union_tree};
    ghost use Rattle.vortex_value.specs.Words.{value_tree, value_trees, variant_tree, whole_of};

    /// The truth value. The caller knows that it is one.
    pub fn as_bool(&self) -> bool
        requires { IsBoolValue (value_tree self.now) }
        ensures { value_tree self.now ≡ raw_bool result }
    {
        match self {
            ScalarValue::Bool(truth) => *truth,
            _ => unreachable!(),
        }
    }

    /// The integer with its `PType`. The caller knows that it is one.
    pub fn as_primitive(&self) -> &PValue
        requires { IsIntegerValue (value_tree self.now) }
        ensures { value_tree self.now ≡ raw_integer (ptype_of result.now) (whole_of result.now) }
    {
        match self {
            ScalarValue::Primitive(number) => number,
            _ => unreachable!(),
        }
    }

    /// The string. The caller knows that it is one.
    pub fn as_utf8(&self) -> &BufferString
        requires { IsTextValue (value_tree self.now) }
        ensures { value_tree self.now ≡ raw_text result.now }
    {
        match self {
            ScalarValue::Utf8(text) => text,
            _ => unreachable!(),
        }
    }

    /// The bytes. The caller knows that they are bytes.
    pub fn as_binary(&self) -> &ByteBuffer
        requires { IsBytesValue (value_tree self.now) }
        ensures { value_tree self.now ≡ raw_bytes result.now }
    {
        match self {
            ScalarValue::Binary(bytes) => bytes,
            _ => unreachable!(),
        }
    }

    /// The parts, in order. The caller knows that it is a list, a struct or a map.
    pub fn as_list(&self) -> &[Option<ScalarValue>]
        requires { IsTupleValue (value_tree self.now) }
        ensures { value_tree self.now ≡ raw_tuple (value_trees result.now) }
    {
        match self {
            ScalarValue::Tuple(parts) => parts,
            _ => unreachable!(),
        }
    }

    /// The union's id and child. The caller knows that it is a union's value.
    pub fn as_union(&self) -> &UnionValue
        requires { IsUnionValue (value_tree self.now) }
        ensures { value_tree self.now ≡ union_tree result.now }
    {
        match self {
            ScalarValue::Union(union) => union,
            _ => unreachable!(),
        }
    }

    /// The scalar that a variant holds. The caller knows that it is a variant's value; whether the
    /// scalar is valid, `validate` says.
    pub fn as_variant(&self) -> &Scalar
        requires { IsVariantValue (value_tree self.now) }
        ensures { value_tree self.now ≡ variant_tree result.now }
    {
        match self {
            ScalarValue::Variant(scalar) => scalar,
            _ => unreachable!(),
        }
    }

    /// The truth value, by value. The caller knows that it is one.
    pub fn into_bool(self) -> bool
        requires { IsBoolValue (value_tree self) }
        ensures { value_tree self ≡ raw_bool result }
    {
        match self {
            ScalarValue::Bool(truth) => truth,
            _ => unreachable!(),
        }
    }

    /// The integer with its `PType`, by value. The caller knows that it is one.
    pub fn into_primitive(self) -> PValue
        requires { IsIntegerValue (value_tree self) }
        ensures { value_tree self ≡ raw_integer (ptype_of result) (whole_of result) }
    {
        match self {
            ScalarValue::Primitive(integer) => integer,
            _ => unreachable!(),
        }
    }

    /// The string, by value. The caller knows that it is one.
    pub fn into_utf8(self) -> BufferString
        requires { IsTextValue (value_tree self) }
        ensures { value_tree self ≡ raw_text result }
    {
        match self {
            ScalarValue::Utf8(text) => text,
            _ => unreachable!(),
        }
    }

    /// The bytes, by value. The caller knows that they are bytes.
    pub fn into_binary(self) -> ByteBuffer
        requires { IsBytesValue (value_tree self) }
        ensures { value_tree self ≡ raw_bytes result }
    {
        match self {
            ScalarValue::Binary(bytes) => bytes,
            _ => unreachable!(),
        }
    }

    /// The parts, in order, by value. The caller knows that it is a list, a struct or a map.
    pub fn into_list(self) -> Vec<Option<ScalarValue>>
        requires { IsTupleValue (value_tree self) }
        ensures { value_tree self ≡ raw_tuple (value_trees result.items) }
    {
        match self {
            ScalarValue::Tuple(values) => values,
            _ => unreachable!(),
        }
    }

    /// The union's id and child, by value. The caller knows that it is a union's value.
    pub fn into_union(self) -> UnionValue
        requires { IsUnionValue (value_tree self) }
        ensures { value_tree self ≡ union_tree result }
    {
        match self {
            ScalarValue::Union(union) => union,
            _ => unreachable!(),
        }
    }

    /// The scalar that a variant holds, by value. The caller knows that it is a variant's value;
    /// whether the scalar is valid, `validate` says.
    pub fn into_variant(self) -> Scalar
        requires { IsVariantValue (value_tree self) }
        ensures { value_tree self ≡ variant_tree result }
    {
        match self {
            ScalarValue::Variant(scalar) => Box::into_inner(scalar),
            _ => unreachable!(),
        }
    }

    /// A copy of the exact raw value: integers keep their `PType`, and variants the types inside.
    ///
    /// `OutOfMemory` is its only refusal, and a truth value or an integer is never refused. Ports
    /// the `Clone` of `ScalarValue`.
    pub fn clone(&self, alloc: Global) -> Result<ScalarValue, VortexError>
        ensures { MatchResult result
            (λ copy. value_tree copy ≡ value_tree self.now)
            (λ e. (e ≡ OutOfMemory) × ¬ (TakesNoMemory (value_tree self.now))) }
    {
        Ok(copies::copy_value(alloc, self)?)
    }
}
