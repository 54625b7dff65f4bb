//! What lines give to calls of types, scalars and views.

ghost use Rattle.std.specs.Prelude.{◌≡◌};

use crate::inputs::{Inputs, put};
use crate::read::lists::read_list;
use crate::read::numbers::{read_integer, read_natural};
use crate::read::texts::{no_bytes, no_text, read_bytes, read_string, read_text};
use crate::read::types::{
    Fields, no_fields, read_id, read_struct_fields, read_type, read_variants,
};
use crate::read::values::{read_scalar, read_value};
use crate::read::words::{
    RustLeaf, RustType, TextType, View, read_nullability, read_ptype, read_rust_type,
    read_text_type, read_truth, read_view,
};
use crate::same::{same_raw, same_scalar};
use crate::tokens::Tokens;
use std::alloc::Global;
use std::mem::replace;
use vortex_dtype::{BufferString, ByteBuffer, DType, Nullability, PType};
use vortex_pvalue::PValue;
use vortex_value::{Scalar, ScalarValue};

/// What a call of types, scalars or views may ask of a line, after spaces.
#[derive(Clone, Copy)]
pub enum Input {
    /// A scalar. It need not be valid.
    Scalar,
    /// A scalar after the first.
    Second,
    /// A scalar after the second.
    Third,
    /// A raw value; `null` is `None`.
    Value,
    SecondValue,
    Type,
    SecondType,
    /// Scalars, in brackets.
    Scalars,
    /// Keys and values, in brackets.
    Entries,
    /// Names of fields or variants, in brackets.
    Names,
    /// Types, in brackets.
    Types,
    /// Bytes in decimal, in brackets.
    TypeIds,
    /// The fields of a struct type, in braces.
    Fields,
    /// The variants of a union type, in parentheses.
    Variants,
    /// The id of a variant.
    TypeId,
    /// A string in quotes.
    Text,
    /// A string in quotes, in memory of its own.
    String,
    /// Bytes in hexadecimal, after an `x`.
    Bytes,
    SecondBytes,
    /// A length in bytes, or an index.
    Number,
    /// An integer and its `PType`.
    Integer,
    PType,
    /// `nullable` or `non_nullable`.
    Nullability,
    Truth,
    /// The name of a view.
    View,
    RustType,
    TextType,
}

/// What a line gives to a call of types, scalars or views.
#[derive(Drop)]
pub struct Given {
    pub scalar: Scalar,
    pub second: Scalar,
    pub third: Scalar,
    pub value: Option<ScalarValue>,
    pub second_value: Option<ScalarValue>,
    pub dtype: DType,
    pub second_dtype: DType,
    pub scalars: Vec<Scalar>,
    pub entries: Vec<(Scalar, Scalar)>,
    pub fields: Fields,
    pub text: BufferString,
    pub string: String,
    pub bytes: ByteBuffer,
    pub second_bytes: ByteBuffer,
    pub type_id: u8,
    pub number: usize,
    pub integer: PValue,
    pub ptype: PType,
    pub nullability: Nullability,
    pub is_true: bool,
    pub view: View,
    pub rust: RustType,
    pub text_type: TextType,
}

impl Inputs for Given {
    type Input = Input;

    fn empty(alloc: Global) -> Given {
        Given {
            scalar: no_scalar(),
            second: no_scalar(),
            third: no_scalar(),
            value: None,
            second_value: None,
            dtype: DType::Null,
            second_dtype: DType::Null,
            scalars: Vec::new(alloc),
            entries: Vec::new(alloc),
            fields: no_fields(alloc),
            text: no_text(alloc),
            string: String::new(alloc),
            bytes: no_bytes(alloc),
            second_bytes: no_bytes(alloc),
            type_id: 0,
            number: 0,
            integer: PValue::U8(0),
            ptype: PType::U8,
            nullability: Nullability::NonNullable,
            is_true: false,
            view: View::Bool,
            rust: RustType {
                vectors: 0,
                is_optional: false,
                leaf: RustLeaf::Bool,
            },
            text_type: TextType::String,
        }
    }

    fn read(&mut self, input: Input, tokens: &mut Tokens<'_>) {
        tokens.spaces();
        match input {
            Input::Scalar => put(&mut self.scalar, read_scalar(tokens)),
            Input::Second => put(&mut self.second, read_scalar(tokens)),
            Input::Third => put(&mut self.third, read_scalar(tokens)),
            Input::Value => put(&mut self.value, read_value(tokens)),
            Input::SecondValue => put(&mut self.second_value, read_value(tokens)),
            Input::Type => put(&mut self.dtype, read_type(tokens)),
            Input::SecondType => put(&mut self.second_dtype, read_type(tokens)),
            Input::Scalars => put(&mut self.scalars, read_list(tokens)),
            Input::Entries => put(&mut self.entries, read_list(tokens)),
            Input::Names => put(&mut self.fields.names, read_list(tokens)),
            Input::Types => put(&mut self.fields.dtypes, read_list(tokens)),
            Input::TypeIds => put(&mut self.fields.type_ids, read_list(tokens)),
            Input::Fields => put(&mut self.fields, read_struct_fields(tokens)),
            Input::Variants => put(&mut self.fields, read_variants(tokens)),
            Input::Text => put(&mut self.text, read_text(tokens)),
            Input::String => put(&mut self.string, read_string(tokens)),
            Input::Bytes => put(&mut self.bytes, read_bytes(tokens)),
            Input::SecondBytes => put(&mut self.second_bytes, read_bytes(tokens)),
            _ => read_word(self, input, tokens),
        }
    }

    fn is_same(&self, copy: &Given) -> bool {
        have_same_scalars(self, copy)
            && self.dtype == copy.dtype
            && self.second_dtype == copy.second_dtype
            && self.fields.names == copy.fields.names
            && self.text == copy.text
            && self.bytes == copy.bytes
            && self.second_bytes == copy.second_bytes
    }
}

/// Reads an input that is one word.
fn read_word(given: &mut Given, input: Input, tokens: &mut Tokens<'_>) {
    match input {
        Input::TypeId => given.type_id = read_id(tokens),
        Input::Number => given.number = read_natural(tokens, u64::MAX) as usize,
        Input::Integer => given.integer = read_integer(tokens),
        Input::PType => given.ptype = read_ptype(tokens),
        Input::Nullability => given.nullability = read_nullability(tokens),
        Input::Truth => given.is_true = read_truth(tokens),
        Input::View => given.view = read_view(tokens),
        Input::RustType => given.rust = read_rust_type(tokens),
        _ => given.text_type = read_text_type(tokens),
    }
}

/// Whether two inputs have exactly the same scalars and raw values.
fn have_same_scalars(a: &Given, b: &Given) -> bool {
    same_scalar(&a.scalar, &b.scalar)
        && same_scalar(&a.second, &b.second)
        && same_raw(a.value.as_ref(), b.value.as_ref())
        && same_raw(a.second_value.as_ref(), b.second_value.as_ref())
}

/// The null scalar, which stands for one that is not given.
pub fn no_scalar() -> Scalar {
    Scalar {
        dtype: DType::Null,
        value: None,
    }
}

/// Takes a scalar from its place.
pub fn take_scalar(place: &mut Scalar) -> Scalar
    ensures { result ≡ place.old }
{
    replace(place, no_scalar())
}

/// Takes a type from its place.
pub fn take_type(place: &mut DType) -> DType {
    replace(place, DType::Null)
}

/// Takes scalars from their place.
pub fn take_scalars(place: &mut Vec<Scalar>, alloc: Global) -> Vec<Scalar>
    ensures { result ≡ place.old }
{
    replace(place, Vec::new(alloc))
}

/// Takes keys and values from their place.
pub fn take_entries(place: &mut Vec<(Scalar, Scalar)>, alloc: Global) -> Vec<(Scalar, Scalar)>
    ensures { result ≡ place.old }
{
    replace(place, Vec::new(alloc))
}

/// Takes fields from their place.
pub fn take_fields(place: &mut Fields, alloc: Global) -> Fields {
    replace(place, no_fields(alloc))
}

/// Takes a string from its place.
pub fn take_text(place: &mut BufferString, alloc: Global) -> BufferString {
    replace(place, no_text(alloc))
}

/// Takes bytes from their place.
pub fn take_bytes(place: &mut ByteBuffer, alloc: Global) -> ByteBuffer {
    replace(place, no_bytes(alloc))
}
