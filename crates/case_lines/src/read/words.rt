//! Reads words: of integer types, of views, of Rust types, and the like.

use crate::read::types::ptype_named;
use crate::read::{named, read_named};
use crate::tokens::Tokens;
use vortex_dtype::{Nullability, PType};

/// Reads `nullable` or `non_nullable`.
pub fn read_nullability(tokens: &mut Tokens<'_>) -> Nullability {
    const WORDS: [(&str, Nullability); 2] = [
        ("nullable", Nullability::Nullable),
        ("non_nullable", Nullability::NonNullable),
    ];
    read_named(tokens, &WORDS, Nullability::NonNullable)
}

/// Reads the name of an integer type.
pub fn read_ptype(tokens: &mut Tokens<'_>) -> PType {
    let ptype = ptype_named(tokens.word());
    tokens.or_bad(ptype, PType::U8)
}

/// Reads `true` or `false`.
pub fn read_truth(tokens: &mut Tokens<'_>) -> bool {
    read_named(tokens, &[("true", true), ("false", false)], false)
}

/// The views that a line can name.
#[derive(Clone, Copy)]
pub enum View {
    Bool,
    Utf8,
    Binary,
    Primitive,
    List,
    Map,
    Union,
    Struct,
    Extension,
}

/// Reads the name of a view.
pub fn read_view(tokens: &mut Tokens<'_>) -> View {
    const VIEWS: [(&str, View); 9] = [
        ("BoolScalar", View::Bool),
        ("Utf8Scalar", View::Utf8),
        ("BinaryScalar", View::Binary),
        ("PrimitiveScalar", View::Primitive),
        ("ListScalar", View::List),
        ("MapScalar", View::Map),
        ("UnionScalar", View::Union),
        ("StructScalar", View::Struct),
        ("ExtScalar", View::Extension),
    ];
    read_named(tokens, &VIEWS, View::Bool)
}

/// The types of strings that can be incremented.
#[derive(Clone, Copy)]
pub enum TextType {
    String,
    Buffer,
}

/// Reads the name of a type of strings.
pub fn read_text_type(tokens: &mut Tokens<'_>) -> TextType {
    const TEXT_TYPES: [(&str, TextType); 2] = [
        ("string", TextType::String),
        ("buffer_string", TextType::Buffer),
    ];
    read_named(tokens, &TEXT_TYPES, TextType::String)
}

/// A Rust type: a leaf, which may be an `Option`, inside so many vectors.
#[derive(Clone, Copy)]
pub struct RustType {
    pub vectors: u32,
    pub is_optional: bool,
    pub leaf: RustLeaf,
}

/// The Rust types that contain no other.
#[derive(Clone, Copy)]
pub enum RustLeaf {
    Bool,
    Number(PType),
    Usize,
    Text,
    Buffer,
    Bytes,
}

const LEAVES: [(&str, RustLeaf); 5] = [
    ("bool", RustLeaf::Bool),
    ("usize", RustLeaf::Usize),
    ("string", RustLeaf::Text),
    ("buffer_string", RustLeaf::Buffer),
    ("bytes", RustLeaf::Bytes),
];

/// How deep vectors may nest.
const MOST_VECTORS: u32 = 3;

/// Reads a Rust type: at most three times `vec`, then `option` or not, and the leaf.
pub fn read_rust_type(tokens: &mut Tokens<'_>) -> RustType {
    let mut vectors = 0u32;
    let mut word = tokens.word();
    for _ in 0..MOST_VECTORS {
        if word == b"vec".as_slice() {
            vectors = vectors.saturating_add(1);
            word = next_word(tokens);
        }
    }
    let is_optional = word == b"option".as_slice();
    if is_optional {
        word = next_word(tokens);
    }
    RustType {
        vectors,
        is_optional,
        leaf: tokens.or_bad(leaf_named(word), RustLeaf::Bool),
    }
}

fn next_word<'a>(tokens: &mut Tokens<'a>) -> &'a [u8] {
    tokens.spaces();
    tokens.word()
}

fn leaf_named(word: &[u8]) -> Option<RustLeaf> {
    match named(&LEAVES, word) {
        None => ptype_named(word).map(RustLeaf::Number),
        leaf => leaf,
    }
}
