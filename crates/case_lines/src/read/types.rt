//! Reads types.

ghost use Rattle.std.specs.Prelude.{◌+◌, ◌≡◌, IfSome};

use crate::read::named;
use crate::read::numbers::read_natural;
use crate::read::texts::{bytes_of_hex, push_name, read_name};
use crate::tokens::Tokens;
use std::alloc::Global;
use vortex_dtype::{
    BufferString, ByteBuffer, DType, ExtDType, FieldName, PType, StructFields, UnionVariants,
    VortexError,
};

/// The beginning of a type.
#[derive(Clone, Copy)]
enum Head {
    Null,
    Bool,
    Integer(PType),
    Utf8,
    Binary,
    Variant,
    List,
    FixedSizeList,
    Map,
    Struct,
    Union,
    Extension,
}

const HEADS: [(&str, Head); 10] = [
    ("null", Head::Null),
    ("bool", Head::Bool),
    ("utf8", Head::Utf8),
    ("binary", Head::Binary),
    ("variant", Head::Variant),
    ("list", Head::List),
    ("fsl", Head::FixedSizeList),
    ("map", Head::Map),
    ("union", Head::Union),
    ("ext", Head::Extension),
];

const PTYPES: [(&str, PType); 8] = [
    ("u8", PType::U8),
    ("u16", PType::U16),
    ("u32", PType::U32),
    ("u64", PType::U64),
    ("i8", PType::I8),
    ("i16", PType::I16),
    ("i32", PType::I32),
    ("i64", PType::I64),
];

/// The integer type of this name.
pub fn ptype_named(word: &[u8]) -> Option<PType> {
    named(&PTYPES, word)
}

/// Reads the beginning of a type, with the bracket that opens its parts.
fn read_head(tokens: &mut Tokens<'_>) -> Head {
    if tokens.takes(b'{') {
        return Head::Struct;
    }
    let head = head_named(tokens.word());
    if let Some(
        Head::List | Head::FixedSizeList | Head::Map | Head::Union | Head::Extension,
    ) = head
    {
        tokens.expect(b'(');
    }
    tokens.or_bad(head, Head::Null)
}

fn head_named(word: &[u8]) -> Option<Head> {
    match named(&HEADS, word) {
        None => ptype_named(word).map(Head::Integer),
        head => head,
    }
}

/// How many brackets may open inside one more bracket. Without room for that one the line nests too
/// deep.
pub fn within(tokens: &mut Tokens<'_>, room: usize) -> Option<usize>
    ensures { IfSome result (λ left. left + 1 ≡ room) }
{
    let left = room.checked_sub(1);
    if left.is_none() {
        tokens.too_deep();
    }
    left
}

/// Reads a type. `Null` stands for a type that was refused.
pub fn read_type(tokens: &mut Tokens<'_>) -> DType {
    let room = tokens.room;
    type_within(tokens, room)
}

/// Reads the fields of a struct type, in braces.
pub fn read_struct_fields(tokens: &mut Tokens<'_>) -> Fields {
    tokens.expect(b'{');
    let room = tokens.room;
    fields_within(tokens, false, b'}', room)
}

/// Reads the variants of a union type, in parentheses.
pub fn read_variants(tokens: &mut Tokens<'_>) -> Fields {
    tokens.expect(b'(');
    let room = tokens.room;
    fields_within(tokens, true, b')', room)
}

/// Reads a type with at most `room` brackets open at a time.
#[cycle(types)]
pub fn type_within(tokens: &mut Tokens<'_>, room: usize) -> DType {
    match read_head(tokens) {
        Head::Null => DType::Null,
        Head::Bool => DType::Bool(tokens.nullability()),
        Head::Integer(ptype) => DType::Primitive(ptype, tokens.nullability()),
        Head::Utf8 => DType::Utf8(tokens.nullability()),
        Head::Binary => DType::Binary(tokens.nullability()),
        Head::Variant => DType::Variant(tokens.nullability()),
        head => match within(tokens, room) {
            Some(room) => {
                let made = read_parts(tokens, head, room);
                tokens.made(made).unwrap_or(DType::Null)
            }
            None => DType::Null,
        },
    }
}

/// Reads the parts of a type, and what closes them.
#[cycle(types)]
fn read_parts(tokens: &mut Tokens<'_>, head: Head, room: usize) -> Result<DType, VortexError> {
    match head {
        Head::FixedSizeList => {
            let element = type_within(tokens, room);
            fixed_size_list_of(tokens, element)
        }
        Head::Map => {
            let key = type_within(tokens, room);
            tokens.expect(b',');
            let value = type_within(tokens, room);
            map_of(tokens, key, value)
        }
        Head::Struct => {
            let fields = fields_within(tokens, false, b'}', room);
            struct_of(tokens, fields)
        }
        Head::Union => {
            let fields = fields_within(tokens, true, b')', room);
            union_of(tokens, fields)
        }
        Head::Extension => {
            let (id, metadata) = read_extension_head(tokens);
            let storage = type_within(tokens, room);
            extension_of(tokens, id, metadata, storage)
        }
        _ => {
            let element = type_within(tokens, room);
            list_of(tokens, element)
        }
    }
}

/// The names and types of fields or variants, and the variants' ids.
#[derive(Drop)]
pub struct Fields {
    pub names: Vec<FieldName>,
    pub dtypes: Vec<DType>,
    pub type_ids: Vec<u8>,
}

/// No fields.
pub fn no_fields(alloc: Global) -> Fields {
    Fields {
        names: Vec::new(alloc),
        dtypes: Vec::new(alloc),
        type_ids: Vec::new(alloc),
    }
}

/// The fields of a struct type.
pub fn struct_fields(alloc: Global, fields: Fields) -> Result<StructFields, VortexError> {
    if fields.names.len() != fields.dtypes.len() {
        // Only if there was no memory for one of them.
        return Err(VortexError::OutOfMemory);
    }
    StructFields::new(alloc, fields.names, fields.dtypes)
}

/// Reads fields, or variants, with at most `room` brackets open in the type of each.
#[cycle(types)]
fn fields_within(tokens: &mut Tokens<'_>, has_ids: bool, close: u8, room: usize) -> Fields {
    let mut fields = no_fields(tokens.alloc);
    for before in 0..=tokens.left() {
        if !tokens.has_item(before, close) {
            break;
        }
        read_field_head(tokens, has_ids, &mut fields);
        let dtype = type_within(tokens, room);
        tokens.push(&mut fields.dtypes, dtype);
    }
    fields
}

/// Reads what stands before a field's or variant's type: its id, if it has one, and its name.
fn read_field_head(tokens: &mut Tokens<'_>, has_ids: bool, fields: &mut Fields) {
    if has_ids {
        let id = read_id(tokens);
        tokens.push(&mut fields.type_ids, id);
    }
    push_name(tokens, &mut fields.names);
    tokens.expect(b':');
}

/// Reads the id of a variant.
pub fn read_id(tokens: &mut Tokens<'_>) -> u8 {
    read_natural(tokens, u64::from(u8::MAX)) as u8
}

/// Reads the end of a list type, after its element type.
fn list_of(tokens: &mut Tokens<'_>, element: DType) -> Result<DType, VortexError> {
    tokens.expect(b')');
    let nullability = tokens.nullability();
    Ok(DType::List(Box::new(tokens.alloc, element)?, nullability))
}

/// Reads the end of a type of lists of one size, after its element type.
fn fixed_size_list_of(tokens: &mut Tokens<'_>, element: DType) -> Result<DType, VortexError> {
    tokens.expect(b',');
    let size = read_natural(tokens, u64::from(u32::MAX)) as u32;
    tokens.expect(b')');
    let nullability = tokens.nullability();
    Ok(DType::FixedSizeList(Box::new(tokens.alloc, element)?, size, nullability))
}

/// Reads the end of a map type, after its key and value type.
fn map_of(tokens: &mut Tokens<'_>, key: DType, value: DType) -> Result<DType, VortexError> {
    let is_sorted = tokens.takes(b',');
    if is_sorted && tokens.word() != b"sorted".as_slice() {
        tokens.bad_line();
    }
    tokens.expect(b')');
    let nullability = tokens.nullability();
    DType::map(tokens.alloc, key, value, is_sorted, nullability)
}

/// Reads the end of a struct type, after its fields.
fn struct_of(tokens: &mut Tokens<'_>, fields: Fields) -> Result<DType, VortexError> {
    let nullability = tokens.nullability();
    Ok(DType::Struct(struct_fields(tokens.alloc, fields)?, nullability))
}

/// Reads the end of a union type, after its variants.
fn union_of(tokens: &mut Tokens<'_>, fields: Fields) -> Result<DType, VortexError> {
    let nullability = tokens.nullability();
    let variants = UnionVariants::try_new(
        tokens.alloc,
        fields.names,
        fields.dtypes,
        fields.type_ids,
    )?;
    Ok(DType::Union(variants, nullability))
}

/// Reads the id and the metadata of an extension type.
fn read_extension_head(tokens: &mut Tokens<'_>) -> (BufferString, ByteBuffer) {
    let id = read_name(tokens);
    tokens.expect(b',');
    let digits = tokens.word();
    let metadata = bytes_of_hex(tokens, digits);
    tokens.expect(b',');
    (id, metadata)
}

/// Reads the end of an extension type, after its storage type.
fn extension_of(
    tokens: &mut Tokens<'_>,
    id: BufferString,
    metadata: ByteBuffer,
    storage: DType,
) -> Result<DType, VortexError> {
    tokens.expect(b')');
    Ok(DType::Extension(ExtDType::new(tokens.alloc, id, metadata, storage)?))
}

/// A copy of a type; `Null` stands for one that there was no memory for.
pub fn copy_type(tokens: &mut Tokens<'_>, dtype: &DType) -> DType {
    let copy = dtype.clone(tokens.alloc);
    tokens.made(copy).unwrap_or(DType::Null)
}
