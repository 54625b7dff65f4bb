//! Writes types.

use crate::write::output::Output;
use crate::write::texts::write_name;
use vortex_dtype::{DType, ExtDType, MapDType, Nullability, StructFields, UnionVariants};

/// Writes the question mark of a nullable type.
fn write_nullability(out: &mut Output, nullability: Nullability) {
    if nullability == Nullability::Nullable {
        out.char('?');
    }
}

/// Writes the name of a type, and whether it is nullable.
fn write_flat(out: &mut Output, name: &str, nullability: Nullability) {
    out.word(name);
    write_nullability(out, nullability);
}

/// How deep types may nest: deeper than a line can hold, so that no type is cut.
const ROOM: u32 = 1024;

/// Writes a type.
pub fn write_type(out: &mut Output, dtype: &DType) {
    write_within(out, dtype, ROOM);
}

/// Writes a type that nests at most `room` deep. A deeper one is cut, and the output remembers it.
#[cycle(types)]
fn write_within(out: &mut Output, dtype: &DType, room: u32) {
    if room == 0 {
        return out.cut();
    }
    let room = room - 1;
    match dtype {
        DType::Null => out.word("null"),
        DType::Bool(n) => write_flat(out, "bool", *n),
        DType::Primitive(ptype, n) => write_flat(out, ptype.name(), *n),
        DType::Utf8(n) => write_flat(out, "utf8", *n),
        DType::Binary(n) => write_flat(out, "binary", *n),
        DType::Variant(n) => write_flat(out, "variant", *n),
        DType::List(element, n) => {
            out.word("list(");
            write_within(out, element, room);
            write_flat(out, ")", *n);
        }
        DType::FixedSizeList(element, size, n) => {
            out.word("fsl(");
            write_within(out, element, room);
            out.word(", ");
            out.number(*size);
            write_flat(out, ")", *n);
        }
        DType::Map(map, n) => {
            write_map(out, map, room);
            write_nullability(out, *n);
        }
        DType::Struct(fields, n) => {
            write_fields(out, fields, room);
            write_nullability(out, *n);
        }
        DType::Union(variants, n) => {
            write_variants(out, variants, room);
            write_nullability(out, *n);
        }
        DType::Extension(extension) => {
            write_extension_head(out, extension);
            write_within(out, extension.storage_dtype(), room);
            out.char(')');
        }
    }
}

#[cycle(types)]
fn write_map(out: &mut Output, map: &MapDType, room: u32) {
    out.word("map(");
    write_within(out, map.key_dtype(), room);
    out.word(", ");
    write_within(out, map.value_dtype(), room);
    out.word(if map.keys_sorted() { ", sorted)" } else { ")" });
}

#[cycle(types)]
fn write_fields(out: &mut Output, fields: &StructFields, room: u32) {
    out.char('{');
    for (place, dtype) in fields.dtypes().iter().enumerate() {
        write_field_head(out, fields, place);
        write_within(out, dtype, room);
    }
    out.char('}');
}

/// Writes the comma and the name before a field's type.
fn write_field_head(out: &mut Output, fields: &StructFields, place: usize) {
    out.comma(place);
    if let Some(name) = fields.names().get(place) {
        write_name(out, name.as_str());
    }
    out.word(": ");
}

#[cycle(types)]
fn write_variants(out: &mut Output, variants: &UnionVariants, room: u32) {
    out.word("union(");
    for place in 0..variants.len() {
        write_variant_head(out, variants, place);
        if let Some(dtype) = variants.variant_by_index(place) {
            write_within(out, dtype, room);
        }
    }
    out.char(')');
}

/// Writes the comma, the id and the name before a variant's type.
fn write_variant_head(out: &mut Output, variants: &UnionVariants, place: usize) {
    out.comma(place);
    if place < variants.len() {
        out.number(variants.child_index_to_tag(place));
    }
    out.char(' ');
    if let Some(name) = variants.names().get(place) {
        write_name(out, name.as_str());
    }
    out.word(": ");
}

/// Writes the id and the metadata before an extension's storage type.
fn write_extension_head(out: &mut Output, extension: &ExtDType) {
    out.word("ext(");
    write_name(out, extension.id().as_str());
    out.word(", ");
    out.hex(extension.metadata().as_slice());
    out.word(", ");
}
