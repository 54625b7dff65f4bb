//! The type of a scalar, and the parts that types are made of.

ghost use Rattle.std.specs.Prelude.{◌≡◌, ◌↔◌, IfOk, IsTrue, MatchResult, option_map, fold};
ghost use Rattle.vortex_dtype.specs.Words.{IsFlat, OutOfMemory, RefusesOrNoMemory, Same, as_nullable, element_in};
ghost use Rattle.vortex_dtype.specs.Words.{erase, ext_of, extension_in, fields_in, fields_of, is_binary_type};
ghost use Rattle.vortex_dtype.specs.Words.{is_extension_type, is_map_type, is_nullable, is_union_type, is_utf8_type};
ghost use Rattle.vortex_dtype.specs.Words.{key_cause, map_in, map_of, map_type, nullability_of, tree_feed, type_of};
ghost use Rattle.vortex_dtype.specs.Words.{variants_in, variants_of};

use crate::buffer::{BufferString, ByteBuffer};
use crate::error::VortexError;
use crate::names::FieldName;
use crate::nullability::Nullability;
use crate::ptype::PType;
use std::alloc::Global;
use std::hash::Hasher;
use std::sync::Arc;

mod copies;
mod equality;
mod extensions;
mod fields;
mod hashing;
mod maps;
pub mod variants;

/// The type of a scalar. A contract sees it as a tree.
///
/// Ports `vortex_array::dtype::DType`.
#[cycle(dtype)]
#[derive(Debug, Drop)]
pub enum DType {
    /// The type of nulls alone.
    Null,
    /// Truth values.
    Bool(Nullability),
    /// Integers of one `PType`.
    Primitive(PType, Nullability),
    /// Strings, as UTF-8.
    Utf8(Nullability),
    /// Bytes.
    Binary(Nullability),
    /// Lists of any length.
    List(Box<DType>, Nullability),
    /// Lists of one fixed length.
    FixedSizeList(Box<DType>, u32, Nullability),
    /// Maps from keys to values.
    Map(MapDType, Nullability),
    /// Structs with named fields.
    Struct(StructFields, Nullability),
    /// A value of one of several types.
    Union(UnionVariants, Nullability),
    /// A value of any type, held together with that type.
    Variant(Nullability),
    /// A type with a name of its own, over a storage type.
    Extension(ExtDType),
}

/// The key and the value type of a map. The key takes no null: `try_new` refuses one that does.
///
/// Ports `vortex_array::dtype::MapDType`.
#[cycle(dtype)]
#[derive(Debug, Drop)]
pub struct MapDType {
    key: Box<DType>,
    value: Box<DType>,
    keys_sorted: bool,
}

/// The names of a struct's fields and as many types, in order. Names may repeat.
///
/// Ports `vortex_array::dtype::StructFields`.
#[cycle(dtype)]
#[derive(Debug, Drop)]
pub struct StructFields {
    held: HeldFields,
}

/// The two ways to hold fields: shared with the copies, or alone if there was no memory for that.
#[cycle(dtype)]
#[derive(Debug, Drop)]
enum HeldFields {
    Shared(Arc<FieldLists>),
    Own(FieldLists),
}

/// The names and the types of fields.
#[cycle(dtype)]
#[derive(Debug, Drop)]
struct FieldLists {
    names: Vec<FieldName>,
    dtypes: Vec<DType>,
}

/// The names of a union's variants, as many types and as many ids, in order. Names may repeat. Ids
/// are distinct: `try_new` refuses others.
///
/// Ports `vortex_array::dtype::UnionVariants`.
#[cycle(dtype)]
#[derive(Debug, Drop)]
pub struct UnionVariants {
    names: Vec<FieldName>,
    dtypes: Vec<DType>,
    type_ids: Vec<u8>,
}

/// The id of an extension, its metadata and its storage type.
///
/// Ports `vortex_array::dtype::extension::ExtDTypeRef`.
#[cycle(dtype)]
#[derive(Debug, Drop)]
pub struct ExtDType {
    id: BufferString,
    metadata: ByteBuffer,
    storage: Box<DType>,
}

impl DType {
    /// The map type with these parts. `BadType` with `NullableKey` exactly if the key takes a null,
    /// tested before any allocation. Otherwise `OutOfMemory` if there is no memory.
    pub fn map(
        alloc: Global,
        key: DType,
        value: DType,
        keys_sorted: bool,
        nullability: Nullability,
    ) -> Result<DType, VortexError>
        ensures refused { RefusesOrNoMemory (key_cause (type_of key)) result }
        ensures made { IfOk result (λ dtype. type_of dtype
            ≡ map_type (type_of key) (type_of value) keys_sorted nullability) }
    {
        let map = MapDType::try_new(alloc, key, value, keys_sorted)?;
        Ok(DType::Map(map, nullability))
    }

    /// The outer nullability. An extension has that of its storage, and the type of nulls is
    /// `Nullable`.
    pub fn nullability(&self) -> Nullability
        ensures { result ≡ nullability_of (type_of self.now) }
    {
        match self {
            DType::Null => Nullability::Nullable,
            DType::Bool(nullability)
            | DType::Primitive(_, nullability)
            | DType::Utf8(nullability)
            | DType::Binary(nullability)
            | DType::List(_, nullability)
            | DType::FixedSizeList(_, _, nullability)
            | DType::Map(_, nullability)
            | DType::Struct(_, nullability)
            | DType::Union(_, nullability)
            | DType::Variant(nullability) => *nullability,
            DType::Extension(extension) => extension.storage.nullability(),
        }
    }

    /// Whether the type takes a null.
    pub fn is_nullable(&self) -> bool
        ensures { result ≡ is_nullable (type_of self.now) }
    {
        match self.nullability() {
            Nullability::NonNullable => false,
            Nullability::Nullable => true,
        }
    }

    /// This type with the outer nullability `Nullable`. Of an extension, the storage becomes
    /// nullable.
    #[cycle(as_nullable)]
    pub fn as_nullable(self) -> DType
        ensures { type_of result ≡ as_nullable (type_of self) }
    {
        match self {
            DType::Null => DType::Null,
            DType::Bool(_) => DType::Bool(Nullability::Nullable),
            DType::Primitive(ptype, _) => DType::Primitive(ptype, Nullability::Nullable),
            DType::Utf8(_) => DType::Utf8(Nullability::Nullable),
            DType::Binary(_) => DType::Binary(Nullability::Nullable),
            DType::List(element, _) => DType::List(element, Nullability::Nullable),
            DType::FixedSizeList(element, size, _) => {
                DType::FixedSizeList(element, size, Nullability::Nullable)
            }
            DType::Map(map, _) => DType::Map(map, Nullability::Nullable),
            DType::Struct(fields, _) => DType::Struct(fields, Nullability::Nullable),
            DType::Union(variants, _) => DType::Union(variants, Nullability::Nullable),
            DType::Variant(_) => DType::Variant(Nullability::Nullable),
            DType::Extension(extension) => DType::Extension(extension.as_nullable()),
        }
    }

    /// Whether the types are equal if nullability is ignored at every depth.
    pub fn eq_ignore_nullability(&self, other: &DType) -> bool
        ensures { IsTrue result ↔ Same (type_of self.now) (type_of other.now) }
    {
        equality::equal(false, self, other)
    }

    /// Feeds the hasher, ignoring nullability at every depth.
    pub fn hash_ignore_nullability<H: Hasher>(&self, state: &mut H)
        ensures { state.new ≡ fold H.write state.old (tree_feed (erase (type_of self.now))) }
    {
        hashing::feed(false, self, state);
    }

    /// Whether the type is `Utf8`. An extension over `Utf8` is not.
    pub fn is_utf8(&self) -> bool
        ensures { result ≡ is_utf8_type (type_of self.now) }
    {
        matches!(self, DType::Utf8(_))
    }

    /// Whether the type is `Binary`. An extension over `Binary` is not.
    pub fn is_binary(&self) -> bool
        ensures { result ≡ is_binary_type (type_of self.now) }
    {
        matches!(self, DType::Binary(_))
    }

    /// Whether the type is a map. An extension over one is not.
    pub fn is_map(&self) -> bool
        ensures { result ≡ is_map_type (type_of self.now) }
    {
        matches!(self, DType::Map(_, _))
    }

    /// Whether the type is a union. An extension over one is not.
    pub fn is_union(&self) -> bool
        ensures { result ≡ is_union_type (type_of self.now) }
    {
        matches!(self, DType::Union(_, _))
    }

    /// Whether the type is an extension.
    pub fn is_extension(&self) -> bool
        ensures { result ≡ is_extension_type (type_of self.now) }
    {
        matches!(self, DType::Extension(_))
    }

    /// The key and value types of a map type. `None` exactly for another type.
    pub fn as_map_opt(&self) -> Option<&MapDType>
        ensures { option_map (λ map. map_of map.now) result ≡ map_in (type_of self.now) }
    {
        match self {
            DType::Map(map, _) => Some(map),
            _ => None,
        }
    }

    /// The fields of a struct type. `None` exactly for another type.
    pub fn as_struct_fields_opt(&self) -> Option<&StructFields>
        ensures { option_map (λ fields. fields_of fields.now) result
            ≡ fields_in (type_of self.now) }
    {
        match self {
            DType::Struct(fields, _) => Some(fields),
            _ => None,
        }
    }

    /// The variants of a union type. `None` exactly for another type.
    pub fn as_union_variants_opt(&self) -> Option<&UnionVariants>
        ensures { option_map (λ variants. variants_of variants.now) result
            ≡ variants_in (type_of self.now) }
    {
        match self {
            DType::Union(variants, _) => Some(variants),
            _ => None,
        }
    }

    /// The parts of an extension type. `None` exactly for another type.
    pub fn as_extension_opt(&self) -> Option<&ExtDType>
        ensures { option_map (λ extension. ext_of extension.now) result
            ≡ extension_in (type_of self.now) }
    {
        match self {
            DType::Extension(extension) => Some(extension),
            _ => None,
        }
    }

    /// The element type of a list, of fixed size or not. `None` exactly for another type.
    pub fn as_any_size_list_element_opt(&self) -> Option<&DType>
        ensures { option_map (λ element. type_of element.now) result
            ≡ element_in (type_of self.now) }
    {
        match self {
            DType::List(element, _) => Some(element),
            DType::FixedSizeList(element, _, _) => Some(element),
            _ => None,
        }
    }

    /// A copy of the type, with every nullability. `OutOfMemory` if there is no memory, which never
    /// happens for the type of nulls, `Bool` and integers.
    #[inline(always)]
    pub fn clone(&self, alloc: Global) -> Result<DType, VortexError>
        ensures { MatchResult result
            (λ copy. type_of copy ≡ type_of self.now)
            (λ e. (e ≡ OutOfMemory) × ¬ (IsFlat (type_of self.now))) }
    {
        copies::copy(alloc, self)
    }
}
