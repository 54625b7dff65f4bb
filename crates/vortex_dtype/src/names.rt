//! The names of fields and variants.

ghost use Rattle.std.specs.Prelude.{◌≡◌, length, option_map, slice_get};
ghost use Rattle.vortex_dtype.specs.Words.{GivesOrNoMemory, iter_rest, names_in};

use crate::buffer::BufferString;
use crate::error::VortexError;
use std::alloc::Global;
use std::marker::Model;
use std::slice;

/// The name of a field or a variant. A contract sees it as its list of bytes.
///
/// Ports `vortex_array::dtype::FieldName`.
#[derive(Debug, Drop, PartialEq, Eq, Hash)]
pub struct FieldName {
    text: BufferString,
}

impl Model for FieldName {
    ghost use Rattle.std.specs.Prelude.{ℕ, List};

    ghost Value = { List ℕ };

    ghost view = { λ name. name.text };

    ghost inverse = { λ text. record { text = text } };
}

impl FieldName {
    /// The name that this string is.
    ///
    /// Ports `FieldName::from`.
    pub fn new(text: BufferString) -> FieldName
        ensures { result ≡ text }
    {
        FieldName { text }
    }

    /// The name as a string.
    ///
    /// Ports `FieldName::as_ref`, as a `&str`.
    pub fn as_str(&self) -> &str
        ensures { result.now ≡ self.now }
    {
        self.text.as_str()
    }

    /// A copy of the name, which shares its string. If that has as many owners as can be counted,
    /// the string is copied, and only then can the call answer `OutOfMemory`.
    pub fn clone(&self, _alloc: Global) -> Result<FieldName, VortexError>
        ensures { GivesOrNoMemory (λ name. name ≡ self.now) result }
    {
        let text = self.text.clone()?;
        Ok(FieldName { text })
    }
}

/// The names of the fields or variants of a type, in order. A contract sees them as a list.
///
/// Ports `vortex_array::dtype::FieldNames`, which shares the names instead of borrowing them.
#[derive(Clone, Copy, Debug)]
pub struct FieldNames<'a> {
    names: &'a [FieldName],
}

impl<'a> FieldNames<'a> {
    /// Borrows these names.
    pub(crate) fn of(names: &'a [FieldName]) -> FieldNames<'a>
        ensures { names_in result ≡ names.now }
    {
        FieldNames { names }
    }

    /// How many names there are.
    pub fn len(&self) -> usize
        ensures { result ≡ length (names_in self.now) }
    {
        self.names.len()
    }

    /// The name at this place. `None` exactly past the end.
    pub fn get(&self, index: usize) -> Option<&'a FieldName>
        ensures { option_map (λ name. name.now) result ≡ slice_get (names_in self.now) index }
    {
        self.names.get(index)
    }

    /// The names in order, each once.
    pub fn iter(&self) -> slice::Iter<'a, FieldName>
        ensures { iter_rest result ≡ names_in self.now }
    {
        self.names.iter()
    }
}
