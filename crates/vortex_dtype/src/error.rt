//! Why a call was refused.

ghost use Rattle.std.specs.Prelude.{◌≡◌};
ghost use Rattle.vortex_dtype.specs.Words.{OutOfMemory, lists_equiv, partial_equiv_from_equiv, pointwise};

use std::alloc::{AllocError, AllocFailed};
use std::marker::Model;
use thiserror::Error;

/// One step from a value to a part of it.
///
/// Of this port alone: upstream's errors are messages.
#[derive(Clone, Copy, Debug, PartialEq, Eq)]
pub enum Step {
    /// The element of a list at this place.
    Element(usize),
    /// The entry of a map at this place.
    Entry(usize),
    /// The key of an entry.
    Key,
    /// The value of an entry.
    Value,
    /// The field of a struct at this place.
    Field(usize),
    /// The child of a union.
    Child,
    /// The scalar inside a variant.
    Inner,
}

/// What is wrong with a raw value at the end of a path.
///
/// Of this port alone: upstream's errors are messages.
#[derive(Clone, Copy, Debug, PartialEq, Eq)]
pub enum Breach {
    /// A null, though its type takes no null.
    NullNotAllowed,
    /// A raw value whose variant does not fit the type, such as an integer of type `Utf8`.
    WrongValue,
    /// A list of fixed size, a struct or a map's entry with a wrong number of parts.
    WrongLength,
    /// A union's value with an id that no variant has.
    UnknownTypeId,
    /// A null in place of a map's entry.
    NullEntry,
    /// A variant that holds a null of a type other than Null.
    VariantNull,
}

/// Why the given parts make no type.
///
/// Of this port alone: upstream's errors are messages.
#[derive(Clone, Copy, Debug, PartialEq, Eq)]
pub enum TypeCause {
    /// The key type of a map takes a null.
    NullableKey,
    /// The numbers of names, types and ids differ.
    LengthsDiffer,
    /// Two variants of a union have the same id.
    RepeatedTypeId,
}

/// The steps from a value to one of its parts, the outermost first.
///
/// A contract sees it as the list of its steps. Of this port alone: upstream's errors are
/// messages.
#[derive(Debug, Drop)]
pub struct Path {
    steps: Vec<Step>,
}

impl Model for Path {
    ghost use Rattle.std.specs.Prelude.{List};
    ghost use Rattle.vortex_dtype.specs.declared.error.Step.{Step};

    ghost Value = { List Step };

    ghost view = { λ path. path.steps.items };
}

impl Path {
    /// The path that takes these steps.
    pub fn of(steps: Vec<Step>) -> Path
        ensures { result ≡ steps.items }
    {
        Path { steps }
    }

    /// The steps, the outermost first.
    pub fn steps(&self) -> &[Step]
        ensures { result.now ≡ self.now }
    {
        self.steps.as_slice()
    }
}

impl PartialEq for Path {
    ghost use Rattle.vortex_dtype.specs.contracts.error.StepEq.TheImpl.Laws.{laws-law as step_laws};

    ghost eq = { pointwise ⟦<Step as PartialEq>⟧.eq };

    ghost laws = { partial_equiv_from_equiv (lists_equiv step_laws) };

    fn eq(&self, other: &Path) -> bool {
        self.steps == other.steps
    }
}

impl Eq for Path {
    ghost use Rattle.vortex_dtype.specs.contracts.error.StepEq.TheImpl.Laws.{laws-law as step_laws};

    ghost laws = { lists_equiv step_laws };
}

/// Why a call was refused. What `Display` writes is for people and is not promised.
///
/// Stands for `vortex_error::VortexError`, whose errors are messages.
#[derive(Debug, Drop, PartialEq, Eq, Error)]
pub enum VortexError {
    /// An allocation was refused.
    #[error("out of memory")]
    OutOfMemory,
    /// The value is not valid for the type. This names the first breach in reading order, and the
    /// path to it.
    #[error("the value is not valid: {breach:?} at {path:?}")]
    Invalid { path: Path, breach: Breach },
    /// The type or the value has another variant than the call takes.
    #[error("a type or a value of another kind")]
    WrongKind,
    /// The type of the child at this place is not exactly the expected one.
    #[error("child {index} has another type")]
    WrongChild { index: usize },
    /// The number of parts is not the expected one.
    #[error("expected {expected} parts, found {found}")]
    WrongLength { expected: usize, found: usize },
    /// No variant of the union has the id.
    #[error("no variant has the id {id}")]
    UnknownTypeId { id: u8 },
    /// The value cannot be cast: the table of casts does not allow it, or no value of the target
    /// type has the same content.
    #[error("the value cannot be cast to the type")]
    CannotCast,
    /// The number does not fit the integer type.
    #[error("the number is out of range")]
    OutOfRange,
    /// The value has another `PType` than was asked for.
    #[error("the value has another integer kind")]
    WrongPType,
    /// A value was needed, but it is a null.
    #[error("the value is null")]
    IsNull,
    /// No field of the struct has the name.
    #[error("no field has the name")]
    NoField,
    /// The bytes are not UTF-8.
    #[error("the bytes are not UTF-8")]
    NotUtf8,
    /// A variant was to hold a null of a type other than `Null`.
    #[error("a variant holds no null of another type than Null")]
    VariantNull,
    /// There are more children than 32 bits can count.
    #[error("too many children")]
    TooMany,
    /// The two `PType`s have different widths, so that one cannot be read as the other.
    #[error("the widths differ")]
    WidthsDiffer,
    /// The given parts make no type.
    #[error("the parts make no type: {cause:?}")]
    BadType { cause: TypeCause },
}

/// Always `OutOfMemory`.
impl From<AllocError> for VortexError {
    ghost from_gives = { λ _ e. e ≡ OutOfMemory };

    fn from(_error: AllocError) -> VortexError {
        VortexError::OutOfMemory
    }
}

/// Always `OutOfMemory`. The value that could not be stored is dropped.
impl<T: Drop> From<AllocFailed<T>> for VortexError {
    ghost from_gives = { λ _ e. e ≡ OutOfMemory };

    fn from(_error: AllocFailed<T>) -> VortexError {
        VortexError::OutOfMemory
    }
}
