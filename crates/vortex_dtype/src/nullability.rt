//! Whether a type takes a null.

/// Whether a type takes a null.
///
/// Ports `vortex_array::dtype::Nullability`.
#[derive(Clone, Copy, Debug, PartialEq, Eq, Hash)]
pub enum Nullability {
    /// The type takes no null.
    NonNullable,
    /// The type takes a null.
    Nullable,
}
