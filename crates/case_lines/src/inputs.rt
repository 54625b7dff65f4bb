//! What lines give to calls.

use crate::tokens::Tokens;
use std::alloc::Global;

/// What a line gives to the calls of a family. Each input has a place of its own, which stays empty if
/// the call does not ask for it. So all that a line owns stands, and is dropped, in one place.
pub trait Inputs: Drop {
    /// Which input.
    type Input: Copy;

    /// Inputs that are all empty.
    fn empty(alloc: Global) -> Self;

    /// Reads an input into its place.
    fn read(&mut self, input: Self::Input, tokens: &mut Tokens<'_>);

    /// Whether what calls borrow is exactly the same as in a copy.
    fn is_same(&self, copy: &Self) -> bool;
}

/// Puts an input into its place. An assignment in the arms of `read` would write out the drop of what the
/// place had, and is dear to prove.
pub fn put<T: Drop>(place: &mut T, input: T) {
    *place = input;
}

/// A call by the name that lines use, and what a line gives it, in order.
pub type Named<C, I> = (&'static str, C, &'static [I]);

/// The call of this name, and what a line gives it.
pub fn call_named<'a, C: Copy, I>(
    table: &[(&str, C, &'a [I])],
    name: &[u8],
) -> Option<(C, &'a [I])> {
    let (_, call, inputs) = table.iter().find(|(word, _, _)| word.as_bytes() == name)?;
    Some((*call, *inputs))
}
