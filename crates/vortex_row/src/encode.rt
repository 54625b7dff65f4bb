//! Keys, written into a slice from an offset on. Each part of a key has one function here, which
//! scalars and plain values share.

mod bytes;
mod numbers;
mod strings;
mod values;

pub(crate) use bytes::put;
pub(crate) use numbers::{put_integer, put_upward};
pub(crate) use strings::put_string;
pub(crate) use values::put_column;
