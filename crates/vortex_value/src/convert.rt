//! Conversions between scalars and Rust values.

mod from_scalar;
mod into_scalar;
mod primitive;
