//! The operators of checked arithmetic.

/// An operator on two numbers.
///
/// Ports `vortex_array::scalar::NumericOperator`.
#[derive(Clone, Copy, Debug, PartialEq, Eq)]
pub enum NumericOperator {
    /// The sum.
    Add,
    /// The first number minus the second.
    Sub,
    /// The product.
    Mul,
    /// The quotient, rounded toward zero.
    Div,
}
