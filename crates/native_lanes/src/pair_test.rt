//! The test of two values of a row.

/// A test of a value and another's. Each comparison of two columns is one of these or its opposite, of the two columns in one order
/// or the other.
#[derive(Clone, Copy, Debug, PartialEq, Eq)]
pub enum PairTest {
    /// The value is equal to the other.
    Equal,
    /// The value is less than the other.
    Less,
}
