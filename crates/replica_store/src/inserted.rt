//! How an insert was answered.

/// Whether an inserted batch is new, or was held already with the same rows.
#[derive(Clone, Copy, Debug, PartialEq, Eq)]
pub enum Inserted {
    /// The batch has come.
    New,
    /// The batch was held already, with the same rows.
    Already,
}
