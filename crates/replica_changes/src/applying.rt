//! What an apply of offers answers.

/// What a store has once offers were applied to it.
#[derive(Clone, Copy, Debug, PartialEq, Eq)]
pub struct Applied {
    /// How many batches, at most 1,048,576.
    pub batches: u32,
    /// How many maximal ranges of deleted rows.
    pub ranges: u64,
    /// How many of the batches the store did not have before.
    pub new: u32,
    /// Whether one of the offers had something that the store did not have, so that it has changed.
    pub is_changed: bool,
}
