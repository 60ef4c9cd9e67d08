//! What a store says of a forget.

/// What a forget dropped. The store has changed if it dropped a batch.
#[derive(Clone, Copy, Debug, PartialEq, Eq)]
pub struct Forgotten {
    /// How many batches, at most 1,048,576.
    pub batches: u32,
    /// How many rows they had, all of them deleted.
    pub rows: u64,
}
