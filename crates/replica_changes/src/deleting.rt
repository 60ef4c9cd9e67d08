//! What a delete answers.

/// What a delete by a condition did. The store has changed if there were such rows.
#[derive(Clone, Copy, Debug, PartialEq, Eq)]
pub struct Deleted {
    /// How many rows were deleted.
    pub rows: u64,
}

/// What a delete of a range of rows did.
#[derive(Clone, Copy, Debug, PartialEq, Eq)]
pub struct DeletedRows {
    /// Whether one of the rows wasn't deleted before, so that the store has changed.
    pub is_changed: bool,
}
