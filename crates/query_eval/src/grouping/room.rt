//! Room for what is known of a vector's rows.

use crate::grouping::key_columns::KeyColumn;
use crate::grouping::split::Split;
use std::alloc::Global;

/// Room for what is known of a vector's rows, one vector after another: the decoded grouping columns, the values of a decoded column, of
/// runs or of codes, a column's packed values, and the rows split by their groups.
#[derive(Drop)]
pub struct Room {
    pub keys: Vec<KeyColumn>,
    pub values: [i64; 1024],
    pub packed: [i64; 1024],
    pub split: Split,
}

impl Room {
    /// Room in which nothing is known. It takes no memory yet.
    pub fn new(alloc: Global) -> Room {
        Room {
            keys: Vec::new(alloc),
            values: [0; 1024],
            packed: [0; 1024],
            split: Split::none(alloc),
        }
    }
}
