//! Rows that are asked for.

use query_eval::KeptVector;

/// Rows of a state, in order of row name: the vectors that have some of them with a mask each, and how many rows there are.
#[derive(Drop)]
pub struct ChosenRows {
    pub vectors: Vec<KeptVector>,
    pub count: usize,
}
