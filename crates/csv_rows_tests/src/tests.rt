//! Texts, and the rows or the first fault that they have, by the grammar and by hand.
use std::alloc::Global;
use table_model::{ColType, Refusal, Schema};

/// A table of a TINYINT, a SMALLINT and a BIGINT.
pub fn three(alloc: Global) -> Result<Schema, Refusal> {
    let columns = [
        ("A", ColType::TinyInt),
        ("B", ColType::SmallInt),
        ("C", ColType::BigInt),
    ];
    Schema::new(alloc, "T", &columns)
}
