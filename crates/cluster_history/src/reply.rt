//! Replies to steps.

use crate::file_bytes::FileBytes;
use replica_store::Inserted;
use table_model::{Answer, BatchName, Refusal};

/// What a step is answered.
#[derive(Drop)]
pub enum Reply {
    /// The step is done.
    Done,
    /// A batch was added under this name.
    Named(BatchName),
    /// A batch was inserted under the name that was given, or was held already.
    Put(Inserted),
    /// This many rows were deleted that were not deleted before.
    Deleted(u64),
    /// A message was made, with this number.
    Sent(u32),
    /// The canonical file of a replica.
    File(FileBytes),
    /// The answer of a query.
    Answered(Answer),
    /// The step was refused, and changed nothing.
    Refused(Refusal),
}
