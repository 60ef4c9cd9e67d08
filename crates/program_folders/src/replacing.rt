//! What came of putting a part in the place of those that it was made of, under the folder's exclusive lock.

use crate::putting::kept;
use file_protocol::Replaced;
use program_failures::Failure;
use program_inputs::Host;
use refusal_sentences::CommandRefusal;
use table_model::Refusal;

/// What is said of a part that is not known to be on the disk.
const NOT_ON_DISK: &str =
    "the joined part was added, but it could not be synced, so no part is removed";

/// What came of a round of a pack or a forget.
#[derive(Clone, Copy, Debug, PartialEq, Eq)]
pub enum Round {
    /// A part was put, and so many parts were removed.
    Replaced(usize),
    /// Another pack or a forget was there: one of the parts is gone, or the new one.
    Overtaken,
    /// There is nothing to be joined.
    Idle,
}

/// What came of a part that was put in the place of others. If one of them was gone, nothing was put or removed: what another pack or a
/// forget has put has taken its place, and a forget may have dropped what this part would bring back. If the new part could not be
/// synced, nothing is removed, and `WriteFault` is the refusal.
pub fn round_of<R: Host>(
    rt: &R,
    folder: &str,
    done: folder_commands::Replaced,
) -> Result<Round, Failure> {
    let Some(outcome) = done.outcome else {
        return Ok(Round::Overtaken);
    };
    match kept(rt, folder, done.name.as_str(), outcome)? {
        Some(Replaced::Synced) => Ok(Round::Replaced(done.gone.len())),
        Some(Replaced::Unsynced) => Err(not_on_disk(rt, folder)),
        None => Ok(Round::Overtaken),
    }
}

/// The refusal of a part that is not known to be on the disk.
fn not_on_disk<R: AllocGlobal>(rt: &R, folder: &str) -> Failure {
    let refusal = CommandRefusal::from(Refusal::WriteFault);
    Failure::advised(rt.alloc(), refusal, folder, NOT_ON_DISK)
}
