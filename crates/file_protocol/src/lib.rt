//! Files that are replaced whole, whatever moment a crash comes at: a file's lock is the new file, which takes the old one's place once it
//! is written.
#![tactic(auto)]

mod folder;
mod holding;
mod keeping;
mod laws;
mod names;
mod outcome;
mod place;
mod record;
mod replacing;
mod system;
mod watch;

pub use folder::FileFolder;
pub use holding::{HoldError, hold, try_hold};
pub use keeping::keep;
pub use laws::{holding_then_replacing, owners_leave_alone, restarts};
pub use names::folder_of;
pub use outcome::{ReplaceError, Replaced};
pub use place::Place;
pub use record::FileRecord;
pub use replacing::replace;
pub use system::SystemFileFolder;
pub use watch::{ReadWatch, Unwatched};
