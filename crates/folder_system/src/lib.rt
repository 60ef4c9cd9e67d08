//! A folder of parts in the file system: its names are listed under a lock, and files come whole, replace none, and go under the lock.
#![tactic(auto)]

mod fault;
mod keeping;
mod listing;
mod lock;
mod making;
mod modes;
mod names;
mod refusals;
mod sweeping;
mod system;
mod temporary;

pub use fault::FolderFault;
pub use making::{MakeFault, make};
pub use names::{is_link, path_in, temporary_name};
pub use system::{SystemFolder, read_part};
