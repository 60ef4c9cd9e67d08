//! The commands that change a file, and the file that a merge writes.
#![tactic(auto)]

mod change;
mod changing;
mod output;
mod schemas;
mod watched_folder;

pub use changing::{apply, create, delete, delete_rows, forget, import};
pub use output::{Output, is_special, write_in_place};
pub use watched_folder::WatchedFolder;
