//! The commands that change a folder of parts, and how a folder's parts are read.
#![tactic(auto)]

mod checked_part;
mod folder_changes;
mod folders;
mod forgetting;
mod judge;
mod judged_puts;
mod named_imports;
mod packing;
mod part_failures;
mod part_heads;
mod putting;
mod replacing;
mod rounds;
mod told_folder;

pub use checked_part::{CheckedPart, PartReason};
pub use folder_changes::{apply, create, delete, delete_held_rows, delete_rows, import};
pub use folders::{Opened, Opens, Parts, open_folder};
pub use forgetting::forget_folder;
pub use packing::pack;
pub use part_failures::{Unread, at_place, refused, unread_for};
pub use putting::make_folder;
pub use rounds::Rounds;
