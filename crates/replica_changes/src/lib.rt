//! The commands on a replica in a file, as calls over readers and writers, and what each brings to a store that is held.
#![tactic(auto)]

mod applying;
mod bringing;
mod changing;
mod command;
mod csv_reading;
mod deleting;
mod file_writing;
mod forgetting;
mod importing;
mod laws;
mod load;
mod merging;
mod naming;
mod new_file;

pub use applying::Applied;
pub use bringing::bring;
pub use changing::change_store;
pub use command::{Answer, Command};
pub use csv_reading::read_csv;
pub use deleting::{Deleted, DeletedRows};
pub use file_writing::write_changed;
pub use forgetting::{forget, forget_dead};
pub use importing::Imported;
pub use laws::{drawn_names_are_free, dump_laws, file_laws, forget_file_laws};
pub use load::Load;
pub use merging::merge;
pub use naming::is_one_of;
pub use new_file::{create, file_schema};
