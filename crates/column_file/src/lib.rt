//! Files and messages: a table's schema, what a replica holds, and its batches and deletions, in bytes.
#![tactic(auto)]

mod canonical_writing;
mod comparing;
mod container_reading;
mod container_writing;
mod differing;
mod input;
mod laws;
mod length;
mod offer_reading;
mod offer_writing;
mod opening;
mod passing;
mod ranges;
mod schema_reading;
mod schema_writing;
mod skimmed_names;
mod skimming;
mod summary_reading;
mod summary_writing;
mod type_tags;

pub use canonical_writing::{export, export_bytes};
pub use container_reading::CONTAINER;
pub use input::read_input;
pub use laws::{
    containers_and_bytes_come_back, files_and_states_come_back, files_are_skimmed,
    first_version_accepts_its_own, first_version_is_kept, offers_and_summaries_are_read_again,
    schemas_and_bytes_come_back, summaries_and_bytes_come_back,
};
pub use length::Length;
pub use offer_reading::read_offer;
pub use offer_writing::write_offer;
pub use opening::{open, open_bytes};
pub use schema_reading::read_schema;
pub use schema_writing::write_schema;
pub use skimming::{Skimmed, skim};
pub use summary_reading::{read_head, read_name_count, read_summary};
pub use summary_writing::write_summary;
