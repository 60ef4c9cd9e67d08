//! A replica as a folder of parts: their names, their join, and the part that each command puts.
#![tactic(auto)]

mod command_part;
mod comparing;
mod fault;
mod forgetting;
mod heads;
mod joining;
mod laws;
mod packing;
mod part;
mod part_naming;
mod room;
mod skimmed_part;
mod skimming;

pub use command_part::{part_alone, part_of};
pub use comparing::compare_part;
pub use fault::{PartFault, PartRefusal};
pub use forgetting::part_of_forget;
pub use heads::{HEAD_BYTES, Head, part_head};
pub use joining::Join;
pub use laws::{cover_laws, folder_laws, forget_folder_laws, heads_are_ahead, parts_are_brought};
pub use packing::packed_prefix;
pub use part::Part;
pub use part_naming::{is_part, is_part_name, part_name};
pub use room::check_room;
pub use skimmed_part::LoadNames;
pub use skimming::{Skim, SkimmedParts};
