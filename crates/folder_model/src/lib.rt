//! What is never lost of a folder of parts that any number of processes use at once, each stopped at any moment, over losses of power.
#![tactic(auto)]

mod digits;
mod laws;

pub use digits::has_only_digits;
pub use laws::{folder_model_laws, folders_keep};
