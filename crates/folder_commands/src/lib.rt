//! What commands do to a folder of parts by the calls of the protocol, each of which is noted: its parts are read and joined, packed, and
//! forgotten.
#![tactic(auto)]

mod forgetting;
mod gathering;
mod joining;
mod laws;
mod packing;
mod reading;
mod reliance;
mod relying;
mod replacing;
mod skimming;
mod sweeping;
mod wanted;

pub use forgetting::{Forgot, forget, left_of};
pub use laws::answered_laws;
pub use packing::{file_of, pack};
pub use reading::{Read, read_folder, read_named};
pub use reliance::Reliance;
pub use relying::{keep_and_put, keep_and_put_judged};
pub use replacing::{Replaced, names_for};
pub use skimming::{Skimmed, skim_folder, skim_more};
pub use sweeping::sweep;
