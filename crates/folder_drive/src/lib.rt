//! A command on a folder of parts as one value that is driven from outside: the part of it that is the same for all commands.
#![tactic(auto)]

mod brings;
mod change;
mod following;
mod phase;

pub use brings::{Brings, Decided};
pub use change::{Change, Ending, Fault};
pub use phase::Phase;
