//! The protocol of a folder of parts, driven from outside: it asks for one call after another, and is told what came of each. It is the
//! code of `folder_protocol` itself, run from its beginning over the answers that were told.
#![tactic(auto)]

mod ahead;
mod answering;
mod asking;
mod guarding;
mod order;
mod program;
mod replay;
mod request;
mod script;
mod seen;
mod settling;
mod step;
mod turn;
mod wanted;

pub use asking::next;
pub use order::{End, Order, Task};
pub use program::Program;
pub use replay::Fault;
pub use request::{Answer, Request, Told};
pub use step::Step;
pub use turn::Turn;
