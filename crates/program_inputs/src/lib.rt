//! What the program reads: files, folders and standard input, what is kept of their first bytes, and how far the reading is.
#![tactic(auto)]

mod beginning;
mod front;
mod home;
mod host;
mod inputs;
mod peeked;
mod progress;
mod watched;

pub use beginning::Begun;
pub use front::{Front, read_front};
pub use home::{Home, is_folder, is_there};
pub use host::Host;
pub use inputs::{LazyFile, SourceReader, reader_of, source_of};
pub use peeked::Peeked;
pub use progress::{LockedReading, Progress, Told};
pub use watched::{Cause, Watched};
