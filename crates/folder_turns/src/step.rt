//! What comes of a run.

use crate::request::Request;

/// What a run asks for, or what it has come to.
#[derive(Debug, Drop)]
pub enum Step<T> {
    /// This call is to be made, and told with its answer.
    Asks(Request),
    /// All calls were told.
    Ends(T),
}
