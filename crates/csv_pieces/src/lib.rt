//! Rows of a text of comma-separated values that comes in pieces, cut anywhere.
#![tactic(auto)]

mod lines;
mod piece_reader;

pub use piece_reader::PieceReader;
