//! A store as the columns of a query: its vectors, read by kernels while they stay packed.
#![tactic(auto)]

mod asking;
mod view;

pub use asking::{ask, names_where};
pub use view::StoreView;
