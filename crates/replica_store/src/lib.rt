//! Replicas of a table: batches that come by append, insert and merge, and rows that are deleted.
#![tactic(auto)]

mod batches;
mod brought;
mod forgotten;
mod inserted;
mod joined;
mod laws;
mod offer;
mod store;
mod summary;

pub use brought::Brought;
pub use forgotten::Forgotten;
pub use inserted::Inserted;
pub use joined::Joined;
pub use laws::{
    exchange_laws, forget_history_laws, forget_laws, forget_offer_laws, forget_store_laws,
    keeping_laws, merge_laws,
};
pub use offer::Offer;
pub use store::{MAX_BATCHES, Store};
pub use summary::Summary;
