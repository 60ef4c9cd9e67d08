//! Clusters: a table at several replicas, what steps are and what they make of it, and what their histories keep.
#![tactic(auto)]

mod cluster;
mod file_bytes;
mod files;
mod laws;
mod message;
mod reply;
mod runner;
mod step;

pub use cluster::{Cluster, REPLICA_LIMIT};
pub use file_bytes::FileBytes;
pub use laws::{coding_laws, history_laws, row_laws};
pub use message::Message;
pub use reply::Reply;
pub use runner::run;
pub use step::{Sql, Step};
