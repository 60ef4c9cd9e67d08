//! Scripts of a table at several replicas: lines are read, each is answered, and replies are written as their texts. Steps and
//! clusters are defined in the crates below, and offered here too.
#![tactic(auto)]

mod file_check;
mod file_queries;
mod interpreter;
mod laws;
mod notes;
mod reply_format;
mod session;

pub use cluster_history::{
    Cluster, FileBytes, Message, Reply, Sql, Step, coding_laws, history_laws, row_laws, run,
};
pub use file_check::check_file;
pub use file_queries::query_file;
pub use interpreter::{script, script_with_notes};
pub use laws::{file_history_laws, first_answers_stay, script_laws};
pub use query_eval::HashKey;
pub use reply_format::reply_text;
pub use script_lines::{Command, TableCommand, parse_line, rows_are_read_as_spelled};
