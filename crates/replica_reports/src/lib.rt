//! What is asked of a file: it is opened once, and answers queries, checks, dumps, inspections and messages.
#![tactic(auto)]

mod answers;
mod batch_counts;
mod batch_digest;
mod batch_list;
mod column_parts;
mod columns_json;
mod columns_text;
mod digest;
mod dump_rooms;
mod dumping;
mod exchange;
mod file_check;
mod laws;
mod line_part;
mod live_figures;
mod open_file;
mod query_lines;
mod report;
mod store_counts;
mod stored;

pub use answers::{NotAnswered, answer, answer_all, answer_text};
pub use batch_counts::live_count;
pub use batch_list::{batch_digests, list_batches, list_batches_with_digests};
pub use digest::{first_digits, held_digest};
pub use dumping::{dump, dump_where};
pub use exchange::{offer, summary};
pub use file_check::{check, check_with_digest};
pub use laws::dump_column_laws;
pub use line_part::LinePart;
pub use open_file::OpenFile;
pub use query_eval::HashKey;
pub use query_lines::{Listener, answer_lines};
pub use report::inspect;
