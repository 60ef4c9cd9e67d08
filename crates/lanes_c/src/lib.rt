//! What a program in C may ask of a table's files in memory. Each call is given bytes and gives bytes; a handle alone keeps what it was
//! opened of, until it is closed.
#![tactic(auto)]

mod answer_cells;
mod answer_columns;
mod answer_handle;
mod bringing;
mod changing;
mod column_import;
mod columns;
mod coverage;
mod delete_part;
mod dialect_import;
mod dialects;
mod dump_choice;
mod expecting;
mod fault;
mod file_changes;
mod folder_plans;
mod handle;
mod held_rows;
mod input_columns;
mod joined;
mod loose;
mod merging;
mod messages;
mod names;
mod opening;
mod partials;
mod parts_handle;
mod parts_reading;
mod parts_turns;
mod queries;
mod read_parts;
mod reading;
mod refused_rows;
mod room;
mod sentences;
mod shared;
mod skim_handle;
mod skimming;
mod spreading;
mod table_changes;
mod table_reading;
mod taking;
mod turn_calls;
mod turn_handle;

pub use answer_cells::Wide;
pub use answer_columns::{
    lanes_answer_ask, lanes_answer_close, lanes_answer_columns, lanes_answer_finish,
    lanes_answer_heading, lanes_answer_kind, lanes_answer_numbers, lanes_answer_rows,
    lanes_answer_wide,
};
pub use answer_handle::KeptAnswer;
pub use bringing::{lanes_table_bring, lanes_table_meets};
pub use changing::{lanes_create, lanes_delete, lanes_forget, lanes_import};
pub use column_import::lanes_table_import_columns;
pub use columns::{lanes_columns, lanes_columns_between, lanes_schema};
pub use coverage::{lanes_inspect_partial, lanes_inspect_summary};
pub use delete_part::lanes_table_delete_part;
pub use dialect_import::{lanes_import_in, lanes_table_import_in};
pub use dump_choice::lanes_dump_where;
pub use expecting::lanes_finish_expected;
pub use fault::Place;
pub use folder_plans::{lanes_head, lanes_packed_prefix};
pub use handle::Table;
pub use held_rows::lanes_table_delete_held_rows;
pub use merging::lanes_merge;
pub use messages::{lanes_apply, lanes_offer, lanes_summary};
pub use names::{lanes_refusal, lanes_sentence, lanes_version};
pub use opening::{lanes_ask, lanes_close, lanes_hash_key, lanes_open, lanes_share};
pub use partials::{lanes_combine, lanes_finish, lanes_partial};
pub use parts_handle::FolderParts;
pub use parts_reading::{lanes_parts_close, lanes_parts_open, lanes_parts_take};
pub use parts_turns::{lanes_folder_part, lanes_parts_forget, lanes_parts_pack};
pub use queries::lanes_queries;
pub use reading::{lanes_check, lanes_dump, lanes_query};
pub use sentences::{Refused, lanes_explain};
pub use skim_handle::FolderSkim;
pub use skimming::{lanes_skim_close, lanes_skim_open, lanes_skim_take};
pub use spreading::lanes_spread;
pub use table_changes::{
    lanes_table_apply, lanes_table_delete, lanes_table_delete_rows, lanes_table_forget,
    lanes_table_import,
};
pub use table_reading::{
    lanes_batch_digests, lanes_batches, lanes_digest, lanes_file, lanes_inspect,
};
pub use turn_calls::{
    FolderCall, lanes_folder_begin, lanes_folder_end, lanes_folder_name, lanes_folder_next,
    lanes_folder_relied, lanes_part_name,
};
pub use turn_handle::FolderTurn;
