//! The program's command line: what its arguments ask for, what it fails with, and the status that it ends with.
#![tactic(auto)]

mod command_faults;
mod commands;
mod fault;
mod import_form;
mod misplaced;
mod partial_answer_forms;
mod program_arguments;
mod program_help;
mod report_forms;
mod request_reading;
mod requests;
mod spread_form;
mod verb;
mod words;

pub use answer_formats::{Format, ReportForm};
pub use fault::{Fault, not_for_a_folder, not_for_a_terminal};
pub use program_arguments::arguments;
pub use request_reading::read_request;
pub use requests::{
    Apply, Check, Combine, Create, CsvForm, Delete, DeleteRows, Dump, Finish, Forget, Import,
    Inspect, Merge, Offer, Pack, Partial, Queries, Query, Request, Run, Source, Spread, Summary,
};
