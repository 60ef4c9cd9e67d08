//! Run-length and dictionary coding of vectors of 1024 values.
#![tactic(auto)]

mod codes;
mod counting;
mod dicts;
mod places;
mod run_words;
mod runs;
mod seen;

pub use dicts::{
    Dict, codes_stand_in_lanes, least_dict_gives_back, least_dict_is_a_form, least_dict_is_fewest,
};
pub use runs::{Runs, least_runs_are_a_form, least_runs_are_fewest, least_runs_give_back};
