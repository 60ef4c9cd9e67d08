//! The laws of covering of files: what each command makes of a file covers it, by the rule of a folder's parts.
#![tactic(auto)]

mod laws;

pub use laws::covering_laws;
