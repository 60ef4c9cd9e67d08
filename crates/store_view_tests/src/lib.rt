//! Tests of store_view: queries over a store, with the passes that they take, and calls with a growth refused.
#![tactic(auto)]

#[cfg(test)]
mod passes_tests;
#[cfg(test)]
mod readme_example;
#[cfg(test)]
mod refused_tests;
