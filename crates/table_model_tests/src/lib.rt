//! Tests of table_model: the texts of refusals, counted reads and writes, and calls with a growth refused.
#![tactic(auto)]

#[cfg(test)]
mod refused_tests;
#[cfg(test)]
mod tests;
