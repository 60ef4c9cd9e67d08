//! Tests of catalogue_join: sets of names and of rows, at values worked out by hand, and calls with a growth refused.
#![tactic(auto)]

#[cfg(test)]
mod readme_example;
#[cfg(test)]
mod refused_tests;
#[cfg(test)]
mod row_list_tests;
#[cfg(test)]
mod tests;
