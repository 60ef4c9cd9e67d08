//! Tests of transpose_order: the order of rows in a vector, and masks over its rows.
#![tactic(auto)]

#[cfg(test)]
mod readme_example;
#[cfg(test)]
mod tests;
