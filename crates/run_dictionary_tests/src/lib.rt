//! Tests of run_dictionary: run-length and dictionary coding of vectors, and refused growths.
#![tactic(auto)]

#[cfg(test)]
mod readme_example;
#[cfg(test)]
mod refused_tests;
#[cfg(test)]
mod tests;
