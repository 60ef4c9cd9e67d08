//! Tests of csv_rows: texts and their rows or first faults, worked out by hand, texts that come in pieces, and cases in which a reader, a writer or a growth fails.
#![tactic(auto)]

#[cfg(test)]
mod piece_tests;
#[cfg(test)]
mod readme_example;
#[cfg(test)]
mod refused_tests;
#[cfg(test)]
mod stop_tests;
#[cfg(test)]
mod tests;
