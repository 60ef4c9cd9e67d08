//! Tests of column_file: files and messages in bytes worked out by hand, and when a reader, a writer or a growth fails.
#![tactic(auto)]

#[cfg(test)]
mod file_tests;
#[cfg(test)]
mod readme_example;
#[cfg(test)]
mod refused_tests;
#[cfg(test)]
mod stop_tests;
#[cfg(test)]
mod tests;
