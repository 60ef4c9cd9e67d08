//! Tests of frame_delta: frame of reference and delta coding of vectors, and refused growths.
#![tactic(auto)]

#[cfg(test)]
mod readme_example;
#[cfg(test)]
mod refused_tests;
#[cfg(test)]
mod tests;
