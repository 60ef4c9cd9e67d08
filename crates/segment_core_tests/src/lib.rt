//! Tests of segment_core: segments, their bytes and refused growths, at values worked out by hand.
#![tactic(auto)]

#[cfg(test)]
mod arrays_tests;
#[cfg(test)]
mod bytes_tests;
#[cfg(test)]
mod refused_tests;
#[cfg(test)]
mod tests;
