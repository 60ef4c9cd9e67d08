//! Tests of bit_interleave: packed words at values worked out by hand, and calls with a growth refused.
#![tactic(auto)]

#[cfg(test)]
mod refused_tests;
#[cfg(test)]
mod tests;
