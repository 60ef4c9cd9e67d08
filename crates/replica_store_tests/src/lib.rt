//! Tests of replica_store: the example of its README, and calls with a growth refused.
#![tactic(auto)]

#[cfg(test)]
mod readme_example;
#[cfg(test)]
mod refused_tests;
