//! Tests of query_parser: the example of its README, what is expected at faults, long texts, and a growth that is refused.
#![tactic(auto)]

#[cfg(test)]
mod expected_tests;
#[cfg(test)]
mod readme_example;
#[cfg(test)]
mod refused_tests;
#[cfg(test)]
mod tests;
#[cfg(test)]
mod where_tests;
