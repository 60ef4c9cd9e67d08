//! Tests of lanes_main: a run of steps, and scripts and files if a reader or a writer fails.
#![tactic(auto)]

#[cfg(test)]
mod stop_tests;
#[cfg(test)]
mod tests;
