//! Tests of command_line and of refusal_sentences: what command lines ask for, and the sentence of each refusal. Texts of help, faults of the
//! command line, and what is said of queries, values and tables are tried by tests/program.
#![tactic(auto)]

#[cfg(test)]
mod request_tests;
#[cfg(test)]
mod sentence_tests;
