//! The schema of a file, for what is read before the file is changed.

use folder_parts::HEAD_BYTES;
use program_changes::schema_in;
use program_failures::Failure;
use program_inputs::{LazyFile, read_front, reader_of};
use refusal_sentences::CommandRefusal;
use replica_changes::file_schema;
use std::fs::Files;
use table_model::Schema;

/// A file's schema, once the whole file was read.
pub fn schema_of<R: Files + AllocGlobal>(rt: &R, file: &str) -> Result<Schema, Failure> {
    let mut reader = reader_of(rt, file);
    match file_schema(rt.alloc(), &mut reader) {
        Ok(schema) => Ok(schema),
        Err(refusal) => {
            let input = reader.into_inner();
            Err(Failure::of_input(rt, CommandRefusal::from(refusal), file, input.beginning()))
        }
    }
}

/// The schema that a file begins with, if it can be read of the file's first bytes; else the whole file is judged. What else is in the
/// file is not looked at.
pub fn schema_ahead<R: Files + AllocGlobal>(rt: &R, file: &str) -> Result<Schema, Failure> {
    let mut head = [0u8; HEAD_BYTES];
    let front = read_front(&mut LazyFile::new(rt, file), &mut head);
    match schema_in(rt.alloc(), &head[..front.length.min(HEAD_BYTES)]) {
        Some(schema) => Ok(schema),
        None => schema_of(rt, file),
    }
}
