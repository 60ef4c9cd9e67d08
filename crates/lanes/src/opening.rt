//! What a file, a folder or standard input holds, once all of it was read and judged.

use command_line::Source;
use program_failures::{Failure, unread_by};
use program_folders::{Opened, open_folder};
use program_inputs::{Home, Host, Progress, source_of};
use refusal_sentences::CommandRefusal;
use replica_reports::{HashKey, OpenFile};
use std::random::RandomSource;

/// What a file or a folder holds, once all of it was read and judged.
pub fn opened<R: Host>(
    rt: &R,
    progress: &Progress<'_, R>,
    name: &str,
) -> Result<OpenFile, Failure> {
    match Home::of(rt, name) {
        Home::File(file) => opened_source(rt, progress, Source::File(file)),
        Home::Folder(folder) => {
            let opened: Opened<OpenFile> = open_folder(rt, progress, folder)?;
            Ok(opened.held.with_hash_key(drawn_hash_key(rt)))
        }
    }
}

/// What standard input, a file or a folder holds, once all of it was read and judged.
pub fn opened_from<R: Host>(
    rt: &R,
    progress: &Progress<'_, R>,
    source: Source<'_>,
) -> Result<OpenFile, Failure> {
    match source {
        Source::Input => opened_source(rt, progress, source),
        Source::File(name) => opened(rt, progress, name),
    }
}

/// What standard input or a file holds.
pub fn opened_source<'r, R: Host>(
    rt: &'r R,
    progress: &'r Progress<'r, R>,
    source: Source<'_>,
) -> Result<OpenFile, Failure> {
    let mut reader = source_of(rt, progress, source);
    match OpenFile::read(rt.alloc(), &mut reader) {
        Ok(held) => Ok(held.with_hash_key(drawn_hash_key(rt))),
        Err(refusal) => Err(unread_by(rt, CommandRefusal::from(refusal), source, reader)),
    }
}

/// The key of the hashes by which the queries of this process find groups, drawn at random. It is the fixed one if the system gives no
/// random bytes.
pub fn drawn_hash_key<R: RandomSource>(rt: &R) -> HashKey {
    let mut first = [0; 8];
    let mut second = [0; 8];
    if rt.fill_bytes(&mut first).is_err() || rt.fill_bytes(&mut second).is_err() {
        return HashKey::fixed();
    }
    HashKey::new(u64::from_le_bytes(first), u64::from_le_bytes(second))
}
