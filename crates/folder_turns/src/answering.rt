//! What a call gives, by what was told of it.
ghost use Rattle.std.specs.Prelude.{◌≡◌, ◌≤◌, List, Some, None, true, false, length, map, take, is_ok, IfOk, MatchOption, MatchResult, option_map, if◌then◌else◌};
ghost use Rattle.std.specs.String.{string_bytes};
ghost use Rattle.folder_model.specs.Call.{Wrote, Done, Taken, Failed};
ghost use Rattle.folder_turns.specs.Calls.{FoundIs, is_done, linking_of, write_of, names_of, found_of};

use crate::request::Answer;
use std::alloc::{AllocError, Global};
use std::io::{self, ErrorKind};

/// The error of a call that has failed, by what was told of it, or was not made.
pub fn error_of(answer: Option<&Answer>) -> io::Error {
    match answer {
        Some(Answer::FailedBy { code }) => io::Error::from_raw_os_error(*code),
        _ => io::Error::from(ErrorKind::Other),
    }
}

/// A call that gives nothing.
pub fn done(answer: Option<&Answer>) -> io::Result<()>
    ensures { MatchOption answer.entry (is_ok result ≡ false) (λ told. is_ok result ≡ is_done told.now) }
{
    match answer {
        Some(Answer::Done) => Ok(()),
        _ => Err(error_of(answer)),
    }
}

/// The answer of a write of `bytes`: how many bytes were written, at most all; an error for any other answer.
pub fn written(answer: Option<&Answer>, bytes: &[u8]) -> io::Result<usize>
    ensures bound { IfOk result (λ n. n ≤ length bytes.now) }
    ensures noted { MatchOption answer.entry (is_ok result ≡ false)
        (λ told. MatchResult result (λ n. write_of bytes.now told.now ≡ Wrote (take n bytes.now) true) (λ _. write_of bytes.now told.now ≡ Wrote bytes.now false)) }
{
    match answer {
        Some(Answer::Wrote { count }) if *count <= bytes.len() => Ok(*count),
        _ => Err(error_of(answer)),
    }
}

/// A link.
pub fn linked(answer: Option<&Answer>) -> io::Result<bool>
    ensures { MatchOption answer.entry (is_ok result ≡ false)
        (λ told. MatchResult result (λ done. linking_of told.now ≡ (if done then Done else Taken)) (λ _. linking_of told.now ≡ Failed)) }
{
    match answer {
        Some(Answer::Done) => Ok(true),
        Some(Answer::Taken) => Ok(false),
        _ => Err(error_of(answer)),
    }
}

/// Whether a read found a file. None if it failed.
fn finds(answer: &Answer) -> Option<bool>
    ensures { MatchOption result (found_of answer.now ≡ None) (λ there. FoundIs there (found_of answer.now)) }
{
    match answer {
        Answer::Found { .. } => Some(true),
        Answer::Noted { .. } => Some(true),
        Answer::Missing => Some(false),
        _ => None,
    }
}

/// A read of which the bytes are not given: whether there is a file.
pub fn found(answer: Option<&Answer>) -> io::Result<bool>
    ensures { MatchOption answer.entry (is_ok result ≡ false)
        (λ told. MatchResult result (λ there. FoundIs there (found_of told.now)) (λ _. found_of told.now ≡ None)) }
{
    let Some(told) = answer else {
        return Err(error_of(None));
    };
    match finds(told) {
        Some(there) => Ok(there),
        None => Err(error_of(answer)),
    }
}

/// A copy of some names.
fn copied(names: &Vec<String>) -> Result<Vec<String>, AllocError>
    ensures { IfOk result (λ copy. map string_bytes copy.items ≡ map string_bytes names.now.items) }
{
    match names.clone() {
        Ok(copy) => Ok(copy),
        Err(error) => Err(error),
    }
}

/// The names that a listing gave, if it gave any.
pub fn listed(answer: &Answer) -> Result<Option<Vec<String>>, AllocError>
    ensures { IfOk result (λ names. option_map (λ some. map string_bytes some.items) names ≡ names_of answer.now) }
{
    match answer {
        Answer::Listed { names } => Ok(Some(copied(names)?)),
        _ => Ok(None),
    }
}

/// What a read found, if it did not fail. If its bytes are noted alone they are not to be had any more.
pub fn read(alloc: Global, answer: &Answer) -> Result<Option<Option<Vec<u8>>>, AllocError>
    ensures { IfOk result (λ found. option_map (λ some. option_map (λ bytes. bytes.items) some) found ≡ found_of answer.now) }
{
    match answer {
        Answer::Found { bytes } => Ok(Some(Some(Vec::from_slice(alloc, bytes.as_slice())?))),
        Answer::Missing => Ok(Some(None)),
        Answer::Noted { .. } => Err(AllocError),
        _ => Ok(None),
    }
}
