//! The program's arguments.
ghost use Rattle.std.specs.Prelude.{◌≡◌, IfErr};
ghost use Rattle.std.specs.IoError.{error_kind};
ghost use Rattle.command_line.specs.Outcome.{IsUnread, refused_memory};

use crate::commands::commands;
use crate::fault::Fault;
use crate::verb::Verb;
use clap::error;
use refusal_sentences::Quoted;
use std::alloc::AllocError;
use std::env::{self, FillError};
use std::io::{self, ErrorKind};
use std::rt::Env;
use std::str;
use table_model::Refusal;

/// How many bytes an argument has at most: what Linux passes.
const LONGEST: usize = 131_072;

/// The program's arguments; otherwise memory runs out for them, or one of them isn't UTF-8.
pub fn arguments<R: Env + AllocGlobal>(rt: &R) -> Result<Vec<String>, Fault>
    ensures { IfErr result IsUnread }
{
    let given = match env::args(rt) {
        Ok(given) => given,
        Err(error) => return Err(unread(rt, &error)),
    };
    let mut words = Vec::new(rt.alloc());
    for argument in given {
        words.push(argument).map_err(AllocError::from)?;
    }
    Ok(words)
}

/// Why the arguments aren't there: memory runs out for them, or one of them isn't UTF-8.
fn unread<R: Env + AllocGlobal>(rt: &R, failure: &io::Error) -> Fault
    ensures told { IsUnread result }
    ensures memory { error_kind failure.now ≡ ErrorKind.OutOfMemory → result ≡ refused_memory }
{
    if failure.kind() == ErrorKind::OutOfMemory {
        return Fault::from(Refusal::Memory);
    }
    match not_utf8(rt) {
        Ok(fault) => Fault::from(fault),
        Err(lacking) => Fault::from(lacking),
    }
}

/// The fault of the first argument that isn't UTF-8.
fn not_utf8<R: Env + AllocGlobal>(rt: &R) -> Result<clap::Error, AllocError> {
    let mut buffer = vec![in rt.alloc(); 0u8; LONGEST]?;
    let mut command = match verb_of(rt, buffer.as_mut_slice()) {
        Some(verb) => verb.command(rt.alloc())?,
        None => commands(rt.alloc())?,
    };
    let message = match first_unread(rt, buffer.as_mut_slice()) {
        Some((index, length)) => {
            let (bytes, _) = buffer.as_slice().split_at(length.min(LONGEST));
            let shown = Quoted(bytes);
            format!(in rt.alloc(); "argument {index} is not UTF-8: {shown}")?
        }
        None => String::from_str(rt.alloc(), "an argument is not UTF-8")?,
    };
    command.error(error::ErrorKind::InvalidValue, message.as_str())
}

/// The command that the first argument names, if it names one.
fn verb_of<R: Env>(rt: &R, buffer: &mut [u8]) -> Option<Verb> {
    let length = rt.arg(1, buffer).ok()?;
    let (bytes, _) = buffer.split_at(length.min(buffer.len()));
    Verb::named(str::from_utf8(bytes).ok()?)
}

/// Reads arguments up to the first that isn't UTF-8, and answers its number and how many bytes it has.
fn first_unread<R: Env>(rt: &R, buffer: &mut [u8]) -> Option<(usize, usize)> {
    for index in 0..usize::MAX {
        match rt.arg(index, buffer) {
            Ok(length) => {
                let (bytes, _) = buffer.split_at(length.min(buffer.len()));
                if str::from_utf8(bytes).is_err() {
                    return Some((index, length));
                }
            }
            Err(FillError::TooLong) => {}
            Err(FillError::NotPresent) => return None,
        }
    }
    None
}
