//! Why the program fails, and how it says so.
ghost use Rattle.std.specs.Prelude.{◌≡◌};
ghost use Rattle.std.specs.Process.{exit_status};
ghost use Rattle.command_line.specs.Outcome.{EndsWith, fault_of, refused_memory};
ghost use Rattle.command_line.specs.declared.fault.Fault.TheVariants.{Refused};
ghost use Rattle.refusal_sentences.specs.declared.command_refusal.CommandRefusal.TheVariants.{Named};

use crate::requests::Request;
use crate::verb::Verb;
use clap::error::ErrorKind;
use refusal_sentences::CommandRefusal;
use std::alloc::{AllocError, Global};
use std::io::{self, Write};
use std::process::ExitCode;
use table_model::Refusal;
use thiserror::Error;

/// How many bytes are written at once: what a pipe takes without mixing it with what others write there.
const AT_ONCE: usize = 4096;

/// A fault of the command line, which asks for help too, or a refusal.
#[derive(Debug, Drop, Error)]
pub enum Fault {
    /// The text of a fault or of help, as `clap` writes it.
    #[error("{0}")]
    CommandLine(clap::Error),
    /// What was refused.
    #[error("refused {0}")]
    Refused(CommandRefusal),
}

impl From<clap::Error> for Fault {
    ghost from_gives = { λ error fault. fault ≡ fault_of error };

    fn from(error: clap::Error) -> Fault {
        match error.kind() {
            ErrorKind::OutOfMemory => Fault::from(Refusal::Memory),
            _ => Fault::CommandLine(error),
        }
    }
}

impl From<CommandRefusal> for Fault {
    ghost from_gives = { λ refusal fault. fault ≡ Refused refusal };

    fn from(refusal: CommandRefusal) -> Fault {
        Fault::Refused(refusal)
    }
}

impl From<Refusal> for Fault {
    ghost from_gives = { λ refusal fault. fault ≡ Refused (Named refusal) };

    fn from(refusal: Refusal) -> Fault {
        Fault::Refused(CommandRefusal::Named(refusal))
    }
}

impl From<AllocError> for Fault {
    ghost from_gives = { λ _ fault. fault ≡ refused_memory };

    fn from(_error: AllocError) -> Fault {
        Fault::Refused(CommandRefusal::Named(Refusal::Memory))
    }
}

/// The fault of a request whose output, which is bytes, would go to a terminal. None if it writes texts.
pub fn not_for_a_terminal(alloc: Global, request: &Request<'_>) -> Option<Fault> {
    let verb = request.verb();
    let message = match verb {
        Verb::Summary => {
            "this command writes binary data, and standard output is a terminal: add > FILE, or | lanes offer FILE -"
        }
        Verb::Offer => {
            "this command writes binary data, and standard output is a terminal: add > FILE, or | lanes apply FILE -"
        }
        Verb::Partial | Verb::Combine => {
            "this command writes binary data, and standard output is a terminal: add > FILE, or | lanes finish -"
        }
        _ => return None,
    };
    Some(verb.fault_of_kind(alloc, ErrorKind::InvalidValue, message))
}

/// The fault of a merge whose OUT is a folder, and what to do instead.
pub fn not_for_a_folder(alloc: Global, advice: &str) -> Fault {
    Verb::Merge.fault_of_kind(alloc, ErrorKind::InvalidValue, advice)
}

impl Fault {
    /// Prints the fault on standard error, and help on standard output, and answers the status: 2 for a fault of the command
    /// line, 1 for a refusal, 0 for help. Below a refusal comes what is said of it. Help that can't be written is refused as
    /// `WriteFault`, of which nothing is said if the reader has gone.
    pub fn report<R: Print + Eprint + AllocGlobal, N: Write>(
        &self,
        rt: &R,
        notes: &mut N,
        said: &str,
    ) -> ExitCode
        ensures { EndsWith self.now (exit_status result) }
    {
        let Fault::CommandLine(error) = self else {
            return self.refuse(rt.alloc(), notes, said);
        };
        let printed = error.print(rt);
        if error.use_stderr() {
            return ExitCode::from(2);
        }
        match printed {
            Ok(()) => ExitCode::SUCCESS,
            Err(error) if error.kind() == io::ErrorKind::BrokenPipe => ExitCode::FAILURE,
            Err(_) => Fault::from(Refusal::WriteFault).refuse(rt.alloc(), notes, ""),
        }
    }

    /// Writes the fault and what is said of it to the notes, at once and in at most 4,096 bytes, so that it does not mix with what other
    /// commands write there; with the status of a refusal. If there is no memory for one text it is written in pieces.
    fn refuse<N: Write>(&self, alloc: Global, notes: &mut N, said: &str) -> ExitCode
        ensures { exit_status result ≡ 1 }
    {
        let _ = match format!(in alloc; "{self}\n{said}") {
            Ok(text) => notes.write_all(front_of(text.as_str()).as_bytes()),
            Err(_) => self.write_pieces(notes, said),
        };
        ExitCode::FAILURE
    }

    /// Writes the fault and what is said of it in pieces, which takes no memory.
    fn write_pieces<N: Write>(&self, notes: &mut N, said: &str) -> io::Result<()> {
        writeln!(notes, "{self}")?;
        notes.write_all(front_of(said).as_bytes())
    }
}

/// As much of a text as is written at once: its first whole characters.
fn front_of(text: &str) -> &str {
    for end in (0..=AT_ONCE.min(text.len())).rev() {
        if let Some(front) = text.get(..end) {
            return front;
        }
    }
    text
}
