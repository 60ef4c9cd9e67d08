//! Why a command failed, and what a person reads of it.

use command_line::{Fault, Source};
use program_inputs::{Cause, is_folder};
use refusal_sentences::{
    CommandRefusal, Knowledge, Pointer, Printable, Sentence, Text, sentence_of_text,
};
use std::alloc::{AllocError, AllocFailed, Global};
use std::fs::{self, Files};
use std::io::{self, ErrorKind, Write};
use std::process::ExitCode;
use table_model::{ColType, Refusal, Schema};

/// What standard output is called in a sentence.
const OUTPUT: &str = "standard output";

/// What is said of a file or a folder that is not opened since as many files are open as may be.
pub const TOO_MANY_FILES: &str = "too many files are open: allow more by ulimit -n";

// The numbers of Linux for that, of all processes and of this one.
const ENFILE: i32 = 23;

const EMFILE: i32 = 24;

/// What is said of a file that is not made, since a folder has its name.
const FOLDER_EXISTS: &str = "there is a folder of this name already";

/// What is said of what has the name of a file's lock.
const IN_THE_WAY: &str =
    "this is in the way: the lock of the file has this name, and this is no lock that can be taken";

/// Why a command failed, and what is said of it below the line of the refusal.
#[derive(Drop)]
pub struct Failure {
    fault: Fault,
    sentence: Option<String>,
    pointer: Option<String>,
    stream: Stream,
}

/// Which stream of the command a failure is said of.
#[derive(Clone, Copy, Debug, PartialEq, Eq)]
enum Stream {
    /// None.
    None,
    /// Standard input or standard output.
    Standard,
    /// Standard output, whose reader has gone.
    Unread,
}

impl Stream {
    /// The stream that a subject names.
    fn named(subject: &str) -> Stream {
        if subject == OUTPUT || subject == Source::Input.name() {
            Stream::Standard
        } else {
            Stream::None
        }
    }
}

impl From<Fault> for Failure {
    fn from(fault: Fault) -> Failure {
        Failure {
            fault,
            sentence: None,
            pointer: None,
            stream: Stream::None,
        }
    }
}

impl From<Refusal> for Failure {
    fn from(refusal: Refusal) -> Failure {
        Failure::from(Fault::from(refusal))
    }
}

impl From<AllocError> for Failure {
    fn from(lacking: AllocError) -> Failure {
        Failure::from(Fault::from(lacking))
    }
}

impl<T: Drop> From<AllocFailed<T>> for Failure {
    fn from(_lacking: AllocFailed<T>) -> Failure {
        Failure::from(Refusal::Memory)
    }
}

impl Failure {
    /// A refusal that is said of this subject, with what else is known. It is without a sentence if there is no memory for it.
    pub fn said_of(
        alloc: Global,
        refusal: CommandRefusal,
        subject: &str,
        knowledge: Knowledge<'_>,
    ) -> Failure {
        let sentence = Sentence {
            refusal,
            subject,
            knowledge,
        };
        Failure {
            fault: Fault::from(refusal),
            sentence: format!(in alloc; "{sentence}\n").ok(),
            pointer: None,
            stream: Stream::named(subject),
        }
    }

    /// A refusal that is said of no input.
    pub fn of(alloc: Global, refusal: CommandRefusal) -> Failure {
        Failure::said_of(alloc, refusal, "", Knowledge::Nothing)
    }

    /// A refusal of what is read from a file, or written to it.
    pub fn of_file<R: Files + AllocGlobal>(rt: &R, refusal: CommandRefusal, name: &str) -> Failure {
        let knowledge = match refusal {
            CommandRefusal::Named(Refusal::ReadFault) => known_of_reading(rt, name),
            CommandRefusal::Named(Refusal::WriteFault) => known_of_writing(rt, name),
            CommandRefusal::Exists if is_folder(rt, name) => Knowledge::Advice(FOLDER_EXISTS),
            _ => Knowledge::Nothing,
        };
        Failure::said_of(rt.alloc(), refusal, name, knowledge)
    }

    /// A refusal of a file that was read and begins with these bytes: they tell of which kind it is.
    pub fn of_input<R: Files + AllocGlobal>(
        rt: &R,
        refusal: CommandRefusal,
        name: &str,
        beginning: &[u8],
    ) -> Failure {
        match refusal {
            CommandRefusal::Named(Refusal::BadMagic) => {
                Failure::of_beginning(rt.alloc(), name, beginning)
            }
            _ => Failure::of_file(rt, refusal, name),
        }
    }

    /// A refusal of an input of another kind, which begins with these bytes.
    pub fn of_beginning(alloc: Global, name: &str, beginning: &[u8]) -> Failure {
        Failure::said_of(
            alloc,
            CommandRefusal::from(Refusal::BadMagic),
            name,
            Knowledge::Beginning(beginning),
        )
    }

    /// A refusal of what was read from standard input, which begins with these bytes.
    pub fn of_standard_input(alloc: Global, refusal: CommandRefusal, beginning: &[u8]) -> Failure {
        let subject = Source::Input.name();
        Failure::said_of(alloc, refusal, subject, Knowledge::Beginning(beginning))
    }

    /// A refusal of batches that a file or a folder has already, with other rows.
    pub fn of_held(alloc: Global, refusal: CommandRefusal, name: &str) -> Failure {
        Failure::said_of(alloc, refusal, name, Knowledge::Held)
    }

    /// A refusal of a batch that an input has, and one before it with other rows.
    pub fn of_both(alloc: Global, refusal: CommandRefusal, name: &str, other: &str) -> Failure {
        Failure::said_of(alloc, refusal, name, Knowledge::Other(other))
    }

    /// A refusal of a file or a folder that the system does not read or write, for this reason.
    pub fn of_reason(alloc: Global, refusal: Refusal, subject: &str, kind: ErrorKind) -> Failure {
        let refusal = match kind {
            ErrorKind::OutOfMemory => Refusal::Memory,
            _ => refusal,
        };
        Failure::said_of(
            alloc,
            CommandRefusal::from(refusal),
            subject,
            Knowledge::Reason(kind),
        )
    }

    /// A refusal of a file or a folder, with these words.
    pub fn advised(alloc: Global, refusal: CommandRefusal, subject: &str, words: &str) -> Failure {
        Failure::said_of(alloc, refusal, subject, Knowledge::Advice(words))
    }

    /// A failed write, since what has the name of a file's lock is no lock that can be taken.
    pub fn of_lock(alloc: Global, lock: &str) -> Failure {
        let refusal = CommandRefusal::from(Refusal::WriteFault);
        Failure::advised(alloc, refusal, lock, IN_THE_WAY)
    }

    /// A refusal of what goes to standard output.
    pub fn of_output(alloc: Global, cause: Cause) -> Failure {
        let refusal = CommandRefusal::from(cause.refusal);
        match cause.reason {
            Some(ErrorKind::BrokenPipe) => Failure {
                stream: Stream::Unread,
                ..Failure::from(Fault::from(refusal))
            },
            Some(kind) => Failure::said_of(alloc, refusal, OUTPUT, Knowledge::Reason(kind)),
            None => Failure::said_of(alloc, refusal, OUTPUT, Knowledge::Nothing),
        }
    }

    /// A refusal of an input of one table, since a file has another one.
    pub fn of_tables(
        alloc: Global,
        subject: &str,
        found: &Schema,
        of: &str,
        wanted: &Schema,
    ) -> Failure {
        Failure::said_of(
            alloc,
            CommandRefusal::from(Refusal::SchemaDiffers),
            subject,
            Knowledge::Tables { found, wanted, of },
        )
    }

    /// A refusal of a text for a file or a folder, which it may have a place in: that is shown at a terminal.
    pub fn of_text(
        alloc: Global,
        refusal: Refusal,
        file: &str,
        subject: &str,
        text: Text<'_>,
    ) -> Failure {
        let file = Printable(file);
        let sentence = match sentence_of_text(alloc, refusal, subject, text) {
            Ok(sentence) => format!(in alloc; "{file}: {sentence}\n").ok(),
            Err(_) => None,
        };
        Failure {
            fault: Fault::from(refusal),
            sentence,
            pointer: pointer_at(alloc, text.text, refusal),
            stream: Stream::None,
        }
    }

    /// A refusal of a table that is to be made in a file or a folder, of this name and these columns.
    pub fn of_names(
        alloc: Global,
        file: &str,
        table: &str,
        columns: &[(&str, ColType)],
    ) -> Failure {
        let refusal = CommandRefusal::from(Refusal::BadSchema);
        Failure::said_of(alloc, refusal, file, Knowledge::of_table(table, columns))
    }

    /// A refusal of the name that begins at a byte of a list of columns, which was given with `--columns`.
    pub fn of_name(alloc: Global, file: &str, list: &str, at: u64, schema: &Schema) -> Failure {
        let refusal = Refusal::NoSuchColumn(at);
        let sentence = Sentence {
            refusal: CommandRefusal::from(refusal),
            subject: "--columns",
            knowledge: Knowledge::of_name(list, ',', at, schema),
        };
        let file = Printable(file);
        Failure {
            fault: Fault::from(refusal),
            sentence: format!(in alloc; "{file}: {sentence}\n").ok(),
            pointer: pointer_at(alloc, list, refusal),
            stream: Stream::None,
        }
    }

    /// A refusal of a condition over the table of a file or a folder, if its table is known.
    pub fn of_condition(
        alloc: Global,
        refusal: Refusal,
        file: &str,
        subject: &str,
        condition: &str,
        schema: Option<&Schema>,
    ) -> Failure {
        let text = Text {
            text: condition,
            is_condition: true,
            schema,
        };
        Failure::of_text(alloc, refusal, file, subject, text)
    }

    /// A refusal of a change of a file or a folder, if no more is known of it.
    pub fn of_change<R: Files + AllocGlobal>(
        rt: &R,
        refusal: CommandRefusal,
        name: &str,
    ) -> Failure {
        match refusal {
            CommandRefusal::Named(Refusal::BadRange(_)) => {
                Failure::said_of(rt.alloc(), refusal, name, Knowledge::Argument)
            }
            CommandRefusal::Named(Refusal::Conflict(_)) => {
                Failure::of_held(rt.alloc(), refusal, name)
            }
            _ => Failure::of_file(rt, refusal, name),
        }
    }

    /// The failure of this command, which is about this name. If memory ran out, and nothing is said of that yet, it is said of the name.
    /// What is said of a standard stream begins with the command and the name.
    pub fn about(self, alloc: Global, command: &str, name: &str) -> Failure {
        let failure = self.with_sentence(alloc, name);
        if failure.stream != Stream::Standard {
            return failure;
        }
        let Failure {
            fault,
            sentence,
            pointer,
            stream,
        } = failure;
        let sentence = match sentence {
            Some(said) => match of_command(alloc, command, name, said.as_str()) {
                Ok(whole) => Some(whole),
                Err(_) => Some(said),
            },
            None => None,
        };
        Failure {
            fault,
            sentence,
            pointer,
            stream,
        }
    }

    /// The failure to write what a command says of its change of what has this name: how that is left is said too, in these words, unless
    /// the reader has gone.
    pub fn after(self, alloc: Global, name: &str, left: &str) -> Failure {
        if self.stream == Stream::Unread {
            return self;
        }
        let Failure {
            fault,
            sentence,
            pointer,
            stream,
        } = self.with_sentence(alloc, name);
        let sentence = match sentence {
            Some(said) => match with_end(alloc, said.as_str(), name, left) {
                Ok(whole) => Some(whole),
                Err(_) => Some(said),
            },
            None => None,
        };
        Failure {
            fault,
            sentence,
            pointer,
            stream,
        }
    }

    /// The failure with a sentence, which is said of this name, if memory ran out and nothing is said of that yet.
    fn with_sentence(self, alloc: Global, name: &str) -> Failure {
        if self.sentence.is_none() && self.is_of_memory() {
            let refusal = CommandRefusal::from(Refusal::Memory);
            return Failure::said_of(alloc, refusal, name, Knowledge::Nothing);
        }
        self
    }

    /// Whether memory ran out.
    fn is_of_memory(&self) -> bool {
        matches!(
            &self.fault,
            Fault::Refused(CommandRefusal::Named(Refusal::Memory))
        )
    }

    /// Reports the failure, and answers the status that it ends with. If standard error is no terminal, the place in a text isn't
    /// shown. If the reader of standard output has gone, nothing is written.
    pub fn report<R: Print + Eprint + AllocGlobal, N: Write>(
        &self,
        rt: &R,
        is_terminal: bool,
        notes: &mut N,
    ) -> ExitCode {
        if self.stream == Stream::Unread {
            return ExitCode::FAILURE;
        }
        let sentence = text_or_nothing(&self.sentence);
        let pointer = text_or_nothing(&self.pointer);
        if !is_terminal || pointer.is_empty() {
            return self.fault.report(rt, notes, sentence);
        }
        match format!(in rt.alloc(); "{sentence}{pointer}") {
            Ok(said) => self.fault.report(rt, notes, said.as_str()),
            Err(_) => self.fault.report(rt, notes, sentence),
        }
    }
}

/// A text; an empty one for None.
fn text_or_nothing(text: &Option<String>) -> &str {
    match text {
        Some(text) => text.as_str(),
        None => "",
    }
}

/// What is said of an answer that could not be written, and how the command left what has this name.
fn with_end(alloc: Global, said: &str, name: &str, left: &str) -> Result<String, AllocError> {
    let name = Printable(name);
    format!(in alloc; "{said}{name} {left}; only the answer could not be written\n")
}

/// What is said of a standard stream of a command, with the command and what it is about before it, unless that is standard input.
fn of_command(alloc: Global, command: &str, name: &str, said: &str) -> Result<String, AllocError> {
    if name == Source::Input.name() {
        return format!(in alloc; "lanes {command}: {said}");
    }
    let name = Printable(name);
    format!(in alloc; "lanes {command} {name}: {said}")
}

/// What points at the place of a refusal in a text, if it has one.
fn pointer_at(alloc: Global, text: &str, refusal: Refusal) -> Option<String> {
    match Pointer::new(text, refusal) {
        Some(pointer) => format!(in alloc; "{pointer}").ok(),
        None => None,
    }
}

/// What is known of an error of the system.
fn known_of(error: &io::Error) -> Knowledge<'static> {
    match error.raw_os_error() {
        Some(ENFILE | EMFILE) => Knowledge::Advice(TOO_MANY_FILES),
        _ => Knowledge::Reason(error.kind()),
    }
}

/// What is known of a file that can't be read.
fn known_of_reading<R: Files>(rt: &R, name: &str) -> Knowledge<'static> {
    match fs::metadata(rt, name) {
        Ok(found) if found.is_dir() => Knowledge::Reason(ErrorKind::IsADirectory),
        Ok(found) if found.is_file() => match fs::open(rt, name) {
            Err(error) => known_of(&error),
            Ok(_) => Knowledge::Nothing,
        },
        Ok(_) => Knowledge::Nothing,
        Err(error) => Knowledge::Reason(error.kind()),
    }
}

/// What is known of a file that can't be written.
fn known_of_writing<R: Files>(rt: &R, name: &str) -> Knowledge<'static> {
    match fs::metadata(rt, name) {
        Ok(found) if found.is_dir() => Knowledge::Reason(ErrorKind::IsADirectory),
        Ok(_) => Knowledge::Nothing,
        Err(_) => match fs::metadata(rt, file_protocol::folder_of(name)) {
            Ok(found) if found.is_dir() => Knowledge::Nothing,
            Ok(_) => Knowledge::Reason(ErrorKind::NotADirectory),
            Err(error) => Knowledge::Reason(error.kind()),
        },
    }
}
