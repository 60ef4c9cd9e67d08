//! The faults of a command line: the words that are wrong, and what is said of them.
ghost use Rattle.command_line.specs.Outcome.{IsUnread};

use crate::fault::Fault;
use crate::misplaced::{Misplaced, Options};
use crate::verb::Verb;
use crate::words::ColumnFault;
use clap::Command;
use clap::error::ErrorKind;
use refusal_sentences::Quoted;
use std::alloc::Global;

/// What is said of a word that begins with a hyphen, if a name is wanted.
const HYPHENED_NAME: &str = ": write a name that begins with - as ./-name, or put -- before it";

/// What is said of a word that begins with a hyphen, if an ordinal is wanted.
const NO_ORDINAL: &str = ": ordinals begin at 0";

/// What is said of a word that begins with a hyphen, if a query is wanted.
const NO_QUERY: &str = ": no query begins with -";

/// A fault of the command line in what `clap` takes for texts, with the usage of a command.
pub(crate) fn fault(mut command: Command<'_>, kind: ErrorKind, message: &str) -> Fault
    ensures { IsUnread result }
{
    match command.error(kind, message) {
        Ok(error) => Fault::from(error),
        Err(lacking) => Fault::from(lacking),
    }
}

impl Verb {
    /// The fault of a word that begins with a hyphen and is no option of the command.
    pub(crate) fn fault_of_word(
        self,
        alloc: Global,
        command: &Command<'_>,
        misplaced: Misplaced<'_>,
    ) -> Fault
        ensures { IsUnread result }
    {
        let name = self.name();
        let word = Quoted(misplaced.word.as_bytes());
        let options = Options(command);
        let advice = match self.place_of_query() {
            Some(place) if misplaced.place >= place => NO_QUERY,
            _ if self == Verb::DeleteRows && misplaced.place > 1 => NO_ORDINAL,
            _ => HYPHENED_NAME,
        };
        match format!(in alloc; "lanes {name} has no option {word}, only {options}{advice}") {
            Ok(message) => self.fault_of_kind(alloc, ErrorKind::UnknownArgument, message.as_str()),
            Err(lacking) => Fault::from(lacking),
        }
    }

    /// A fault of one of the command's arguments.
    pub(crate) fn fault(self, alloc: Global, message: &str) -> Fault
        ensures { IsUnread result }
    {
        self.fault_of_kind(alloc, ErrorKind::ValueValidation, message)
    }

    /// A fault of the command's words.
    pub(crate) fn fault_of_kind(self, alloc: Global, kind: ErrorKind, message: &str) -> Fault
        ensures { IsUnread result }
    {
        match self.command(alloc) {
            Ok(command) => fault(command, kind, message),
            Err(lacking) => Fault::from(lacking),
        }
    }

    /// The fault of a column's words.
    pub(crate) fn fault_of_column(self, alloc: Global, fault: ColumnFault<'_>) -> Fault
        ensures { IsUnread result }
    {
        match format!(in alloc; "{fault}") {
            Ok(message) => self.fault(alloc, message.as_str()),
            Err(lacking) => Fault::from(lacking),
        }
    }

    /// The fault of a word that is no name of a batch or no ordinal, as these words say.
    pub(crate) fn fault_of_number(self, alloc: Global, text: &str, words: &str) -> Fault
        ensures { IsUnread result }
    {
        let text = Quoted(text.as_bytes());
        match format!(in alloc; "{text} {words}") {
            Ok(message) => self.fault(alloc, message.as_str()),
            Err(lacking) => Fault::from(lacking),
        }
    }
}
