//! The operands of a command line: words that are neither options nor values of options.

use clap::{ArgAction, Command};
use std::fmt;

/// The operands behind the name of a command.
#[derive(Clone, Copy, Debug)]
pub struct Operands<'a> {
    /// The first one that begins with a hyphen at the place of a name or a query.
    pub misplaced: Option<Misplaced<'a>>,
    /// How many there are.
    pub count: usize,
    /// Whether an option before the end of options asks for help.
    pub is_help_asked: bool,
}

/// A word that begins with a hyphen, is no option, and is at the place of a name or a query.
#[derive(Clone, Copy, Debug)]
pub struct Misplaced<'a> {
    /// The word.
    pub word: &'a str,
    /// How many words come before it that are neither options nor values of options.
    pub place: usize,
}

/// What a word is behind the name of a command.
#[derive(Clone, Copy, Debug, PartialEq, Eq)]
enum Word {
    /// An option that is whole: a flag, or one with its value.
    WholeOption,
    /// The option that asks for help.
    Help,
    /// An option whose value is the next word.
    OptionBeforeValue,
    /// The word after which each word is taken as it is.
    EndOfOptions,
    /// Any other word that begins with a hyphen and is more than that.
    Hyphened,
    /// Any other word.
    Plain,
}

impl<'a> Operands<'a> {
    /// Those of the words behind the name of a command. At the place of a condition a word may begin with a hyphen.
    pub fn of(
        command: &Command<'_>,
        words: &'a [String],
        condition: Option<usize>,
    ) -> Operands<'a> {
        let mut misplaced = None;
        let mut is_help_asked = false;
        let mut count = 0usize;
        let mut is_value = false;
        let mut is_ended = false;
        for given in words {
            let word = given.as_str();
            let kind = if is_ended {
                Word::Plain
            } else if is_value {
                Word::WholeOption
            } else {
                kind_of_word(command, word)
            };
            is_value = kind == Word::OptionBeforeValue;
            match kind {
                Word::EndOfOptions => is_ended = true,
                Word::Hyphened | Word::Plain => {
                    if kind == Word::Hyphened && condition != Some(count) {
                        misplaced = misplaced.or(Some(Misplaced { word, place: count }));
                    }
                    count = count.saturating_add(1);
                }
                Word::Help => is_help_asked = true,
                Word::WholeOption | Word::OptionBeforeValue => {}
            }
        }
        Operands {
            misplaced,
            count,
            is_help_asked,
        }
    }
}

/// What a word is that is no value of an option.
fn kind_of_word(command: &Command<'_>, word: &str) -> Word {
    if word == "--" {
        return Word::EndOfOptions;
    }
    if word == "-h" || word == "--help" {
        return Word::Help;
    }
    match word
        .strip_prefix("--")
        .and_then(|text| option_in(command, text))
    {
        Some(kind) => kind,
        None if word.len() > 1 && word.starts_with('-') => Word::Hyphened,
        None => Word::Plain,
    }
}

/// What an option of a command is, by its text behind the two hyphens.
fn option_in(command: &Command<'_>, text: &str) -> Option<Word> {
    let (name, has_value) = match text.split_once('=') {
        Some((name, _)) => (name, true),
        None => (text, false),
    };
    for option in command.get_arguments() {
        if option.get_long().is_some_and(|long| long == name) {
            let is_flag = matches!(option.get_action(), ArgAction::SetTrue);
            return Some(if has_value || is_flag {
                Word::WholeOption
            } else {
                Word::OptionBeforeValue
            });
        }
    }
    None
}

/// The options of a command as words of a sentence: `--format and --help`.
#[derive(Clone, Copy)]
pub struct Options<'c, 'a>(pub &'c Command<'a>);

impl<'c, 'a> fmt::Display for Options<'c, 'a> {
    fn fmt<W: fmt::Write>(&self, f: &mut fmt::Formatter<W>) -> fmt::Result {
        let longs = self
            .0
            .get_arguments()
            .iter()
            .filter_map(|option| option.get_long());
        for (index, long) in longs.enumerate() {
            let before = if index == 0 { "" } else { ", " };
            write!(f, "{before}--{long}")?;
        }
        let has_any = self
            .0
            .get_arguments()
            .iter()
            .any(|option| option.get_long().is_some());
        f.write_str(if has_any { " and --help" } else { "--help" })
    }
}
