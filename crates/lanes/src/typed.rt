//! Queries that a person types: lines that leave, that ask for help, and that end in a semicolon.

use std::io::{self, Read};

/// What is said at the beginning.
pub const WELCOME: &str = "a query in a line; help says more, and quit leaves\n";

/// What is said if help is asked for.
const HELP: &str =
    "A query is a line, as SELECT COUNT(*) FROM T; docs/SQL.md has the language, and lanes inspect shows the columns.\nquit, or Ctrl-D at the beginning of a line, leaves.\n";

/// What a line is that a person typed.
#[derive(Clone, Copy, Debug, PartialEq, Eq)]
enum Line {
    /// It leaves.
    Quit,
    /// It asks for help.
    Help,
    /// It is a query, or nothing.
    Query,
}

/// A reader of what a person types, who is answered on standard error; or of any other input, which is passed on as it is.
#[derive(Drop)]
pub struct Typed<'r, R, D> {
    rt: &'r R,
    inner: D,
    is_typed: bool,
    is_ended: bool,
}

impl<'r, R: Eprint, D: Read> Typed<'r, R, D> {
    /// A reader of an input that a person types or not.
    pub fn new(rt: &'r R, inner: D, is_typed: bool) -> Typed<'r, R, D> {
        Typed {
            rt,
            inner,
            is_typed,
            is_ended: false,
        }
    }

    /// Does what a line asks for, and answers how many bytes of it are to be read.
    fn take(&mut self, line: &mut [u8]) -> usize {
        match line_of(line) {
            Line::Quit => {
                self.is_ended = true;
                0
            }
            Line::Help => {
                let _ = eprint!(self.rt; "{HELP}");
                match line.first_mut() {
                    Some(first) => {
                        *first = b'\n';
                        1
                    }
                    None => 0,
                }
            }
            Line::Query => {
                drop_semicolon(line);
                line.len()
            }
        }
    }
}

/// What a line is, with its end. What is no whole line is as a query.
fn line_of(line: &[u8]) -> Line {
    let Some(text) = line.strip_suffix(b"\n") else {
        return Line::Query;
    };
    let word = text.trim_ascii();
    let word = word.strip_suffix(b";").unwrap_or(word);
    if [b"quit".as_slice(), b"exit", b"\\q"]
        .iter()
        .any(|known| word.eq_ignore_ascii_case(known))
    {
        Line::Quit
    } else if [b"help".as_slice(), b"\\h", b"?"]
        .iter()
        .any(|known| word.eq_ignore_ascii_case(known))
    {
        Line::Help
    } else {
        Line::Query
    }
}

/// Writes a space over a semicolon at the end of a line.
fn drop_semicolon(line: &mut [u8]) {
    let end = line.trim_ascii_end().len();
    let Some(at) = end.checked_sub(1) else {
        return;
    };
    if let Some(last) = line.get_mut(at) {
        if *last == b';' {
            *last = b' ';
        }
    }
}

impl<'r, R: Eprint, D: Read> Read for Typed<'r, R, D> {
    fn read(&mut self, buffer: &mut [u8]) -> io::Result<usize> {
        if self.is_ended {
            return Ok(0);
        }
        let count = self.inner.read(buffer)?;
        if !self.is_typed {
            return Ok(count);
        }
        let (line, _) = buffer.split_at_mut(count.min(buffer.len()));
        let taken = self.take(line);
        Ok(taken.min(buffer.len()))
    }
}
