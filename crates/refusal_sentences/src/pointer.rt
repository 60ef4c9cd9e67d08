//! The place in a query at which it is refused.

use crate::quoted::Printable;
use std::fmt;
use table_model::Refusal;

/// The line of a query's place, with a space for each tab and other control character, and a caret under the place.
#[derive(Clone, Copy, Debug)]
pub struct Pointer<'a> {
    before: &'a str,
    after: &'a str,
}

impl<'a> Pointer<'a> {
    /// The place at which a query is refused. None if the refusal names no place of the text.
    pub fn new(query: &'a str, refusal: Refusal) -> Option<Pointer<'a>> {
        let at = place_in_query(refusal)?;
        let at = usize::try_from(at).ok()?;
        let before = query.get(..at)?;
        let after = query.get(at..)?;
        let before = match before.rsplit_once('\n') {
            Some((_, rest)) => rest,
            None => before,
        };
        let after = match after.split_once('\n') {
            Some((rest, _)) => rest,
            None => after,
        };
        Some(Pointer { before, after })
    }
}

/// The place in a query at which it is refused, in bytes from 0, if the refusal names one.
fn place_in_query(refusal: Refusal) -> Option<u64> {
    match refusal {
        Refusal::Syntax(at)
        | Refusal::NoSuchColumn(at)
        | Refusal::NotGrouped(at)
        | Refusal::NumberTooLarge(at) => Some(at),
        _ => None,
    }
}

impl<'a> fmt::Display for Pointer<'a> {
    fn fmt<W: fmt::Write>(&self, f: &mut fmt::Formatter<W>) -> fmt::Result {
        let before = Printable(self.before);
        let after = Printable(self.after);
        writeln!(f, "{before}{after}")?;
        for _ in self.before.chars() {
            f.write_char(' ')?;
        }
        f.write_str("^\n")
    }
}
