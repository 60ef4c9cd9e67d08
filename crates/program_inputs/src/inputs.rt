//! What commands read: files that are opened at the first read, and standard input.

use crate::beginning::Begun;
use crate::progress::{Progress, Told};
use command_line::Source;
use either::Either;
use std::fs::{self, Files};
use std::io::{self, Read};
use std::rt::Clock;
use table_model::Counted;

/// A file that is opened at the first read and closed at its end.
#[derive(Drop)]
pub struct LazyFile<'r, 'n, R: Files> {
    rt: &'r R,
    name: &'n str,
    file: Option<R::File>,
    is_begun: bool,
}

impl<'r, 'n, R: Files> LazyFile<'r, 'n, R> {
    /// The file of this name.
    pub fn new(rt: &'r R, name: &'n str) -> LazyFile<'r, 'n, R> {
        LazyFile {
            rt,
            name,
            file: None,
            is_begun: false,
        }
    }

    /// Opens the file, if no read has begun.
    fn begin(&mut self) -> io::Result<()> {
        if !self.is_begun {
            self.is_begun = true;
            self.file = Some(fs::open(self.rt, self.name)?);
        }
        Ok(())
    }
}

impl<'r, 'n, R: Files> Read for LazyFile<'r, 'n, R> {
    fn read(&mut self, buffer: &mut [u8]) -> io::Result<usize> {
        self.begin()?;
        let Some(file) = &mut self.file else {
            return Ok(0);
        };
        let count = file.read(buffer)?;
        if count == 0 && !buffer.is_empty() {
            self.file = None;
        }
        Ok(count)
    }
}

/// A file, as a reader that counts its failures and knows what it began with.
pub fn reader_of<'r, 'n, R: Files>(
    rt: &'r R,
    name: &'n str,
) -> Counted<Begun<LazyFile<'r, 'n, R>>> {
    Counted::new(Begun::new(LazyFile::new(rt, name)))
}

/// A reader of a source that counts its failures, says how far it is, and knows what it began with.
pub type SourceReader<'r, 'n, R> = Counted<
    Told<'r, 'n, R, Begun<Either<<R as Input>::Reader, LazyFile<'r, 'n, R>>>>,
>;

/// A source, as such a reader.
pub fn source_of<'r, 'n, R: Eprint + Input + Files + Clock>(
    rt: &'r R,
    progress: &'r Progress<'r, R>,
    source: Source<'n>,
) -> SourceReader<'r, 'n, R> {
    let input = match source {
        Source::Input => Either::Left(rt.reader()),
        Source::File(name) => Either::Right(LazyFile::new(rt, name)),
    };
    Counted::new(Told::new(progress, source, Begun::new(input)))
}
