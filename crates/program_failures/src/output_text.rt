//! What is written to standard output, and what a failed write of it is refused as.

use crate::failure::Failure;
use program_inputs::{Cause, Watched};
use std::io::{self, BufWriter, Printer, Write};
use table_model::{Counted, Refusal};

/// Standard output, with a buffer.
pub fn buffered<R: Print + AllocGlobal>(
    rt: &R,
) -> Result<Counted<BufWriter<Watched<Printer<'_, R>>>>, Refusal> {
    match BufWriter::new(rt.alloc(), Watched::new(io::writer(rt))) {
        Ok(buffer) => Ok(Counted::new(buffer)),
        Err(_) => Err(Refusal::Memory),
    }
}

/// Writes a line to standard output.
pub fn write_line<R: Print + AllocGlobal>(rt: &R, line: &[u8]) -> Result<(), Failure> {
    let mut writer = Counted::new(Watched::new(io::writer(rt)));
    let outcome = writer.write_whole(line);
    match writer.into_inner().ended(outcome) {
        Ok(()) => Ok(()),
        Err(cause) => Err(Failure::of_output(rt.alloc(), cause)),
    }
}

/// Writes out what a buffer still has, if all went well before.
pub fn flushed<W: Write + Drop>(
    writer: Counted<BufWriter<Watched<W>>>,
    outcome: Result<(), Refusal>,
) -> Result<(), Cause> {
    let mut buffer = writer.into_inner();
    let outcome = match outcome {
        Ok(()) => match buffer.flush() {
            Ok(()) => Ok(()),
            Err(_) => Err(Refusal::WriteFault),
        },
        Err(refusal) => Err(refusal),
    };
    let (watched, _) = buffer.into_parts();
    watched.ended(outcome)
}

/// What came of a report: a refusal of it is one of standard output, or out of memory.
pub fn told<R: AllocGlobal>(rt: &R, outcome: Result<(), Cause>) -> Result<(), Failure> {
    match outcome {
        Ok(()) => Ok(()),
        Err(cause) if cause.refusal == Refusal::WriteFault => {
            Err(Failure::of_output(rt.alloc(), cause))
        }
        Err(cause) => Err(Failure::from(cause.refusal)),
    }
}
