//! The model at values worked out by hand from the rules of names, schemas, batches, refusals and failures.
use std::io;
use std::io::{Read, Write};
use std::test::Fail;
use table_model::{BatchName, Counted, Number, Origin, Refusal};
use test_support::{Stop, agree};

// Each refusal with the values that it has, one a line.
const REFUSALS: &str = "\
1 Memory
2 Conflict 4294967295.7
3 Full
4 EmptyBatch
5 BatchTooLong
6 WrongArity 0
7 OutOfType 0 1
8 SchemaDiffers
9 NumbersSpent
10 NoSuchVector
11 BadName
12 BadSchema
13 Truncated 41
14 BadMagic
15 BadVersion
16 BadOrder 19
17 BadCount 13
18 BadWidth 29
19 BadTag 28
20 BadMask 27
21 BadDictionary 34
22 BadCode 35
23 BadRange 0
24 TrailingBytes 42
25 NotCanonical 18446744073709551615
26 Syntax 28
27 NoSuchTable
28 NoSuchColumn 13
29 NotGrouped 7
30 NumberTooLarge 31
31 TooDeep
32 LineTooLong
33 ReadFault
34 WriteFault
35 BadLine
36 NoSuchReplica
37 NoSuchMessage
";

const ALL_REFUSALS: [Refusal; 37] = [
    Refusal::Memory,
    Refusal::Conflict(BatchName {
        origin: Origin(4_294_967_295),
        number: Number(7),
    }),
    Refusal::Full,
    Refusal::EmptyBatch,
    Refusal::BatchTooLong,
    Refusal::WrongArity(0),
    Refusal::OutOfType { row: 0, column: 1 },
    Refusal::SchemaDiffers,
    Refusal::NumbersSpent,
    Refusal::NoSuchVector,
    Refusal::BadName,
    Refusal::BadSchema,
    Refusal::Truncated(41),
    Refusal::BadMagic,
    Refusal::BadVersion,
    Refusal::BadOrder(19),
    Refusal::BadCount(13),
    Refusal::BadWidth(29),
    Refusal::BadTag(28),
    Refusal::BadMask(27),
    Refusal::BadDictionary(34),
    Refusal::BadCode(35),
    Refusal::BadRange(0),
    Refusal::TrailingBytes(42),
    Refusal::NotCanonical(18_446_744_073_709_551_615),
    Refusal::Syntax(28),
    Refusal::NoSuchTable,
    Refusal::NoSuchColumn(13),
    Refusal::NotGrouped(7),
    Refusal::NumberTooLarge(31),
    Refusal::TooDeep,
    Refusal::LineTooLong,
    Refusal::ReadFault,
    Refusal::WriteFault,
    Refusal::BadLine,
    Refusal::NoSuchReplica,
    Refusal::NoSuchMessage,
];

#[test]
fn refusals_have_their_numbers_and_texts(rt: HostRuntime) -> Result<(), Fail> {
    let mut text = String::new(rt.alloc());
    for &refusal in &ALL_REFUSALS {
        let number = refusal.number();
        text.push_str(format!(in rt.alloc(); "{number} {refusal}\n")?.as_str())?;
    }
    assert!(rt; text.as_str() == REFUSALS);
    Ok(())
}

const INTERRUPTED: io::ErrorKind = io::ErrorKind::Interrupted;

const BROKEN: io::ErrorKind = io::ErrorKind::BrokenPipe;

/// A count of bytes, or the kind of an error, for each of five calls.
type Script = [Result<usize, io::ErrorKind>; 5];

/// A reader and a writer that answers each call in turn by its script, and a broken pipe after that.
#[derive(Drop)]
struct Scripted {
    outcomes: Script,
    calls: usize,
}

impl Scripted {
    fn answer(&mut self, room: usize) -> io::Result<usize> {
        let outcome = self.outcomes.get(self.calls).copied();
        self.calls = self.calls.saturating_add(1);
        match outcome.unwrap_or(Err(BROKEN)) {
            Ok(count) => Ok(count.min(room)),
            Err(kind) => Err(io::Error::from(kind)),
        }
    }
}

impl Read for Scripted {
    fn read(&mut self, buffer: &mut [u8]) -> io::Result<usize> {
        let count = self.answer(buffer.len())?.min(buffer.len());
        buffer[..count].fill(b'x');
        Ok(count)
    }
}

impl Write for Scripted {
    fn write(&mut self, piece: &[u8]) -> io::Result<usize> {
        Ok(self.answer(piece.len())?.min(piece.len()))
    }

    fn flush(&mut self) -> io::Result<()> {
        Ok(())
    }
}

// A read fails by an error alone: one of no bytes is the end. The error comes as it is, and no read is tried again.
#[test]
fn failed_reads_are_counted_and_each_read_is_passed_on(rt: HostRuntime) -> Result<(), Fail> {
    let mut reader = Counted::new(Scripted {
        outcomes: [Ok(2), Err(INTERRUPTED), Ok(0), Err(BROKEN), Ok(1)],
        calls: 0,
    });
    for (outcome, bytes, failures) in [
        (Ok(2), *b"xx.", 0),
        (Err(INTERRUPTED), *b"...", 1),
        (Ok(0), *b"...", 1),
        (Err(BROKEN), *b"...", 2),
        (Ok(1), *b"x..", 2),
    ] {
        let mut buffer = *b"...";
        match reader.read(&mut buffer) {
            Ok(read) => assert!(rt; outcome == Ok(read)),
            Err(e) => assert!(rt; outcome == Err(e.kind())),
        }
        assert!(rt; buffer == bytes && reader.failures() == failures);
    }
    assert!(rt; reader.into_inner().calls == 5);
    Ok(())
}

// A write fails by an error, and where it takes none of a piece that isn't empty. The error comes as it is, and no write is
// tried again.
#[test]
fn failed_writes_are_counted_and_each_write_is_passed_on(rt: HostRuntime) -> Result<(), Fail> {
    let mut writer = Counted::new(Scripted {
        outcomes: [Ok(2), Ok(0), Err(INTERRUPTED), Err(BROKEN), Ok(0)],
        calls: 0,
    });
    let steps: [(&[u8], Result<usize, io::ErrorKind>, u64); 5] = [
        (b"abc", Ok(2), 0),
        (b"c", Ok(0), 1),
        (b"c", Err(INTERRUPTED), 2),
        (b"c", Err(BROKEN), 3),
        (b"", Ok(0), 3),
    ];
    for (piece, outcome, failures) in steps {
        match writer.write(piece) {
            Ok(taken) => assert!(rt; outcome == Ok(taken)),
            Err(e) => assert!(rt; outcome == Err(e.kind())),
        }
        assert!(rt; writer.failures() == failures);
    }
    assert!(rt; writer.into_inner().calls == 5);
    Ok(())
}

// Three bytes by a script, and then the result, the failures and the calls. A short write isn't a failure; after one that
// fails none is tried, though the script has more that would be taken.
const WHOLE_WRITES: [(Script, (Result<(), Refusal>, u64, usize)); 6] = [
    ([Ok(1), Ok(2), Ok(3), Ok(3), Ok(3)], (Ok(()), 0, 2)),
    (
        [Err(INTERRUPTED), Ok(3), Ok(3), Ok(3), Ok(3)],
        (Err(Refusal::WriteFault), 1, 1),
    ),
    (
        [Err(BROKEN), Ok(3), Ok(3), Ok(3), Ok(3)],
        (Err(Refusal::WriteFault), 1, 1),
    ),
    (
        [Ok(0), Ok(3), Ok(3), Ok(3), Ok(3)],
        (Err(Refusal::WriteFault), 1, 1),
    ),
    (
        [Ok(1), Err(INTERRUPTED), Ok(3), Ok(3), Ok(3)],
        (Err(Refusal::WriteFault), 1, 2),
    ),
    (
        [Ok(1), Ok(0), Ok(3), Ok(3), Ok(3)],
        (Err(Refusal::WriteFault), 1, 2),
    ),
];

#[test]
fn bytes_are_written_whole_until_a_write_fails() -> Result<(), Fail> {
    for &(outcomes, wanted) in &WHOLE_WRITES {
        let mut writer = Counted::new(Scripted { outcomes, calls: 0 });
        let result = writer.write_whole(b"abc");
        let failures = writer.failures();
        agree((result, failures, writer.into_inner().calls), wanted)?;
    }
    Ok(())
}

// Three bytes come or go, and then each call fails.
#[test]
fn a_reader_and_a_writer_stop_after_their_bytes(rt: HostRuntime) -> Result<(), Fail> {
    let mut reader = Counted::new(Stop {
        inner: b"abcde".as_slice(),
        left: 3,
    });
    for (count, failures) in [(Some(2), 0), (Some(1), 0), (None, 1), (None, 2)] {
        let mut buffer = *b"..";
        assert!(rt; reader.read(&mut buffer).ok() == count && reader.failures() == failures);
    }
    let mut device = Stop {
        inner: Vec::new(rt.alloc()),
        left: 3,
    };
    agree(device.flush().is_ok(), true)?;
    let mut writer = Counted::new(device);
    agree(writer.write_whole(b"ab"), Ok(()))?;
    agree(writer.write_whole(b"cde"), Err(Refusal::WriteFault))?;
    agree(writer.failures(), 1)?;
    agree(writer.into_inner().inner.as_slice(), b"abc".as_slice())
}

// No length of a piece is refused: what memory holds comes and goes whole.
#[test]
fn a_long_piece_is_passed_on_whole(rt: HostRuntime) -> Result<(), Fail> {
    let piece = Vec::from_elem(rt.alloc(), b'x', 1_000_000)?;
    let mut writer = Counted::new(Vec::new(rt.alloc()));
    agree(writer.write(piece.as_slice()).ok(), Some(1_000_000))?;
    assert!(rt; writer.failures() == 0 && writer.into_inner().as_slice() == piece.as_slice());
    let mut buffer = Vec::from_elem(rt.alloc(), b'.', 1_000_000)?;
    let mut reader = Counted::new(piece.as_slice());
    agree(reader.read(buffer.as_mut_slice()).ok(), Some(1_000_000))?;
    assert!(rt; reader.failures() == 0 && buffer.as_slice() == piece.as_slice());
    let mut whole = Counted::new(Vec::new(rt.alloc()));
    agree(whole.write_whole(piece.as_slice()), Ok(()))?;
    assert!(rt; whole.failures() == 0 && whole.into_inner().as_slice() == piece.as_slice());
    Ok(())
}
