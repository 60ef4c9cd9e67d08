//! Scripts, checks and queries whose reader or writer stops at a byte.
use crate::tests::ONE_ROW;
use lanes_main::{check_file, query_file, script};
use std::alloc::Global;
use std::test::Fail;
use table_model::{Counted, Refusal};
use test_support::Stop;

/// A script whose reader or writer stops: its lines, their replies, and after how many bytes each line and its reply end.
struct Stopped {
    lines: &'static str,
    replies: &'static str,
    ends: &'static [(usize, usize)],
}

/// Scripts that stop: of one row, of files, of messages about a gap with a deletion, and of vectors that are recoded.
const STOPPED: [Stopped; 4] = [
    Stopped {
        lines: "table 2 T A SMALLINT\nappend 1 (7)\nmerge 2 1\nquery 2 SELECT COUNT(*) FROM T\nexport 2\n",
        replies: "ok\nok 1.1\nok\nok 1\nCOUNT(*)\n1\nok 464c43460100010001540201410100000001000000010000000000000000000007000000000000000000\n",
        ends: &[(21, 3), (34, 10), (44, 13), (75, 29), (84, 117)],
    },
    Stopped {
        lines: "table 2 T A SMALLINT\nappend 1 (7)\nexport 1\nopen 2 464c43460100010001540201410100000001000000010000000000000000000007000000000000000000\nexport 2\n",
        replies: "ok\nok 1.1\nok 464c43460100010001540201410100000001000000010000000000000000000007000000000000000000\nok\nok 464c43460100010001540201410100000001000000010000000000000000000007000000000000000000\n",
        ends: &[(21, 3), (34, 10), (43, 98), (135, 101), (144, 189)],
    },
    Stopped {
        lines: "table 2 T A SMALLINT\nappend 1 (1)\nappend 1 (2)\nappend 1 (3)\ninsert 2 1.1 (1)\ninsert 2 1.3 (3)\nask 2\nserve 1 1\ndelete 2 1.2 0 0\ntake 2 2\ntake 2 2\nquery 2 SELECT COUNT(*),SUM(A) FROM T\nexport 2\n",
        replies: "ok\nok 1.1\nok 1.2\nok 1.3\nok new\nok new\nok 1\nok 2\nok\nok\nok\nok 1\nCOUNT(*),SUM(A)\n2,4\nok 464c4346010001000154020141030000000100000001000000000000000000000100010000000200000000000000000000020001000000030000000000000000000003000100000000000000010000000200000000000000\n",
        ends: &[
            (21, 3),
            (34, 10),
            (47, 17),
            (60, 24),
            (77, 31),
            (94, 38),
            (100, 43),
            (110, 48),
            (127, 51),
            (136, 54),
            (145, 57),
            (183, 82),
            (192, 262),
        ],
    },
    Stopped {
        lines: "table 2 T A SMALLINT\nappend 1 (7)\nrecode 1 1.1 0 0 DICT\nmerge 2 1\nrecode 2 1.1 0 0 DELTA\nrecode 2 1.1 1 0 FOR\nquery 2 SELECT COUNT(*) FROM T\nexport 2\n",
        replies: "ok\nok 1.1\nok\nok\nok\nrefused NoSuchVector\nok 1\nCOUNT(*)\n1\nok 464c43460100010001540201410100000001000000010000000000000000000007000000000000000000\n",
        ends: &[
            (21, 3),
            (34, 10),
            (56, 13),
            (66, 16),
            (89, 19),
            (110, 40),
            (141, 56),
            (150, 144),
        ],
    },
];

impl Stopped {
    /// How many bytes of replies are due once so many bytes of the lines were read: those of the whole lines.
    fn due_after(&self, read: usize) -> usize {
        let mut due = 0;
        for (line_end, reply_end) in self.ends {
            if *line_end <= read {
                due = *reply_end;
            }
        }
        due
    }

    /// Whether a reader that fails after so many bytes ends the script as a failed read, with the replies to all whole lines.
    fn is_answered_after_read(&self, alloc: Global, left: usize) -> bool {
        let mut reader = Counted::new(Stop {
            inner: self.lines.as_bytes(),
            left,
        });
        let mut writer = Counted::new(Vec::new(alloc));
        let outcome = script(alloc, &mut reader, &mut writer);
        let written = writer.into_inner();
        outcome == Err(Refusal::ReadFault)
            && reader.failures() == 1
            && written.len() == self.due_after(left)
            && self.replies.as_bytes().starts_with(written.as_slice())
    }

    /// Whether a writer that fails after so many bytes ends the script as a failed write, with so much of the replies.
    fn is_written_until(&self, alloc: Global, left: usize) -> bool {
        let mut reader = Counted::new(self.lines.as_bytes());
        let mut writer = Counted::new(Stop {
            inner: Vec::new(alloc),
            left,
        });
        let outcome = script(alloc, &mut reader, &mut writer);
        let failures = writer.failures();
        let written = writer.into_inner().inner;
        outcome == Err(Refusal::WriteFault)
            && failures == 1
            && written.len() == left
            && self.replies.as_bytes().starts_with(written.as_slice())
    }
}

// A reader that fails after n bytes, for each n up to the whole script.
#[test]
fn after_a_failed_read_the_whole_lines_are_answered(rt: HostRuntime) -> Result<(), Fail> {
    for stopped in &STOPPED {
        for left in 0..=stopped.lines.len() {
            assert!(rt;
                stopped.is_answered_after_read(rt.alloc(), left),
                "after {left} bytes"
            );
        }
    }
    Ok(())
}

// A writer that fails after n bytes, for each n below the whole text.
#[test]
fn after_a_failed_write_a_front_of_the_replies_is_written(rt: HostRuntime) -> Result<(), Fail> {
    for stopped in &STOPPED {
        for left in 0..stopped.replies.len() {
            assert!(rt;
                stopped.is_written_until(rt.alloc(), left),
                "after {left} bytes"
            );
        }
    }
    Ok(())
}

/// The calls that read a file and write what they find.
#[derive(Clone, Copy)]
enum Call {
    Check,
    Query,
}

/// What the file of one row is asked.
const QUERIES: [&str; 2] = ["SELECT SUM(A) FROM T", "SELECT COUNT(*) FROM T"];

/// A call over the file of one row whose reader or writer stops, and all that it writes.
struct Told {
    call: Call,
    text: &'static str,
}

const TOLD: [Told; 2] = [
    Told {
        call: Call::Check,
        text: "ok batches=1 ranges=0\n",
    },
    Told {
        call: Call::Query,
        text: "SUM(A)\n7\nCOUNT(*)\n1\n",
    },
];

/// More bytes than a file of one row has, and than is written of it.
const PLENTY: usize = 1000;

/// Makes a call.
fn tell(
    alloc: Global,
    call: Call,
    reader: &mut Counted<Stop<&[u8]>>,
    writer: &mut Counted<Stop<Vec<u8>>>,
) -> Result<(), Refusal> {
    match call {
        Call::Check => check_file(alloc, reader, writer),
        Call::Query => query_file(alloc, reader, QUERIES.as_slice(), writer),
    }
}

/// How a call over a file ended.
#[derive(Drop)]
struct Ended {
    outcome: Result<(), Refusal>,
    read_failures: u64,
    write_failures: u64,
    written: Vec<u8>,
}

impl Ended {
    /// Whether the call ended so after so many failures of its reader and of its writer, and wrote this text.
    fn is(&self, outcome: Result<(), Refusal>, failures: (u64, u64), text: &[u8]) -> bool {
        self.outcome == outcome
            && (self.read_failures, self.write_failures) == failures
            && self.written.as_slice() == text
    }
}

impl Told {
    /// How the call ends if its reader stops after so many bytes, and its writer after so many.
    fn ended(&self, alloc: Global, readable: usize, writable: usize) -> Ended {
        let mut reader = Counted::new(Stop {
            inner: ONE_ROW.as_slice(),
            left: readable,
        });
        let mut writer = Counted::new(Stop {
            inner: Vec::new(alloc),
            left: writable,
        });
        let outcome = tell(alloc, self.call, &mut reader, &mut writer);
        Ended {
            outcome,
            read_failures: reader.failures(),
            write_failures: writer.failures(),
            written: writer.into_inner().inner,
        }
    }

    /// Whether a reader that fails after so many bytes ends the call as a failed read, with nothing written.
    fn is_silent_after_read(&self, alloc: Global, left: usize) -> bool {
        let ended = self.ended(alloc, left, PLENTY);
        ended.is(Err(Refusal::ReadFault), (1, 0), b"")
    }

    /// Whether a writer that fails after so many bytes ends the call as a failed write, with so much of the text.
    fn is_written_until(&self, alloc: Global, left: usize) -> bool {
        let ended = self.ended(alloc, PLENTY, left);
        let text = self.text.as_bytes();
        let (front, _) = text.split_at(left.min(text.len()));
        ended.is(Err(Refusal::WriteFault), (0, 1), front)
    }

    /// Whether the call writes its text if neither stops.
    fn is_told(&self, alloc: Global) -> bool {
        let ended = self.ended(alloc, PLENTY, PLENTY);
        ended.is(Ok(()), (0, 0), self.text.as_bytes())
    }
}

// The end of a file is seen by a read of its own: a reader that fails right after the last byte is a failed read as well.
#[test]
fn after_a_failed_read_nothing_is_told_of_a_file(rt: HostRuntime) -> Result<(), Fail> {
    for told in &TOLD {
        for left in 0..=ONE_ROW.len() {
            assert!(rt;
                told.is_silent_after_read(rt.alloc(), left),
                "after {left} bytes"
            );
        }
    }
    Ok(())
}

#[test]
fn after_a_failed_write_a_front_is_told_of_a_file(rt: HostRuntime) -> Result<(), Fail> {
    for told in &TOLD {
        for left in 0..told.text.len() {
            assert!(rt;
                told.is_written_until(rt.alloc(), left),
                "after {left} bytes"
            );
        }
        assert!(rt; told.is_told(rt.alloc()));
    }
    Ok(())
}
