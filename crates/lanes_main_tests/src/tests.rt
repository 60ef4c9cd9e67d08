//! A run with the replies to its steps, and a script whose writer takes nothing.
use lanes_main::{Cluster, Reply, Sql, Step, reply_text, run, script};
use std::alloc::Global;
use std::io;
use std::io::Write;
use std::test::Fail;
use table_model::{BatchName, ColType, Counted, Number, Origin, Refusal, RowName, Rows, Schema};

/// Takes two bytes, and then none.
#[derive(Drop)]
struct Full {
    taken: usize,
}

impl Write for Full {
    fn write(&mut self, buf: &[u8]) -> io::Result<usize> {
        if self.taken >= 2 {
            return Ok(0);
        }
        let count = buf.len().min(2);
        self.taken = self.taken.saturating_add(count);
        Ok(count)
    }

    fn flush(&mut self) -> io::Result<()> {
        Ok(())
    }
}

#[test]
fn a_write_that_takes_nothing_ends_a_script(rt: HostRuntime) -> Result<(), Fail> {
    let mut reader = Counted::new(b"table 1 T A SMALLINT\n".as_slice());
    let mut writer = Counted::new(Full { taken: 0 });
    let outcome = script(rt.alloc(), &mut reader, &mut writer);
    assert!(rt; outcome == Err(Refusal::WriteFault));
    assert!(rt; writer.failures() == 1);
    assert!(rt; writer.into_inner().taken == 2);
    Ok(())
}

/// Rows of one cell each, which are all 7.
fn sevens(alloc: Global, count: usize) -> Result<Rows, Refusal> {
    let mut rows = Rows::new(alloc);
    for _ in 0..count {
        rows.push_row(&[Some(7)])?;
    }
    Ok(rows)
}

const NAME: BatchName = BatchName {
    origin: Origin(9),
    number: Number(2),
};

/// An append of so many rows at replica 1.
fn append(alloc: Global, count: usize) -> Result<Step, Refusal> {
    let rows = sevens(alloc, count)?;
    Ok(Step::Append { replica: 1, rows })
}

/// An insert of so many rows at replica 2, under one name.
fn insert(alloc: Global, count: usize) -> Result<Step, Refusal> {
    let rows = sevens(alloc, count)?;
    Ok(Step::Insert {
        replica: 2,
        name: NAME,
        rows,
    })
}

/// Two appends, of which one is refused, and a deletion of rows that aren't there yet.
fn first_steps(alloc: Global) -> Result<Vec<Step>, Refusal> {
    let mut steps = Vec::new(alloc);
    steps.push(append(alloc, 2)?)?;
    steps.push(append(alloc, 0)?)?;
    steps.push(Step::Delete {
        replica: 1,
        first: RowName {
            batch: NAME,
            ordinal: 1,
        },
        last: 8,
    })?;
    Ok(steps)
}

/// Adds two inserts under one name, of which one is refused, and a merge.
fn add_inserts(alloc: Global, steps: &mut Vec<Step>) -> Result<(), Refusal> {
    steps.push(insert(alloc, 3)?)?;
    steps.push(insert(alloc, 2)?)?;
    steps.push(Step::Merge {
        replica: 1,
        other: 2,
    })?;
    Ok(())
}

/// A query that counts all rows.
fn query(alloc: Global) -> Result<Step, Refusal> {
    let sql = String::from_str(alloc, "SELECT COUNT(*) FROM T")?;
    Ok(Step::Query {
        replica: 1,
        sql: Sql::from_string(sql),
    })
}

/// One step of each kind, and two that are refused.
fn steps_of_each_kind(alloc: Global) -> Result<Vec<Step>, Refusal> {
    let mut steps = first_steps(alloc)?;
    add_inserts(alloc, &mut steps)?;
    steps.push(query(alloc)?)?;
    Ok(steps)
}

/// The texts of all replies, one after another.
fn texts_of(alloc: Global, replies: &[Reply]) -> Result<Vec<u8>, Refusal> {
    let mut texts = Vec::new(alloc);
    for reply in replies {
        let text = reply_text(alloc, reply)?;
        texts.extend_from_slice(text.as_slice())?;
    }
    Ok(texts)
}

// The query counts the rows of both batches that aren't deleted: 2 and 1.
#[test]
fn a_run_has_the_reply_to_each_step(rt: HostRuntime) -> Result<(), Fail> {
    let schema = Schema::new(rt.alloc(), "T", &[("A", ColType::BigInt)])?;
    let mut cluster = Cluster::new(rt.alloc(), &schema, 2)?;
    let steps = steps_of_each_kind(rt.alloc())?;
    let replies = run(rt.alloc(), &mut cluster, steps.as_slice())?;
    let text = texts_of(rt.alloc(), replies.as_slice())?;
    let want =
        b"ok 1.1\nrefused EmptyBatch\nok\nok new\nrefused Conflict 9.2\nok\nok 1\nCOUNT(*)\n3\n";
    assert!(rt; text.as_slice() == want.as_slice());
    assert!(rt; cluster.stores().len() == 2 && cluster.stores()[0].batches() == 2);
    Ok(())
}

/// The canonical file of one batch 1.1 with one row, which is 7, in a table T of one column A SMALLINT.
pub(crate) const ONE_ROW: [u8; 42] = [
    70, 76, 67, 70, 1, 0, 1, 0, 1, 84, 2, 1, 65, 1, 0, 0, 0, 1, 0, 0, 0, 1, 0, 0, 0, 0, 0, 0, 0, 0,
    0, 0, 7, 0, 0, 0, 0, 0, 0, 0, 0, 0,
];
