//! Forgetting batches of a replica in a file of which every row is deleted.
ghost use Rattle.std.specs.Prelude.{◌≡◌, ◌==◌, not, IsTrue, IfErr};
ghost use Rattle.replica_changes.specs.Commands.{Changes, Makes};
ghost use Rattle.replica_changes.specs.Forgetting.{forgetting};
ghost use Rattle.replica_changes.specs.Refusals.{Ends, is_refusal_of_forget};

use crate::file_writing::write_changed;
use column_file::open;
use replica_store::{Forgotten, Store};
use std::alloc::Global;
use std::io::{Read, Write};
use table_model::{Counted, Origin, Refusal};

/// Drops the batches of a store of which every row is deleted. Their deletions stay. `Memory` is the only refusal.
pub fn forget_dead(alloc: Global, store: &mut Store) -> Result<Forgotten, Refusal>
    ensures makes { Makes (λ done. (done.batches, done.rows)) (λ done. not (done.batches == 0)) store.old.replica result store.new.replica (forgetting store.old.replica) }
    ensures refused { IfErr result (λ e. IsTrue (is_refusal_of_forget e)) }
{
    store.forget(alloc)
}

/// Drops the batches of a file of which every row is deleted, and writes the file anew if there are such. Their deletions stay, so
/// that no query is answered otherwise, and a batch that comes again comes with its rows deleted.
///
/// Refused are, in this order, what [`open`] refuses; `Memory`, which may come in the place of any of it; `WriteFault`. Only with the
/// last anything is written: a front.
pub fn forget<R: Read, W: Write>(
    alloc: Global,
    reader: &mut Counted<R>,
    writer: &mut Counted<W>,
) -> Result<Forgotten, Refusal>
    ensures made { Changes (λ done. (done.batches, done.rows)) (λ done. not (done.batches == 0)) result (R.remaining reader.old.0) (W.contents writer.old.0) (W.contents writer.new.0) forgetting }
    ensures ends { Ends R.remaining W.contents is_refusal_of_forget forgetting reader.old reader.new writer.old writer.new result }
{
    let mut store = open(alloc, reader, Origin(1))?;
    let done = forget_dead(alloc, &mut store)?;
    write_changed(alloc, &store, done.batches != 0, writer)?;
    Ok(done)
}
