//! Merging files into one.
ghost use Rattle.std.specs.Prelude.{◌≡◌, ◌∷◌, map, List, ℕ, Some, IsTrue, IfErr, OnOk};
ghost use Rattle.column_file.specs.Input.{IsReadWhole};
ghost use Rattle.replica_changes.specs.Commands.{Merging, MergesAll, Merges};
ghost use Rattle.replica_changes.specs.Refusals.{AreReadWhole, StopsAt, ReadInTurn, EndsMerge, reading_or, is_refusal_of_merge};

use crate::file_writing::write_changed;
use column_file::open;
use replica_store::{Joined, Store};
use std::alloc::Global;
use std::io::{Read, Write};
use table_model::{Counted, Origin, Refusal};

/// The join with what a file holds. The file's own store is let go before the call ends.
fn merge_one<R: Read>(
    alloc: Global,
    joined: Joined,
    reader: &mut Counted<R>,
) -> Result<Joined, Refusal>
    ensures merged { Merging (λ whole. whole.replica) result (R.remaining reader.old.0) joined.replica }
    ensures read { OnOk result (IsReadWhole R.remaining reader.old reader.new) }
    ensures listed { IfErr result (λ e. IsTrue (reading_or is_refusal_of_merge e)) }
    ensures stops { IfErr result (λ e. StopsAt R.remaining e reader.old reader.new) }
{
    let other = open(alloc, reader, Origin(1))?;
    joined.with(alloc, other)
}

/// What a store and files hold, joined file by file.
fn merge_others<R: Read>(
    alloc: Global,
    first: Store,
    readers: &mut [Counted<R>],
) -> Result<Store, Refusal>
    ensures merged { (inputs : List (List ℕ)) → map (λ reader. R.remaining reader.0) readers.old ≡ map Some inputs → MergesAll (λ whole. whole.replica) result first.replica inputs }
    ensures read { OnOk result (AreReadWhole R.remaining readers.old readers.new) }
    ensures listed { IfErr result (λ e. IsTrue (reading_or is_refusal_of_merge e)) }
    ensures in_turn { IfErr result (λ e. ReadInTurn R.remaining e readers.old readers.new) }
{
    let mut joined = Joined::new(alloc, first)?;
    for index in 0..readers.len() {
        joined = merge_one(alloc, joined, &mut readers[index])?;
    }
    joined.into_store(alloc)
}

/// Writes the canonical file of what all of some files hold. Each reader is read to its end, and its file merged, before the next
/// one is read.
///
/// Refused are, file by file, what [`open`] refuses, and then `SchemaDiffers`, `Conflict` with the least name that has two lists of
/// rows, and `Full`; `Memory`, which may come in the place of any of them; `WriteFault`. Only with the last anything is written: a
/// front.
pub fn merge<R: Read, W: Write>(
    alloc: Global,
    first: &mut Counted<R>,
    others: &mut [Counted<R>],
    writer: &mut Counted<W>,
) -> Result<(), Refusal>
    ensures made { (input : List ℕ) (inputs : List (List ℕ)) → R.remaining first.old.0 ≡ Some input → map (λ reader. R.remaining reader.0) others.old ≡ map Some inputs →
        Merges result (W.contents writer.old.0) (W.contents writer.new.0) input inputs }
    ensures ends { EndsMerge R.remaining W.contents (first.old ∷ others.old) (first.new ∷ others.new) writer.old writer.new result }
{
    let store = open(alloc, first, Origin(1))?;
    let whole = merge_others(alloc, store, others)?;
    write_changed(alloc, &whole, true, writer)
}
