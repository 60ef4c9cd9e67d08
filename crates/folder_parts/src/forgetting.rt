//! The part of a forget.
ghost use Rattle.std.specs.Prelude.{◌≡◌, ◌==◌, not, true, List, ℕ, Ok, IfOk};
ghost use Rattle.table_model.specs.Operation.{Operation};
ghost use Rattle.table_model.specs.Table.{Table};
ghost use Rattle.replica_changes.specs.Commands.{merged_files};
ghost use Rattle.replica_changes.specs.Forgetting.{forgetting};
ghost use Rattle.folder_parts.specs.FolderLaws.{folder_operations};
ghost use Rattle.folder_parts.specs.ForgetFolderLaws.{FolderStandsFor, AppendsStanding};
ghost use Rattle.folder_parts.specs.PartsPut.{PutsPart};

use replica_changes::{forget_dead, write_changed};
use replica_store::{Forgotten, Store};
use std::alloc::Global;
use std::io::Write;
use table_model::{Counted, Refusal};

/// Writes the part of a forget: what all of some parts hold, of which the store is the join, without the batches of which every row is
/// deleted. It may be put in the place of these parts, since it represents all that each of them represents. If no batch is dropped,
/// nothing is written, and there is nothing to put. The store is without these batches afterwards.
///
/// Refused are `Memory`, and `WriteFault`. Only with the last anything is written: a front.
pub fn part_of_forget<W: Write>(
    alloc: Global,
    held: &mut Store,
    writer: &mut Counted<W>,
) -> Result<Forgotten, Refusal>
    ensures made { PutsPart (λ done. (done.batches, done.rows)) (λ done. not (done.batches == 0)) result (W.contents writer.old.0) (W.contents writer.new.0) (forgetting held.old.replica) }

    // What was written represents all that the joined parts represent.
    ensures covers { (first : List ℕ) (others : List (List ℕ)) (table : Table) (ops : List Operation) (sets : List (List Operation)) →
        FolderStandsFor first others table ops sets → merged_files first others ≡ Ok held.old.replica →
        IfOk result (λ done. not (done.batches == 0) ≡ true → AppendsStanding (W.contents writer.old.0) (W.contents writer.new.0) table (folder_operations ops sets)) }
{
    let done = forget_dead(alloc, held)?;
    write_changed(alloc, held, done.batches != 0, writer)?;
    Ok(done)
}
