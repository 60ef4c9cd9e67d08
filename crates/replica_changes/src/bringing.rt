//! What a command brings to a store that is only read.
ghost use Rattle.std.specs.Prelude.{◌≡◌, ◌==◌, not, IsTrue, IfErr, OnOk};
ghost use Rattle.table_model.specs.Reading.{Reads};
ghost use Rattle.replica_store.specs.Brought.{both_of};
ghost use Rattle.replica_store.specs.Replica.{Replica, deleted_rows};
ghost use Rattle.store_view.specs.Asked.{is_refusal_of_condition};
ghost use Rattle.replica_changes.specs.Brings.{BringsTo, brought_to, deletes_brought, load_brought, offers_brought, rows_brought, with_offers};
ghost use Rattle.replica_changes.specs.CommandForms.{adding, answer_of, brought, command_of, has_changed, is_refusal_of};
ghost use Rattle.replica_changes.specs.Commands.{applied_all, applying, deleting};
ghost use Rattle.replica_changes.specs.Loads.{importing};
ghost use Rattle.replica_changes.specs.Refusals.{is_refusal_of_import, is_refusal_of_merge, is_refusal_of_range};

use crate::applying::Applied;
use crate::command::{Answer, Command};
use crate::deleting::{Deleted, DeletedRows};
use crate::importing::{Imported, name_of_some};
use crate::load::Load;
use crate::naming::choose_name;
use catalogue_join::Tombs;
use replica_store::{Brought, Offer, Store};
use std::alloc::Global;
use store_view::names_where;
use table_model::{BatchName, Origin, Refusal, RowName};

/// What a command brings to a store that is only read: the batches whose names aren't held, and deletions. Joined with the store, it is
/// what the command makes of it. Segments are moved, so nothing is copied.
///
/// Refused are, of an import, `BadName` and `NumbersSpent` of the names, and then what an apply refuses; of a delete by a condition,
/// `Syntax`, `NumberTooLarge` and `TooDeep`, the one whose token comes first, and `NoSuchColumn`; of a delete by names, `BadName` if the
/// batch's origin or number is 0, and `BadRange` if `last` is less than the first ordinal; of an apply, offer by offer, `SchemaDiffers`,
/// `Conflict` with the least name that has two lists of rows, and `Full`. `Memory` may come in the place of any of them.
pub fn bring(alloc: Global, held: &Store, command: Command<'_>) -> Result<(Answer, Store), Refusal>
    ensures brings { BringsTo answer_of has_changed result held.now (brought (command_of command.entry) held.now.replica) (adding (command_of command.entry) held.now.replica) }
    ensures refused { IfErr result (λ e. IsTrue (is_refusal_of (command_of command.entry) e)) }
{
    match command {
        Command::Import { load, given, words } => {
            let (done, own) = bring_load(alloc, held, load, given, words)?;
            Ok((Answer::Imported(done), own))
        }
        Command::Delete { condition } => {
            let (done, own) = bring_deletes(alloc, held, condition)?;
            Ok((Answer::Deleted(done), own))
        }
        Command::DeleteRows { first, last } => {
            let (done, own) = bring_rows(alloc, held, first, last)?;
            Ok((Answer::DeletedRows(done), own))
        }
        Command::Apply { offers } => {
            let (done, own) = bring_offers(alloc, held, offers)?;
            Ok((Answer::Applied(done), own))
        }
    }
}

/// Takes what offers bring, one after another.
fn take_all(alloc: Global, brought: &mut Brought<'_>, mut offers: Vec<Offer>) -> Result<(), Refusal>
    ensures applied { Reads (λ done. (tt, both_of brought.new)) result (applied_all (both_of brought.old) offers.items) }
    ensures own { OnOk result ((alone : Replica) → brought.old.own.replica ≡ brought_to brought.old.held.replica alone → brought.new.own.replica ≡ brought_to brought.old.held.replica (with_offers alone offers.items)) }
    ensures held { OnOk result (brought.new.held ≡ brought.old.held) }
    ensures refused { IfErr result (λ e. IsTrue (is_refusal_of_merge e)) }
{
    offers.reverse();
    while let Some(offer) = offers.pop() {
        brought.take(alloc, offer)?;
    }
    Ok(())
}

/// What offers bring to a store that is only read, and what a store has once they were applied to it, one after another: the batches
/// whose names aren't held, and all deletions of the offers. Their segments are moved, so nothing is copied.
///
/// Refused are, offer by offer, `SchemaDiffers`, `Conflict` with the least name that has two lists of rows, and `Full`, as when the
/// offers are applied to the store; `Memory` may come in the place of any of them.
fn bring_offers(
    alloc: Global,
    held: &Store,
    offers: Vec<Offer>,
) -> Result<(Applied, Store), Refusal>
    ensures brings { BringsTo (λ done. (done.batches, done.ranges, done.new)) (λ done. done.is_changed) result held.now (offers_brought offers.items held.now.replica) (applying offers.items held.now.replica) }
    ensures refused { IfErr result (λ e. IsTrue (is_refusal_of_merge e)) }
{
    let mut brought = Brought::nothing(alloc, held)?;
    take_all(alloc, &mut brought, offers)?;
    let deleted = held.tombs().joined(brought.own().tombs())?;
    let done = Applied {
        batches: brought.batches() as u32,
        ranges: deleted.ranges().len() as u64,
        new: brought.own().batches() as u32,
        is_changed: brought.is_more(),
    };
    Ok((done, brought.into_own()))
}

/// What a load brings to a store that is only read, under the name that is given or under one of random words: the batches whose names
/// aren't held.
///
/// Refused are, in this order, `BadName` and `NumbersSpent` of the names; `SchemaDiffers`; `Conflict` with the least name that is held
/// with other rows; `Full`; `Memory` may come in the place of any of them.
fn bring_load(
    alloc: Global,
    held: &Store,
    load: Load,
    given: Option<BatchName>,
    words: &[u64],
) -> Result<(Imported, Store), Refusal>
    ensures brings { BringsTo (λ done. done) (λ done. not (done.new == 0)) result held.now (load_brought load given words.now held.now.replica) (importing load given words.now held.now.replica) }
    ensures refused { IfErr result (λ e. IsTrue (is_refusal_of_import e)) }
{
    let batches = load.batches();
    let rows = load.rows();
    let name = choose_name(held, given, words, batches as u32)?;
    let deleted = load.deleted_by(held.tombs(), name);
    let (schema, entries) = load.into_entries(alloc, name)?;
    let mut brought = Brought::nothing(alloc, held)?;
    brought.take(alloc, Offer::from_parts(schema, entries, Tombs::new(alloc)))?;
    let own = brought.into_own();
    let done = Imported {
        batches: batches as u32,
        new: own.batches() as u32,
        rows,
        deleted,
        first: name_of_some(batches, name),
    };
    Ok((done, own))
}

/// What a delete brings to a store that is only read: the deletions of the rows that aren't deleted and at which a condition is true, and
/// no batch.
///
/// Refused are, in this order, `Syntax`, `NumberTooLarge` and `TooDeep`, the one whose token comes first; `NoSuchColumn`; `Memory` may
/// come in the place of any of them.
fn bring_deletes(alloc: Global, held: &Store, condition: &str) -> Result<(Deleted, Store), Refusal>
    ensures brings { BringsTo (λ done. done.rows) (λ done. not (done.rows == 0)) result held.now (deletes_brought condition.now held.now.replica) (deleting condition.now held.now.replica) }
    ensures refused { IfErr result (λ e. IsTrue (is_refusal_of_condition e)) }
{
    held.keeps_its_limits();
    let names = names_where(alloc, held, condition)?;
    let mut own = Store::new(alloc, held.schema(), Origin(1))?;
    own.delete_all(alloc, names.as_slice())?;
    let rows = names.len() as u64;
    Ok((Deleted { rows }, own))
}

/// What a delete of a range of rows brings to a store that is only read: their deletions, held there or not, and no batch.
///
/// Refused are, in this order, `BadName` if the batch's origin or number is 0; `BadRange` if `last` is less than the first ordinal;
/// `Memory` may come in the place of any of them.
fn bring_rows(
    alloc: Global,
    held: &Store,
    first: RowName,
    last: u16,
) -> Result<(DeletedRows, Store), Refusal>
    ensures brings { BringsTo (λ done. tt) (λ done. done.is_changed) result held.now (rows_brought first last held.now.replica) (deleted_rows held.now.replica first last) }
    ensures refused { IfErr result (λ e. IsTrue (is_refusal_of_range e)) }
{
    held.keeps_its_limits();
    let mut own = Store::new(alloc, held.schema(), Origin(1))?;
    own.delete(alloc, first, last)?;
    let is_changed = !held.tombs().has_all(own.tombs());
    Ok((DeletedRows { is_changed }, own))
}
