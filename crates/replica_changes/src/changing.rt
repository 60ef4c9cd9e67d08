//! Doing a command on a store.
ghost use Rattle.std.specs.Prelude.{◌≡◌, ◌⊎◌, Ok, Err, IsTrue, IfErr, MatchResult};
ghost use Rattle.table_model.specs.Reading.{Reads};
ghost use Rattle.table_model.specs.declared.refusal.Refusal.TheVariants.{Memory};
ghost use Rattle.replica_store.specs.Replica.{merged};
ghost use Rattle.replica_changes.specs.CommandForms.{adding, answer_of, command_of, has_changed, is_refusal_of};
ghost use Rattle.replica_changes.specs.Commands.{Makes};

use crate::bringing::bring;
use crate::command::{Answer, Command};
use replica_store::{Joined, Store};
use std::alloc::Global;
use table_model::Refusal;

/// The store that has what two have, as a merge makes it. No segment is copied.
fn joined(alloc: Global, held: Store, brought: Store) -> Result<Store, Refusal>
    ensures { Reads (λ store. (tt, store.replica)) result (merged held.replica brought.replica) }
{
    let alone = Joined::new(alloc, held)?;
    let both = alone.with(alloc, brought)?;
    both.into_store(alloc)
}

/// Does a command on a store: what it answers, and the store with what it brings. That is moved into the store.
///
/// Refused is what [`bring`] refuses.
pub fn change_store(
    alloc: Global,
    held: Store,
    command: Command<'_>,
) -> Result<(Answer, Store), Refusal>
    ensures made { MatchResult result
        (λ made. Makes answer_of has_changed held.replica (Ok made.0) made.1.replica (adding (command_of command.entry) held.replica))
        (λ e. (adding (command_of command.entry) held.replica ≡ Err e) ⊎ (e ≡ Memory)) }
    ensures refused { IfErr result (λ e. IsTrue (is_refusal_of (command_of command.entry) e)) }
{
    let (answer, brought) = bring(alloc, &held, command)?;
    let store = joined(alloc, held, brought)?;
    Ok((answer, store))
}
