//! The next call of an order that keeps or removes many parts, without a run from the beginning: each is read, and then synced; or each is
//! removed.
ghost use Rattle.std.specs.Prelude.{IfOk, IfErr, IfSome, ◌≡◌, true, map};
ghost use Rattle.std.specs.String.{string_bytes};
ghost use Rattle.folder_model.specs.Call.{Call};
ghost use Rattle.folder_turns.specs.Calls.{answered};
ghost use Rattle.folder_turns.specs.FreeCalls.{IsFree};
ghost use Rattle.folder_turns.specs.Guarding.{IsAhead, IsRemoval, Removes};
ghost use Rattle.folder_turns.specs.declared.guarding.Guard.TheVariants.{Guarded};
ghost use Rattle.folder_turns.specs.declared.replay.Fault.TheVariants.{OutOfMemory};

use crate::guarding::Guard;
use crate::order::{Order, Task};
use crate::replay::Fault;
use crate::request::{Answer, Request, Told};
use crate::wanted::owned;
use std::alloc::Global;

/// The names of the parts that an order has on the disk before anything else.
fn kept_names(order: &Order) -> &[String] {
    match order.task {
        Task::KeepAll => order.names.as_slice(),
        Task::KeepAndPut | Task::KeepAndPutJudged => order.relied.as_slice(),
        _ => &[],
    }
}

/// An answer as it is remembered, after so many reads: of a part that is only kept not its bytes, since a run asks no more than whether there is one.
pub(crate) fn remembered(order: &Order, reads: usize, answer: Answer) -> Answer
    ensures { (call : Call) → answered call result ≡ answered call answer }
{
    if reads < kept_names(order).len() {
        answer.noted()
    } else {
        answer
    }
}

/// How many reads were told, with one call more.
pub(crate) fn reads_with(reads: usize, request: &Request) -> usize {
    match request {
        Request::ReadFile { .. } => reads.saturating_add(1),
        _ => reads,
    }
}

/// The next read of these, if so many were made.
fn next_read(alloc: Global, names: &[String], reads: usize) -> Result<Option<Request>, Fault>
    ensures free { IfOk result (λ next. IfSome next IsFree) }
    ensures lacks { IfErr result (λ fault. fault ≡ OutOfMemory) }
{
    match names.get(reads) {
        Some(name) => match String::from_str(alloc, name.as_str()) {
            Ok(name) => Ok(Some(Request::ReadFile { name })),
            Err(_) => Err(Fault::OutOfMemory),
        },
        None => Ok(None),
    }
}

/// The next call of an order while it keeps parts, by the last call that was told and by how many were reads: a part that was read is
/// synced, and then the next one is read. None if it is not known without a run of the order.
fn next_keep(
    alloc: Global,
    order: &Order,
    told: &[Told],
    reads: usize,
) -> Result<Option<Request>, Fault>
    ensures free { IfOk result (λ next. IfSome next IsFree) }
    ensures lacks { IfErr result (λ fault. fault ≡ OutOfMemory) }
{
    let names = kept_names(order);
    if reads == 0 || reads > names.len() {
        return Ok(None);
    }
    let Some(last) = told.last() else {
        return Ok(None);
    };
    match (&last.request, &last.answer) {
        (Request::ReadFile { .. }, Answer::Found { .. }) => Ok(Some(Request::Sync)),
        (Request::ReadFile { .. }, Answer::Noted { .. }) => Ok(Some(Request::Sync)),
        (Request::ReadFile { .. }, Answer::Missing) => next_read(alloc, names, reads),
        (Request::Sync, Answer::Done) => next_read(alloc, names, reads),
        _ => Ok(None),
    }
}

/// Whether an order removes parts under a guard.
fn may_remove(order: &Order, guard: Guard) -> bool
    ensures guarded { result ≡ true → guard ≡ Guarded }
    ensures removes { result ≡ true → Removes order.now.task }
{
    matches!(order.task, Task::Replace | Task::Remove) && matches!(guard, Guard::Guarded)
}

/// The next removal of these names, if so many were removed, the last one by the last call that was told.
fn next_removal(
    alloc: Global,
    names: &[String],
    told: &[Told],
    removed: usize,
) -> Result<Option<Request>, Fault>
    ensures among { IfOk result (λ next. IfSome next (IsRemoval (map string_bytes names.now))) }
    ensures lacks { IfErr result (λ fault. fault ≡ OutOfMemory) }
{
    let Some(last) = told.last() else {
        return Ok(None);
    };
    let goes_on = matches!(
        (&last.request, &last.answer),
        (Request::Remove { .. }, Answer::Done)
    );
    if removed == 0 || !goes_on {
        return Ok(None);
    }
    removal_of(alloc, names, removed)
}

/// The removal of the name at a place, if there is one.
fn removal_of(alloc: Global, names: &[String], at: usize) -> Result<Option<Request>, Fault>
    ensures among { IfOk result (λ next. IfSome next (IsRemoval (map string_bytes names.now))) }
    ensures lacks { IfErr result (λ fault. fault ≡ OutOfMemory) }
{
    let Some(name) = names.get(at) else {
        return Ok(None);
    };
    let name = owned(alloc, name.as_str())?;
    Ok(Some(Request::Remove { name }))
}

/// How many parts were removed under the guard, with one call more.
pub(crate) fn removed_with(removed: usize, guard: Guard, request: &Request) -> usize {
    match (request, guard) {
        (Request::Remove { .. }, Guard::Guarded) => removed.saturating_add(1),
        _ => removed,
    }
}

/// The next call of an order that keeps or removes many parts, by the last call that was told, by how many were reads, by its guard, and by
/// how many parts were removed under it. None if it is not known without a run of the order.
pub(crate) fn ahead_of(
    alloc: Global,
    order: &Order,
    told: &[Told],
    reads: usize,
    guard: Guard,
    removed: usize,
) -> Result<Option<Request>, Fault>
    // It is a read or a sync of the open file, which are in turn after whatever calls; or the removal of a part under the guard.
    ensures ahead { IfOk result (λ next. IfSome next (IsAhead order.now guard)) }
    ensures lacks { IfErr result (λ fault. fault ≡ OutOfMemory) }
{
    if may_remove(order, guard) {
        return next_removal(alloc, order.names.as_slice(), told, removed);
    }
    next_keep(alloc, order, told, reads)
}
