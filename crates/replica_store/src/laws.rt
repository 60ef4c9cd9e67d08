//! Laws of the calls of a store, each the contract of a function that does nothing.
ghost use Rattle.replica_store.specs.ExchangeLaws.{ExchangeLaws};
ghost use Rattle.replica_store.specs.ForgetStoreLaws.{ForgetStoreLaws};
ghost use Rattle.replica_store.specs.MergeLaws.{MergeLaws, KeepingLaws};
ghost use Rattle.replica_store.specs.Forgotten.{ForgetLaws};
ghost use Rattle.replica_store.specs.ForgetHistory.{ForgetHistoryLaws, ForgetOfferLaws};

/// A merge is refused as `Conflict` exactly if the states don't agree, with the least name that has two lists of rows. Merges that
/// answer Ok make the same state in both orders and in both bracketings, and a second merge changes nothing.
pub fn merge_laws()
    ensures { MergeLaws }
{}

/// An offer that was made for a summary, applied to a replica that holds every batch that the summary listed and agrees with the
/// server as it was then, gives the join of both states, however late and however often. What the replica gained before the offer
/// came is kept. An offer that was applied once changes nothing when it comes again.
pub fn exchange_laws()
    ensures { ExchangeLaws }
{}

/// No call changes the schema or the own origin. A recode changes no state, and leaves all vectors but its own.
pub fn keeping_laws()
    ensures { KeepingLaws }
{}

/// Whatever was forgotten at whatever times, a forget, a merge and an offer, however late, leave what is left of the state that they
/// would make without any forget: all its deletions, and all its batches but for some of which every row is deleted.
pub fn forget_store_laws()
    ensures { ForgetStoreLaws }
{}

/// What is left of a state after batches of which every row is deleted were dropped: it answers alike, joins alike, and has one least form.
pub fn forget_laws()
    ensures { ForgetLaws }
{}

/// Replicas that took the same, whatever they forgot meanwhile, have the same live rows, and once they forget the same state.
pub fn forget_history_laws()
    ensures { ForgetHistoryLaws }
{}

/// What a replica forgets is what it offers to a summary that lists the batches of which every row is deleted.
pub fn forget_offer_laws()
    ensures { ForgetOfferLaws }
{}
