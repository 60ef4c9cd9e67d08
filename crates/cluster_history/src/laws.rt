//! Laws of histories, each the contract of a function that does nothing.
ghost use Rattle.cluster_history.specs.History.{HistoryLaws};
ghost use Rattle.cluster_history.specs.Rows.{RowLaws};
ghost use Rattle.cluster_history.specs.Run.{CodingLaws};

/// What replicas take decides what they are, in any order and with any repeats.
///
/// A new cluster is that of replicas that took nothing. After any run, from a new cluster or from what earlier runs left, each
/// replica is its table's schema, its own origin and the state of what it took; each message is the summary or the offer of what
/// it brings by the history alone; and each reply is that of its step in the cluster of what was taken before. A run after a run
/// is a run. A refused step adds nothing and makes no message. Messages stay at their numbers, and messages that bring the same are
/// equal. A step that only reads leaves everything as it is. Two replicas of one table that took the same, wherever each took it,
/// have equal states and answer each step that only reads alike; this holds in any two histories.
pub fn history_laws()
    ensures { HistoryLaws }
{}

/// What becomes of codings: only a recode changes a coding of what a replica holds, and no step changes one of what a message
/// brings. So over a run without a recode each batch that a replica held, or that a message brought, stays in its segment,
/// whatever else was appended, inserted, merged, taken or opened, and whichever steps were refused.
pub fn coding_laws()
    ensures { CodingLaws }
{}

/// The segments of a cluster have the rows of its parts: those of each replica are the batches that it holds, name by name, and
/// those of each message are the batches that it brings. This holds in a new cluster, after each step, whether it succeeded or was
/// refused, and after each run, recodes included.
pub fn row_laws()
    ensures { RowLaws }
{}
