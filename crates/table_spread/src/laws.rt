//! The laws of shares, the contract of a function that does nothing.
ghost use Rattle.table_spread.specs.SpreadLaws.{SpreadLaws};

/// Each batch and each deletion goes to one share. Joined the shares are the table, merged they are the replica, and partial answers of
/// them are combined without a refusal and finished to the answer of the table.
pub fn spread_laws()
    ensures { SpreadLaws }
{}
