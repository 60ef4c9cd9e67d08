//! The laws of the commands on partial answers, the contract of a function that does nothing.
ghost use Rattle.partial_commands.specs.Expecting.{ExpectationLaws};
ghost use Rattle.partial_commands.specs.PartialCommandLaws.{PartialCommandLaws};

/// A store's partial answer is refused as its query is, and whatever tree of partial answers is combined, the partial answer that
/// comes is that of the joined states, and finishes to the answer over them.
pub fn partial_command_laws()
    ensures { PartialCommandLaws }
{}

/// What a partial answer that covers the names of summaries finishes to is the query's answer over files that hold at least the batches
/// of these names.
pub fn expectation_laws()
    ensures { ExpectationLaws }
{}
