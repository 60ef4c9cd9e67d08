//! Laws of the grammar, each the contract of a function that does nothing.
ghost use Rattle.query_parser.specs.Limits.{IsUnambiguous, ConditionsAreUnambiguous};
ghost use Rattle.query_parser.specs.Texts.{QueriesAreRead, ConditionsAreRead};
ghost use Rattle.query_parser.specs.Token.{KeywordsAreReserved};

/// At most one query has a text's tokens, whatever its depth and its literals.
pub fn texts_are_unambiguous()
    ensures { IsUnambiguous }
{}

/// The keywords are, in order, the words that name no table and no column.
pub fn keywords_are_reserved()
    ensures { KeywordsAreReserved }
{}

/// At most one condition of WHERE has a text's tokens, whatever its depth and its literals.
pub fn conditions_are_unambiguous()
    ensures { ConditionsAreUnambiguous }
{}

/// What a text is read as, whatever memory does, is what the grammar says of it: the query that has its tokens if it has no fault,
/// and otherwise its first fault. Each query within the limits is read, and if `Syntax` is the fault no query has the tokens.
pub fn queries_are_read()
    ensures { QueriesAreRead }
{}

/// What a text is read as after WHERE is what the grammar says of it: the condition that has its tokens, or its first fault as a condition.
pub fn conditions_are_read()
    ensures { ConditionsAreRead }
{}
