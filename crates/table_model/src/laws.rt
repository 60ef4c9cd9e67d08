//! Laws of states, of operations, of the tests of sameness and of what queries mean, each the contract of a function that does nothing.
ghost use Rattle.table_model.specs.Condition.{PredicateLaws};
ghost use Rattle.table_model.specs.Group.{GroupLaws, SumBounds};
ghost use Rattle.table_model.specs.Meaning.{AnswerLaws};
ghost use Rattle.table_model.specs.Operation.{OperationLaws};
ghost use Rattle.table_model.specs.Sameness.{SamenessLaws};
ghost use Rattle.table_model.specs.State.{JoinLaws};
ghost use Rattle.table_model.specs.Truth.{TruthLaws};
ghost use Rattle.table_model.specs.Values.{ValueLaws};
ghost use Rattle.table_model.specs.Worked.{WorkedAnswers};

/// To join states that agree is commutative, associative and idempotent.
pub fn join_laws()
    ensures { JoinLaws }
{}

/// The state of a set of operations doesn't depend on their order or repeats, and a state's operations give it back.
pub fn operation_laws()
    ensures { OperationLaws }
{}

/// Two schemas, or two lists of rows, pass the test of sameness exactly when they are equal.
pub fn sameness_laws()
    ensures { SamenessLaws }
{}

/// AND is the least and OR the greatest of two truth values, NOT takes each into the other, and twice it changes nothing.
pub fn truth_laws()
    ensures { TruthLaws }
{}

/// NOT BETWEEN and NOT IN negate the whole; which whole numbers are between two, and in a list; a null is neither in nor out.
pub fn predicate_laws()
    ensures { PredicateLaws }
{}

/// DISTINCT keeps each value that is there, once; the least and the greatest of some values are among them, and bound them.
pub fn value_laws()
    ensures { ValueLaws }
{}

/// The groups of some rows part them and ascend strictly in their keys; their counts and sums add up to those of all rows.
pub fn group_laws()
    ensures { GroupLaws }
{}

/// An answer doesn't depend on the order of the rows; its rows ascend strictly in the keys of their groups, which each row has.
pub fn answer_laws()
    ensures { AnswerLaws }
{}

/// The worked queries of docs/SQL.md have the answers that are there.
pub fn worked_answers()
    ensures { WorkedAnswers }
{}

/// A sum over the rows of a state has magnitude at most 2^95, and in millionths it fits 128 bits.
pub fn sum_bounds()
    ensures { SumBounds }
{}
