//! The laws of partial answers, the contract of a function that does nothing.
ghost use Rattle.partial_answers.specs.Counted.{CountedLaws};
ghost use Rattle.partial_answers.specs.Evaluated.{EvaluatedLaws};
ghost use Rattle.partial_answers.specs.PartialAnswerLaws.{PartialAnswerLaws};

/// Any engine may combine partial answers, in any tree: the answer is that of the states joined.
pub fn partial_answer_laws()
    ensures { PartialAnswerLaws }
{}

/// Partial answers that name the batches that they counted are combined exactly when that is right, and no partial answer counts twice.
pub fn counted_laws()
    ensures { CountedLaws }
{}

/// What the evaluator keeps of a group under way is what a partial answer has of it.
pub fn evaluated_laws()
    ensures { EvaluatedLaws }
{}
