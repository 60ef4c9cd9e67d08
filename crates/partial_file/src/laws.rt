//! The laws of a partial answer in bytes, each the contract of a function that does nothing.
ghost use Rattle.partial_file.specs.PartialAnswerBytes.{PartialAnswersComeBack};
ghost use Rattle.partial_file.specs.PartialAnswerReading.{PartialAnswersAreReadAgain};

/// The law that a partial answer and its bytes give each other back: what is read of bytes is spelled as these bytes and is valid,
/// and what is valid is read from its bytes, so that no two of them have the same.
pub fn partial_answers_and_bytes_come_back()
    ensures { PartialAnswersComeBack }
{}

/// The law that a partial answer which has bytes is read from them as the same partial answer: its schema, its text, its names and
/// its groups.
pub fn partial_answers_are_read_again()
    ensures { PartialAnswersAreReadAgain }
{}
