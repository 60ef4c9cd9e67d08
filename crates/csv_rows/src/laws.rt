//! Laws of comma-separated values, each the contract of a function that does nothing.
ghost use Rattle.csv_rows.specs.CutTexts.{FirstFaultsStay, PiecesAreRead};
ghost use Rattle.csv_rows.specs.Written.{WrittenRowsAreRead};

/// What was written of a table's rows, below the line with its columns' names, reads as the same rows in the same order.
pub fn written_rows_are_read()
    ensures { WrittenRowsAreRead }
{}

/// The rows of a text that is cut behind line feeds are those of its pieces, one piece after another, and so is its first fault.
pub fn pieces_are_read()
    ensures { PiecesAreRead }
{}

/// The first fault of whole lines is that of every text that begins with them, at the same place.
pub fn first_faults_stay()
    ensures { FirstFaultsStay }
{}
