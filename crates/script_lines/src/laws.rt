//! Laws of the grammar of lines, each the contract of a function that does nothing.
ghost use Rattle.script_lines.specs.Spelled.{RowsAreReadAsSpelled};

/// The rows of a line are read of exactly the texts that spell them: rows in parentheses, joined by commas, each with values
/// joined by commas, a value being NULL or 1 to 30 digits, which a minus sign may precede.
pub fn rows_are_read_as_spelled()
    ensures { RowsAreReadAsSpelled }
{}
