//! The law of dumps of some columns, as the contract of a function that does nothing.
ghost use Rattle.replica_reports.specs.DumpColumnLaws.{DumpColumnLaws};

/// The columns that are given for a choice of columns and a condition are those of the rows that a dump of the same choice writes,
/// column by column; without a condition the rows are the live rows. A dump of all columns without a condition is the whole dump.
pub fn dump_column_laws()
    ensures { DumpColumnLaws }
{}
