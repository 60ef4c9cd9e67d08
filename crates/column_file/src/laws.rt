//! The laws of the formats of files and messages.
ghost use Rattle.column_file.specs.ContainerBytes.{ContainersComeBack};
ghost use Rattle.column_file.specs.Files.{FilesOpen, FilesOpenToOne, OffersAreReadAgain, SameFileSameState, SummariesAreReadAgain};
ghost use Rattle.column_file.specs.FirstVersion.{VersionsAreWritten, FirstFilesStay, FirstFilesHold, FirstFilesOpen, FirstOffersAreRead, FirstSummariesAreRead, FirstFilesComeBack, FirstOffersComeBack, FirstSummariesComeBack};
ghost use Rattle.column_file.specs.SchemaBytes.{SchemasComeBack};
ghost use Rattle.column_file.specs.Skimming.{FilesAreSkimmed};
ghost use Rattle.column_file.specs.SummaryBytes.{SummariesComeBack};

/// The law that a schema and its bytes give each other back, and that only a schema is read.
pub fn schemas_and_bytes_come_back()
    ensures { SchemasComeBack }
{}

/// The law that a summary and its bytes give each other back.
pub fn summaries_and_bytes_come_back()
    ensures { SummariesComeBack }
{}

/// The law that a container and its bytes give each other back.
pub fn containers_and_bytes_come_back()
    ensures { ContainersComeBack }
{}

/// The law that a canonical file opens to the table and the state that it was exported from, that no other table or state has it,
/// and that bytes open to one table and state. [`export`](crate::export) ensures what this requires of a table and a state.
pub fn files_and_states_come_back()
    ensures opens { FilesOpen }
    ensures same { SameFileSameState }
    ensures one { FilesOpenToOne }
{}

/// The law that the bytes of an offer are read as the same offer, codings included, and those of a summary as the same summary.
/// [`write_offer`](crate::write_offer) and [`write_summary`](crate::write_summary) ensure what this requires of an offer and a
/// summary.
pub fn offers_and_summaries_are_read_again()
    ensures offers { OffersAreReadAgain }
    ensures summaries { SummariesAreReadAgain }
{}

/// The law of the two versions. The version that is written is 2 exactly if the table has a column of 8 bits. Without one, a
/// state's canonical file is byte for byte that of version 1. What version 1 accepted is read as the same: files, offers and
/// summaries.
pub fn first_version_is_kept()
    ensures field { VersionsAreWritten }
    ensures bytes { FirstFilesStay }
    ensures files { FirstFilesHold }
    ensures opened { FirstFilesOpen }
    ensures offers { FirstOffersAreRead }
    ensures summaries { FirstSummariesAreRead }
{}

/// The law that version 1 accepted what it wrote. The file that it wrote for a state of a table without a column of 8 bits, with
/// at most 65,536 batches, it opened to that table and state. The offers and the summaries that it wrote it read as the same. So
/// there are files, offers and summaries of which [`first_version_is_kept`] speaks.
pub fn first_version_accepts_its_own()
    ensures files { FirstFilesComeBack }
    ensures offers { FirstOffersComeBack }
    ensures summaries { FirstSummariesComeBack }
{}

/// The law that of bytes that open as a file exactly its schema, the names of its batches and its deleted rows are skimmed.
pub fn files_are_skimmed()
    ensures { FilesAreSkimmed }
{}
