//! The laws of coded vectors, of segments and of their bytes.
ghost use Rattle.segment_core.specs.Coded.{LeastFormGivesBack};
ghost use Rattle.segment_core.specs.CodedVector.{CanonicalIsLeastForm, CanonicalTakesFewest, CanonicalIsFirst};
ghost use Rattle.segment_core.specs.Segment.{FormsTellRows};
ghost use Rattle.segment_core.specs.SegmentBytes.{ColumnsComeBack, SameBytesSameColumns, SegmentsHaveBytes};

/// The law that the least form that a coding has of some values decodes to them.
pub fn least_form_gives_back()
    ensures { LeastFormGivesBack }
{}

/// The law that the canonical vector is one of the four least forms of the filled vector, that none of the four takes fewer bytes,
/// and that each before it in the order FOR, DELTA, RLE, DICT takes more.
pub fn canonical_vector_takes_fewest_bytes()
    ensures least { CanonicalIsLeastForm }
    ensures fewest { CanonicalTakesFewest }
    ensures first { CanonicalIsFirst }
{}

/// The law that segments with the same vectors have the same rows.
pub fn forms_tell_rows()
    ensures { FormsTellRows }
{}

/// The law that the columns of a batch and their bytes give each other back, and that no other columns have the same bytes.
pub fn columns_and_bytes_come_back()
    ensures back { ColumnsComeBack }
    ensures same { SameBytesSameColumns }
{}

/// The law that the columns of each segment have bytes, which read back.
pub fn segments_have_bytes()
    ensures { SegmentsHaveBytes }
{}
