//! Writing segments to bytes: for each column, each of its vectors.
ghost use Rattle.std.specs.Prelude.{ℕ};
ghost use Rattle.segment_core.specs.Segment.{IsColumn, IsSegment, width_in, widths_in};
ghost use Rattle.segment_core.specs.Format.{Format, Writes};
ghost use Rattle.segment_core.specs.SegmentBytes.{column, columns, segment_bytes};

use crate::coded_vector::CodedVector;
use crate::segment::Segment;
use crate::vector_writing::write_vector;
use crate::vectors::Vectors;
use std::io::Write;
use table_model::{Counted, Refusal};

/// Writes the vectors of a column, as one of as many rows as they cover.
#[tactic(auto, unfolding(crate::specs::SegmentBytes::column))]
fn write_column<W: Write>(writer: &mut Counted<W>, vectors: &[CodedVector]) -> Result<(), Refusal>
    ensures { (rows : ℕ) → IsColumn rows vectors.now
        → Writes result (W.contents writer.old.0) (W.contents writer.new.0) writer.old.1 writer.new.1
        ((column (width_in vectors.now) rows).spell vectors.now) }
{
    for vector in vectors {
        write_vector(writer, vector)?;
    }
    Ok(())
}

/// Writes the columns of a segment, as one of as many rows as their vectors cover.
#[tactic(auto, unfolding(crate::specs::SegmentBytes::columns))]
fn write_columns<W: Write>(writer: &mut Counted<W>, forms: &[Vectors]) -> Result<(), Refusal>
    ensures { (rows : ℕ) → IsSegment rows forms.now
        → Writes result (W.contents writer.old.0) (W.contents writer.new.0) writer.old.1 writer.new.1
        ((columns (widths_in forms.now) rows).spell forms.now) }
{
    for vectors in forms {
        write_column(writer, vectors.as_slice())?;
    }
    Ok(())
}

impl Segment {
    /// Writes the bytes of the segment's columns, each vector in its present coding. Refused is only a write that fails
    /// (`WriteFault`); a front of the bytes was written then. It takes no memory.
    #[tactic(auto, unfolding(crate::specs::SegmentBytes::segment_bytes))]
    pub fn write_bytes<W: Write>(&self, writer: &mut Counted<W>) -> Result<(), Refusal>
        ensures { Writes result (W.contents writer.old.0) (W.contents writer.new.0) writer.old.1 writer.new.1 (segment_bytes self.now) }
    {
        self.keeps_its_vectors();
        write_columns(writer, self.column_list())
    }
}
