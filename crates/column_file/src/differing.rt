//! Finding the place at which bytes that aren't the canonical file of their content differ from it: in the first vector that isn't
//! canonical. So no other vector's canonical form is made.
ghost use Rattle.std.specs.Prelude.{◌≡◌, ◌<◌, length, map, slice_index_or, [], IfOk, IfErr, MatchOption, OnOk};
ghost use Rattle.std.specs.List.{All};
ghost use Rattle.table_model.specs.Table.{Table};
ghost use Rattle.segment_core.specs.Coded.{coding_of};
ghost use Rattle.segment_core.specs.CodedVector.{canonical_of};
ghost use Rattle.segment_core.specs.Segment.{canonical_forms, canonical_vectors, vector_count, widths_in, widths_of};
ghost use Rattle.replica_store.specs.Segments.{IsStored};
ghost use Rattle.column_file.specs.Differing.{IsFirstOther, IsFirstOtherIn, ColumnsDifferAlike, AreJudged};

use segment_core::{CodedVector, Coding, Segment};
use std::alloc::{AllocError, Global};
use table_model::{BatchName, Refusal};
use transpose_order::VECTOR_ROWS;

/// The place of the first vector of a column that isn't canonical, or how many vectors there are.
fn first_other_vector(segment: &Segment, column: usize, vectors: usize) -> usize
    requires column { column < length segment.now.forms }
    requires vectors { vectors ≡ vector_count (length segment.now.rows) }
    requires long { length (slice_index_or segment.now.forms column []) ≡ vectors }
    ensures { IsFirstOther (slice_index_or segment.now.forms column []) result }
{
    for vector in 0..vectors {
        if !segment.vector(column, vector).is_canonical() {
            return vector;
        }
    }
    vectors
}

/// The column and the place of the first vector of a segment that isn't canonical, if there is one.
fn first_other(segment: &Segment) -> Option<(usize, usize)>
    ensures { MatchOption result (segment.now.forms ≡ canonical_forms (widths_in segment.now.forms) segment.now.rows) (λ found. IsFirstOtherIn segment.now.forms found.0 found.1) }
{
    let vectors = segment.rows().div_ceil(VECTOR_ROWS);
    for column in 0..segment.columns() {
        let vector = first_other_vector(segment, column, vectors);
        if vector < vectors {
            return Some((column, vector));
        }
    }
    None
}

/// The coding of a vector's canonical form.
fn canonical_coding(alloc: Global, vector: &CodedVector) -> Result<Coding, AllocError>
    ensures { IfOk result (λ coding. coding ≡ coding_of (canonical_of vector.now).coded) }
{
    let made = vector.canonical_copy(alloc)?;
    Ok(made.coding())
}

/// Puts the first vector of a segment that isn't canonical into its canonical form.
fn put_first_other(alloc: Global, segment: &mut Segment) -> Result<(), Refusal>
    requires { segment.old.forms ≡ canonical_forms (widths_in segment.old.forms) segment.old.rows → ⊥ }
    ensures rows { segment.new.rows ≡ segment.old.rows }
    ensures widths { widths_in segment.new.forms ≡ widths_in segment.old.forms }
    ensures differ { OnOk result (ColumnsDifferAlike segment.old segment.new) }
    ensures refused { IfErr result (λ e. e ≡ Refusal.Memory) }
{
    let Some((column, vector)) = first_other(segment) else {
        return Ok(());
    };
    segment.keeps_its_vectors();
    let coding = canonical_coding(alloc, segment.vector(column, vector))?;
    segment.recode(alloc, column as u32, vector as u32, coding)
}

/// Whether each segment is canonical. A segment remembers that it is, so that an export doesn't check it again. In the first
/// segment that isn't, the first vector that isn't is put into its canonical form.
pub(crate) fn judge_batches(
    alloc: Global,
    entries: &mut Vec<(BatchName, Segment)>,
) -> Result<bool, Refusal>
    ensures judged { IfOk result (λ all. AreJudged all entries.old.items entries.new.items) }
    ensures count { length entries.new.items ≡ length entries.old.items }
    ensures refused { IfErr result (λ e. e ≡ Refusal.Memory) }
    ensures stored { (table : Table) → All (IsStored table) entries.old.items → All (IsStored table) entries.new.items }
{
    for index in 0..entries.len() {
        if !entries[index].1.judge() {
            put_first_other(alloc, &mut entries[index].1)?;
            return Ok(false);
        }
    }
    Ok(true)
}
