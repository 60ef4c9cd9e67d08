//! What the evaluator of queries sees of a store.
ghost use Rattle.std.specs.Prelude.{◌≡◌};
ghost use Rattle.query_eval.specs.Vector.{IsWithin};

use crate::hash_key::HashKey;
use table_model::{BatchName, Op, Schema};
use transpose_order::Mask;

/// A vector of a store: its batch, in ascending order of name, and its place in the batch, both from 0 on.
#[derive(Clone, Copy, Debug)]
pub struct VectorId {
    pub batch: usize,
    pub vector: usize,
}

/// A table's state as batches of vectors of up to 1024 rows, whose values come from counted calls alone.
///
/// Contracts see a schema, a state within its limits and a number of passes. A call over a mask looks at the rows of the mask that
/// aren't null. A mask can have deleted rows and rows past the vector's end.
pub trait Columns {
    ghost use Rattle.std.specs.Prelude.{◌≡◌, ◌<◌, ◌≤◌, ℕ, List, length, map, not, Some, ℤ, pos, int_le, slice_index_or};
    ghost use Rattle.std.specs.Prelude.{◌&&◌, IfSome, None};
    ghost use Rattle.table_model.specs.Condition.{is_null};
    ghost use Rattle.table_model.specs.Answer.{whole};
    ghost use Rattle.query_eval.specs.Coded.{AreCodes, AreRuns};
    ghost use Rattle.query_eval.specs.Read.{Seen, IsCounted};
    ghost use Rattle.table_model.specs.Truth.{comparison};
    ghost use Rattle.table_model.specs.Values.{total, least, greatest};
    ghost use Rattle.transpose_order.specs.Mask.{rows_of};
    ghost use Rattle.query_eval.specs.Pairs.{yes_of, no_of};
    ghost use Rattle.query_eval.specs.Where.{cell_between};
    ghost use Rattle.query_eval.specs.Vector.{IsThere, IsWithin, batch_at, batch_count, vector_count, is_live, cell_at, looked_at, vector_of};

    ghost seen: { Self → Seen };

    /// The table's schema.
    fn schema(&self) -> &Schema
        ensures { result.now ≡ (seen self.now).table };

    /// How many batches there are.
    fn batches(&self) -> usize
        ensures count { result ≡ batch_count (seen self.now).state }
        ensures limits { IsWithin (seen self.now).table (seen self.now).state };

    /// The name of a batch; batches are in ascending order of name.
    fn name(&self, batch: usize) -> BatchName
        requires { batch < batch_count (seen self.now).state }
        ensures { result ≡ (batch_at (seen self.now).state batch).0 };

    /// How many vectors a batch has.
    fn vectors(&self, batch: usize) -> usize
        requires { batch < batch_count (seen self.now).state }
        ensures { result ≡ vector_count (seen self.now).state batch };

    /// The rows of a vector that aren't deleted.
    fn live(&self, id: VectorId) -> Mask
        requires { IsThere (seen self.now).state id.batch id.vector }
        ensures { result ≡ rows_of (is_live (vector_of (seen self.now).state id)) };

    /// The rows of a vector at which a column is null; rows past the vector's end are so too.
    fn nulls(&self, id: VectorId, column: usize) -> Mask
        requires there { IsThere (seen self.now).state id.batch id.vector }
        requires column { column < length (seen self.now).table.columns }
        ensures { result ≡ rows_of (λ n. is_null (whole (cell_at (vector_of (seen self.now).state id) column n))) };

    /// The rows of a mask at which the comparison of a column with a literal is true, and those at which it is false.
    fn compare(
        &mut self,
        id: VectorId,
        column: usize,
        op: Op,
        literal: i128,
        mask: &Mask,
    ) -> (Mask, Mask)
        requires there { IsThere (seen self.old).state id.batch id.vector }
        requires column { column < length (seen self.old).table.columns }
        ensures yes { result.0 ≡ yes_of mask.now (λ n. comparison op (cell_at (vector_of (seen self.old).state id) column n) (Some literal)) }
        ensures no { result.1 ≡ no_of mask.now (λ n. comparison op (cell_at (vector_of (seen self.old).state id) column n) (Some literal)) }
        ensures read { IsCounted (seen self.old) (seen self.new) 1 };

    /// The rows of a mask at which a column's value is neither below `low` nor above `high`, and those at which it is.
    fn compare_range(
        &mut self,
        id: VectorId,
        column: usize,
        low: i128,
        high: i128,
        mask: &Mask,
    ) -> (Mask, Mask)
        requires there { IsThere (seen self.old).state id.batch id.vector }
        requires column { column < length (seen self.old).table.columns }
        ensures yes { result.0 ≡ yes_of mask.now (λ n. cell_between (cell_at (vector_of (seen self.old).state id) column n) (Some low) (Some high)) }
        ensures no { result.1 ≡ no_of mask.now (λ n. cell_between (cell_at (vector_of (seen self.old).state id) column n) (Some low) (Some high)) }
        ensures read { IsCounted (seen self.old) (seen self.new) 1 };

    /// The rows of a mask at which the comparison of two columns is true, and those at which it is false.
    fn compare_columns(
        &mut self,
        id: VectorId,
        left: usize,
        op: Op,
        right: usize,
        mask: &Mask,
    ) -> (Mask, Mask)
        requires there { IsThere (seen self.old).state id.batch id.vector }
        requires left { left < length (seen self.old).table.columns }
        requires right { right < length (seen self.old).table.columns }
        ensures yes { result.0 ≡ yes_of mask.now (λ n. comparison op (cell_at (vector_of (seen self.old).state id) left n) (cell_at (vector_of (seen self.old).state id) right n)) }
        ensures no { result.1 ≡ no_of mask.now (λ n. comparison op (cell_at (vector_of (seen self.old).state id) left n) (cell_at (vector_of (seen self.old).state id) right n)) }
        ensures read { IsCounted (seen self.old) (seen self.new) 2 };

    /// How many rows of a mask have a value in a column.
    fn count(&self, id: VectorId, column: usize, mask: &Mask) -> usize
        requires there { IsThere (seen self.now).state id.batch id.vector }
        requires column { column < length (seen self.now).table.columns }
        ensures { result ≡ length (looked_at (vector_of (seen self.now).state id) column mask.now) };

    /// The sum of a column's values at the rows of a mask, 0 over none.
    fn sum(&mut self, id: VectorId, column: usize, mask: &Mask) -> i128
        requires there { IsThere (seen self.old).state id.batch id.vector }
        requires column { column < length (seen self.old).table.columns }
        ensures value { result ≡ total (looked_at (vector_of (seen self.old).state id) column mask.now) }
        ensures read { IsCounted (seen self.old) (seen self.new) 1 };

    /// The least of a column's values at the rows of a mask, `None` over none.
    fn min(&mut self, id: VectorId, column: usize, mask: &Mask) -> Option<i64>
        requires there { IsThere (seen self.old).state id.batch id.vector }
        requires column { column < length (seen self.old).table.columns }
        ensures value { result ≡ least (looked_at (vector_of (seen self.old).state id) column mask.now) }
        ensures read { IsCounted (seen self.old) (seen self.new) 1 };

    /// The greatest of a column's values at the rows of a mask, `None` over none.
    fn max(&mut self, id: VectorId, column: usize, mask: &Mask) -> Option<i64>
        requires there { IsThere (seen self.old).state id.batch id.vector }
        requires column { column < length (seen self.old).table.columns }
        ensures value { result ≡ greatest (looked_at (vector_of (seen self.old).state id) column mask.now) }
        ensures read { IsCounted (seen self.old) (seen self.new) 1 };

    /// Writes a column's values in row order, with anything at the rows that are null or past the vector's end.
    fn decode_into(&mut self, id: VectorId, column: usize, values: &mut [i64; 1024])
        requires there { IsThere (seen self.old).state id.batch id.vector }
        requires column { column < length (seen self.old).table.columns }
        ensures values { (n : ℕ) (z : ℤ) → n < 1024 → cell_at (vector_of (seen self.old).state id) column n ≡ Some z → slice_index_or values.new n (pos 0) ≡ z }
        ensures read { IsCounted (seen self.old) (seen self.new) 1 };

    /// Writes the values of the runs of a column in order, from the first place on, and answers the rows at which a run starts after
    /// row 0. None if the column isn't coded by runs in the vector: no pass is counted then, and the values are as they were. A run of
    /// rows that are null or past the vector's end can have any value.
    fn runs_into(&mut self, id: VectorId, column: usize, values: &mut [i64; 1024]) -> Option<Mask>
        requires there { IsThere (seen self.old).state id.batch id.vector }
        requires column { column < length (seen self.old).table.columns }
        ensures runs { IfSome result (λ starts. AreRuns (vector_of (seen self.old).state id) column starts values.new) }
        ensures read { IfSome result (λ _. IsCounted (seen self.old) (seen self.new) 1) }
        ensures none { result ≡ None → (seen self.new ≡ seen self.old) × (values.new ≡ values.old) };

    /// Writes a code for each row of a column, and the value that each code represents, ascending from the first place on, and
    /// answers how many codes there are, which is the code of null and of a row past the vector's end. None if the column has no
    /// codes in the vector, or more than `most`: no pass is counted then, and the codes and keys are as they were.
    fn codes_into(
        &mut self,
        id: VectorId,
        column: usize,
        most: usize,
        codes: &mut [u16; 1024],
        keys: &mut [i64; 1024],
    ) -> Option<usize>
        requires there { IsThere (seen self.old).state id.batch id.vector }
        requires column { column < length (seen self.old).table.columns }
        ensures codes { IfSome result (λ count. AreCodes (vector_of (seen self.old).state id) column count codes.new keys.new) }
        ensures few { IfSome result (λ count. count ≤ most) }
        ensures read { IfSome result (λ _. IsCounted (seen self.old) (seen self.new) 1) }
        ensures none { result ≡ None → (seen self.new ≡ seen self.old) × ((codes.new ≡ codes.old) × (keys.new ≡ keys.old)) };

    /// The key of the hashes by which groups and distinct values are found. It says nothing of a value.
    fn hash_key(&self) -> HashKey;

    /// How many passes over vectors were made, or the greatest number if there were more.
    fn passes(&self) -> u128
        ensures { result ≡ (seen self.now).passes };
}

/// The law that a state is within its limits.
pub(crate) fn state_is_within_limits<C: Columns>(columns: &C)
    ensures { IsWithin (C.seen columns.now).table (C.seen columns.now).state }
{
    columns.batches();
}
