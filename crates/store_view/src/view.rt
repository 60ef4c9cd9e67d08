//! The view of a store that queries are answered by.
//! A vector is read as it is coded, by the kernels over packed numbers, runs and dictionaries.
ghost use Rattle.std.specs.Prelude.{◌≡◌, ◌<◌, ◌≤◌, ◌&&◌, ℕ, if◌then◌else◌, nat_le, nat_lt, true, length, ℤ, Some, slice_index_or, pos};
ghost use Rattle.segment_core.specs.CodedVector.{is_null};
ghost use Rattle.transpose_order.specs.Mask.{rows_of, has};
ghost use Rattle.table_model.specs.Truth.{comparison, and_of};
ghost use Rattle.table_model.specs.declared.op.Op.TheVariants.{GreaterOrEqual, LessOrEqual};
ghost use Rattle.table_model.specs.Values.{total, least, greatest};
ghost use Rattle.query_eval.specs.Pairs.{yes_of, no_of};
ghost use Rattle.table_model.specs.Passes.{raised};
ghost use Rattle.query_eval.specs.Vector.{IsThere, vector_of, cell_at, looked_at};
ghost use Rattle.store_view.specs.View.{HasCells};

use fused_kernels::{
    Meter, compare_vector, compare_vector_range, compare_vectors, count, decode_vector,
    vector_codes_into, vector_extreme, vector_has_few_codes, vector_runs_into, vector_sum,
};
use query_eval::{Columns, HashKey, VectorId};
use replica_store::Store;
use segment_core::CodedVector;
use std::marker::Model;
use table_model::{BatchName, Extreme, Op, Schema};
use transpose_order::{Mask, VECTOR_ROWS};

/// A store as the columns of a query, with a meter of the passes over its vectors.
#[derive(Drop)]
pub struct StoreView<'a> {
    store: &'a Store,
    meter: Meter,
    hash_key: HashKey,
}

impl<'a> Model for StoreView<'a> {
    ghost use Rattle.store_view.specs.View.{ViewForm, coded_view};

    ghost Value = { ViewForm };

    ghost coded = { coded_view };

    ghost view = { λ v. record { table = v.store.now.replica.schema; state = v.store.now.replica.state; passes = v.meter } };
}

impl<'a> StoreView<'a> {
    /// The view of a store whose rows are trusted, with no pass made yet. Its hashes go by the fixed key.
    pub fn new(store: &'a Store) -> Self
        ensures { result ≡ record { table = store.now.replica.schema; state = store.now.replica.state; passes = 0 } }
    {
        StoreView::with_hash_key(store, HashKey::fixed())
    }

    /// The view of a store by hashes of a key, with no pass made yet. No answer depends on the key, but whoever chooses rows and
    /// knows it can make queries over them slow.
    pub fn with_hash_key(store: &'a Store, hash_key: HashKey) -> Self
        ensures { result ≡ record { table = store.now.replica.schema; state = store.now.replica.state; passes = 0 } }
    {
        StoreView {
            store,
            meter: Meter::new(),
            hash_key,
        }
    }
}

/// A column's vector of a batch.
fn vector_in(store: &Store, id: VectorId, column: usize) -> &CodedVector
    requires there { IsThere store.now.replica.state id.batch id.vector }
    requires column { column < length store.now.replica.schema.columns }
    ensures { HasCells result.now (vector_of store.now.replica.state id) column }
{
    let (_, segment) = store.batch(id.batch);
    segment.keeps_its_vectors();
    let found = segment.vector(column, id.vector);
    found.keeps_its_rule();
    found
}

/// A vector's null rows, and those past the rows that it covers.
fn missing_rows(vector: &CodedVector) -> Mask
    ensures { result ≡ rows_of (λ n. if nat_le vector.now.rows n && nat_lt n 1024 then true else has (rows_of (is_null vector.now.nulls)) n) }
{
    let nulls = vector.null_rows();
    let covered = vector.rows();
    if covered == VECTOR_ROWS {
        return nulls;
    }
    let mut missing = nulls;
    missing.set_range(covered, VECTOR_ROWS, true);
    missing
}

/// Writes a code at the rows past those that a vector covers.
fn put_past(codes: &mut [u16; 1024], covered: usize, code: u16)
    requires { covered ≤ 1024 }
    ensures { (n : ℕ) → n < 1024 → slice_index_or codes.new n 0 ≡ if nat_lt n covered then slice_index_or codes.old n 0 else code }
{
    for row in covered..1024 {
        codes[row] = code;
    }
}

impl<'a> Columns for StoreView<'a> {
    ghost seen = { λ v. record { table = v.table; state = v.state; passes = v.passes } };

    fn schema(&self) -> &Schema {
        self.store.schema()
    }

    fn batches(&self) -> usize {
        self.store.batches()
    }

    fn name(&self, batch: usize) -> BatchName {
        self.store.batch(batch).0
    }

    fn vectors(&self, batch: usize) -> usize {
        let (_, segment) = self.store.batch(batch);
        segment.rows().div_ceil(VECTOR_ROWS)
    }

    fn live(&self, id: VectorId) -> Mask {
        let (name, segment) = self.store.batch(id.batch);
        let covered = (segment.rows() - VECTOR_ROWS * id.vector).min(VECTOR_ROWS);
        self.store.tombs().live_mask(name, id.vector, covered)
    }

    fn nulls(&self, id: VectorId, column: usize) -> Mask {
        let found = vector_in(self.store, id, column);
        missing_rows(found)
    }

    fn compare(
        &mut self,
        id: VectorId,
        column: usize,
        op: Op,
        literal: i128,
        mask: &Mask,
    ) -> (Mask, Mask) {
        let found = vector_in(self.store, id, column);
        compare_vector(found, op, literal, mask, &mut self.meter)
    }

    fn compare_range(
        &mut self,
        id: VectorId,
        column: usize,
        low: i128,
        high: i128,
        mask: &Mask,
    ) -> (Mask, Mask) {
        let found = vector_in(self.store, id, column);
        compare_vector_range(found, low, high, mask, &mut self.meter)
    }

    fn compare_columns(
        &mut self,
        id: VectorId,
        left: usize,
        op: Op,
        right: usize,
        mask: &Mask,
    ) -> (Mask, Mask) {
        let left = vector_in(self.store, id, left);
        let right = vector_in(self.store, id, right);
        compare_vectors(left, op, right, mask, &mut self.meter)
    }

    fn count(&self, id: VectorId, column: usize, mask: &Mask) -> usize {
        let found = vector_in(self.store, id, column);
        count(found, mask) as usize
    }

    fn sum(&mut self, id: VectorId, column: usize, mask: &Mask) -> i128 {
        let found = vector_in(self.store, id, column);
        vector_sum(found, mask, &mut self.meter)
    }

    fn min(&mut self, id: VectorId, column: usize, mask: &Mask) -> Option<i64> {
        let found = vector_in(self.store, id, column);
        vector_extreme(Extreme::Least, found, mask, &mut self.meter)
    }

    fn max(&mut self, id: VectorId, column: usize, mask: &Mask) -> Option<i64> {
        let found = vector_in(self.store, id, column);
        vector_extreme(Extreme::Greatest, found, mask, &mut self.meter)
    }

    fn decode_into(&mut self, id: VectorId, column: usize, values: &mut [i64; 1024]) {
        let found = vector_in(self.store, id, column);
        decode_vector(found, values, &mut self.meter);
    }

    fn runs_into(&mut self, id: VectorId, column: usize, values: &mut [i64; 1024]) -> Option<Mask> {
        let found = vector_in(self.store, id, column);
        let starts = vector_runs_into(found, values, &mut self.meter)?;
        Some(starts)
    }

    fn codes_into(
        &mut self,
        id: VectorId,
        column: usize,
        most: usize,
        codes: &mut [u16; 1024],
        keys: &mut [i64; 1024],
    ) -> Option<usize> {
        let found = vector_in(self.store, id, column);
        if !vector_has_few_codes(found, most) {
            return None;
        }
        let count = vector_codes_into(found, codes, keys, &mut self.meter)?;
        put_past(codes, found.rows(), count as u16);
        Some(count)
    }

    fn hash_key(&self) -> HashKey {
        self.hash_key
    }

    fn passes(&self) -> u128 {
        self.meter.count()
    }
}
