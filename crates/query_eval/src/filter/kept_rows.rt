//! The rows that a query keeps: those that aren't deleted and at which WHERE is true.
ghost use Rattle.std.specs.Prelude.{◌≡◌, ◌≢◌, ◌≤◌, ◌+◌, cond, count_by, false, IsTrue, Some};
ghost use Rattle.query_eval.specs.Read.{IsRead};
ghost use Rattle.query_eval.specs.Kept.{where_mentions, kept_mask, has_live};
ghost use Rattle.query_eval.specs.Mentions.{condition_mentions};
ghost use Rattle.query_eval.specs.Vector.{IsThere, vector_of};

use crate::columns::{Columns, VectorId};
use crate::filter::true_rows::condition_rows;
use table_model::Condition;
use transpose_order::Mask;

/// A vector with kept rows, and which rows these are.
#[derive(Drop)]
pub struct KeptVector {
    pub id: VectorId,
    pub rows: Mask,
}

/// Whether a mask has a row.
pub(crate) fn has_rows(mask: &Mask) -> bool
    ensures some { IsTrue result → count_by (λ row. row) mask.now ≢ 0 }
    ensures none { result ≡ false → count_by (λ row. row) mask.now ≡ 0 }
{
    mask.keeps_1024_rows();
    mask.next_true(0) < 1024
}

/// The rows of a vector that aren't deleted and at which a condition is true. A vector without a live row takes no pass.
pub(crate) fn true_mask<C: Columns>(columns: &mut C, id: VectorId, condition: &Condition) -> Mask
    requires { IsThere (C.seen columns.old).state id.batch id.vector }
    ensures value { result ≡ kept_mask (C.seen columns.old).table (Some condition.now) (vector_of (C.seen columns.old).state id) }
    ensures read { IsRead (C.seen columns.old) (C.seen columns.new) (cond (has_live (vector_of (C.seen columns.old).state id)) (condition_mentions condition.now) 0) }
{
    let live = columns.live(id);
    if !has_rows(&live) {
        return live;
    }
    condition_rows(columns, id, condition, &live)
}

/// The rows of a vector that aren't deleted and at which WHERE is true. A vector without a live row takes no pass.
pub fn kept_mask<C: Columns>(columns: &mut C, id: VectorId, condition: &Option<Condition>) -> Mask
    requires { IsThere (C.seen columns.old).state id.batch id.vector }
    ensures value { result ≡ kept_mask (C.seen columns.old).table condition.now (vector_of (C.seen columns.old).state id) }
    ensures read { IsRead (C.seen columns.old) (C.seen columns.new) (cond (has_live (vector_of (C.seen columns.old).state id)) (where_mentions condition.now) 0) }
{
    match condition {
        None => columns.live(id),
        Some(condition) => true_mask(columns, id, condition),
    }
}
