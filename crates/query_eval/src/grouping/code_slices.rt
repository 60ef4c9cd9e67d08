//! Slices of a vector's kept rows by the codes of its one grouping column.
ghost use Rattle.std.specs.Prelude.{◌≡◌, ◌==◌, ◌+◌, ◌<◌, ◌≤◌, ◌∷◌, [], ◌&&◌, ℕ, List, false, length, slice_index_or, pos, ◌<ℤ◌, IfOk, OnOk};
ghost use Rattle.table_model.specs.Group.{key_of};
ghost use Rattle.transpose_order.specs.Mask.{has};
ghost use Rattle.query_eval.specs.Coded.{cell_of_code};
ghost use Rattle.query_eval.specs.Keys.{IsSlicing, code_key};
ghost use Rattle.query_eval.specs.Places.{IsIndex, IsTakenIn};
ghost use Rattle.query_eval.specs.Slices.{IsCoded, code_limit};
ghost use Rattle.query_eval.specs.Vector.{Vector, row_at};
ghost use Rattle.query_eval.specs.declared.grouping.split.Slice.{Slice as ASlice};

use crate::filter::coded_rows;
use crate::grouping::places::Places;
use crate::grouping::split::Slice;
use std::alloc::{AllocError, Global};
use transpose_order::Mask;

/// The greatest number of codes below that of null by which rows are sliced.
pub const MOST_CODES: usize = 63;

/// The slice of rows with a code. The code equal to the count represents null, and each below it for its key. A new key gets a new
/// place.
fn slice_of(
    alloc: Global,
    places: &mut Places,
    keys: &[i64; 1024],
    count: usize,
    code: u16,
    rows: &Mask,
) -> Result<Slice, AllocError>
    requires { code < 1024 }
    ensures index { OnOk result (IsIndex places.old → IsIndex places.new) }
    ensures taken { IfOk result (λ slice. IsIndex places.old → IsTakenIn (cell_of_code count keys.now code ∷ []) slice.place places.old.index.entries places.new.index.entries) }
    ensures rows { IfOk result (λ slice. slice.rows ≡ rows.now) }
    ensures code { IfOk result (λ slice. slice.code ≡ code) }
{
    let key = usize::from(code);
    let place = places.of_row(alloc, key == count, keys[key])?;
    Ok(Slice {
        place,
        rows: *rows,
        code,
    })
}

/// Slices the rows of a mask by their codes: a code at the count represents null, and each below it for its key. Each code that a
/// row of the mask has is a slice, so no row is left. A new key gets a new place.
pub fn slice_codes(
    alloc: Global,
    places: &mut Places,
    codes: &[u16; 1024],
    keys: &[i64; 1024],
    count: usize,
    mask: &Mask,
    slices: &mut Vec<Slice>,
) -> Result<Mask, AllocError>
    requires count { count < code_limit }
    requires within { (n : ℕ) → n < 1024 → slice_index_or codes.now n 0 ≤ count }
    requires rises { (i j : ℕ) → i < j → j < count → slice_index_or keys.now i (pos 0) <ℤ slice_index_or keys.now j (pos 0) }
    ensures index { OnOk result (IsIndex places.old → IsIndex places.new) }
    ensures sliced { IfOk result (λ left. IsSlicing (code_key count keys.now codes.now) mask.now left places.old places.new slices.new.items) }
    ensures few { OnOk result ((i : ℕ) (slice : ASlice) → i < length slices.new.items → (slice_index_or slices.new.items i slice).code < code_limit) }
    ensures rows { OnOk result ((i n : ℕ) (slice : ASlice) → i < length slices.new.items → n < 1024 → IsCoded mask.now codes.now n (slice_index_or slices.new.items i slice)) }
    ensures none { IfOk result (λ left. (n : ℕ) → n < 1024 → has left n ≡ false) }
{
    slices.clear();
    let mut left = *mask;
    for code in 0..count + 1 {
        if left.next_true(0) == 1024 {
            return Ok(left);
        }
        let rows = coded_rows(codes, code as u16, &left);
        if rows.next_true(0) < 1024 {
            let slice = slice_of(alloc, places, keys, count, code as u16, &rows)?;
            slices.push(slice)?;
            left = left.and_not(&rows);
        }
    }
    Ok(left)
}
