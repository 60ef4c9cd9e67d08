//! Sums, a group each, as the slices of a vector's rows come that are by codes: one pass over the rows for all slices.
ghost use Rattle.std.specs.Prelude.{◌≡◌, ◌==◌, ◌^◌, ◌<◌, ◌++◌, ℕ, Bool, List, ℤ, cond, length, pos, ◌+ℤ◌, slice_index_or, true, FitsSigned};
ghost use Rattle.std.specs.Int.{w64};
ghost use Rattle.table_model.specs.Group.{IsWithin};
ghost use Rattle.table_model.specs.State.{Cells};
ghost use Rattle.query_eval.specs.Grouping.{AreCells, HaveSlices};
ghost use Rattle.query_eval.specs.CodeSums.{AreCodeSums};
ghost use Rattle.query_eval.specs.Packed.{ArePackable, ArePacked};
ghost use Rattle.query_eval.specs.Slices.{AreByCode, code_limit, rows_sliced};
ghost use Rattle.query_eval.specs.TallyKinds.{aggregate_kind};
ghost use Rattle.query_eval.specs.Vector.{Vector};
ghost use Rattle.query_eval.specs.declared.tallies.aggregate.Aggregate.{Aggregate as AnAggregate};
ghost use Rattle.query_eval.specs.declared.tallies.tally.Tally.{Tally as ATally};
ghost use Rattle.query_eval.specs.declared.tallies.tally.TallyKind.TheVariants as kinds;

use crate::grouping::Split;
use crate::tallies::packed::{pack, unpacked};
use crate::tallies::slice_tallies::sum_more;
use crate::tallies::tally::Tally;
use transpose_order::Mask;

/// Adds a packed value to the sum of a code.
#[inline(always)]
fn add_code(sums: &mut [i64; 64], code: u16, packed: i64)
    requires code { code < code_limit }
    requires sum { FitsSigned w64 (slice_index_or sums.old code (pos 0) +ℤ packed) }
    ensures { (c : ℕ) → c < code_limit → slice_index_or sums.new c (pos 0) ≡ slice_index_or sums.old c (pos 0) +ℤ cond (code == c) packed (pos 0) }
{
    sums[usize::from(code)] += packed;
}

/// Adds packed values to the sums of their rows' codes: those of even rows to one table and those of odd rows to another, so that a
/// sum seldom waits for that of the row before.
fn add_packed(codes: &[u16; 1024], packed: &[i64; 1024], even: &mut [i64; 64], odd: &mut [i64; 64])
    requires codes { (n : ℕ) → n < 1024 → slice_index_or codes.now n 0 < code_limit }
    requires packed { (n : ℕ) → n < 1024 → IsWithin (2 ^ 52) (slice_index_or packed.now n (pos 0)) }
    requires even { (c : ℕ) → c < code_limit → slice_index_or even.old c (pos 0) ≡ pos 0 }
    requires odd { (c : ℕ) → c < code_limit → slice_index_or odd.old c (pos 0) ≡ pos 0 }
    ensures even { (c : ℕ) → c < code_limit → IsWithin (2 ^ 61) (slice_index_or even.new c (pos 0)) }
    ensures odd { (c : ℕ) → c < code_limit → IsWithin (2 ^ 61) (slice_index_or odd.new c (pos 0)) }
    ensures sums { (rows : List Bool) (values : List ℤ) → ArePacked rows values packed.now → AreCodeSums rows codes.now values even.new odd.new }
{
    for pair in 0..512 {
        add_code(even, codes[2 * pair], packed[2 * pair]);
        add_code(odd, codes[2 * pair + 1], packed[2 * pair + 1]);
    }
}

/// Takes the values at the rows of a split's slices, which are by codes, except nulls, into the sums at their places. `packed` is
/// room for packed values.
pub fn sum_codes(
    tallies: &mut Vec<Tally>,
    values: &[i64; 1024],
    split: &Split,
    nulls: &Mask,
    packed: &mut [i64; 1024],
)
    requires packable { ArePackable values.now }
    requires coded { split.now.coded ≡ true }
    requires codes { AreByCode split.now }
    ensures size { length tallies.new.items ≡ length tallies.old.items }
    ensures held { (a : AnAggregate) (v : Vector) → aggregate_kind a ≡ kinds.Sum → AreCells a v nulls.now values.now → HaveSlices a v split.now.slices.items tallies.old.items tallies.new.items }
{
    let rows = split.kept.and_not(nulls);
    pack(values, &rows, packed);
    let mut even = [0; 64];
    let mut odd = [0; 64];
    add_packed(&split.codes, packed, &mut even, &mut odd);
    for slice in &split.slices {
        let code = usize::from(slice.code);
        let (count, sum) = unpacked(even[code] + odd[code]);
        sum_more(tallies, slice.place, count, sum);
    }
}
