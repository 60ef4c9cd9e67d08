//! Tallies, a group each, as the slices of a vector's rows come: one step a slice.
ghost use Rattle.std.specs.Prelude.{◌≡◌, ◌<◌, ◌≤ℤ◌, ℕ, List, map, ℤ, length, slice_index_or, true, OnOk};
ghost use Rattle.table_model.specs.Values.{total};
ghost use Rattle.table_model.specs.Extreme.{extreme_of, turned};
ghost use Rattle.query_eval.specs.Forms.{top_of};
ghost use Rattle.query_eval.specs.Grouping.{AreCells, AreNulls, HaveSlices};
ghost use Rattle.query_eval.specs.Slices.{AreShort, values_at};
ghost use Rattle.query_eval.specs.Tally.{HaveAt, HaveMoreAt, kind_of};
ghost use Rattle.query_eval.specs.TallyKinds.{aggregate_kind};
ghost use Rattle.query_eval.specs.Vector.{Vector};
ghost use Rattle.query_eval.specs.declared.tallies.aggregate.Aggregate.{Aggregate as AnAggregate};
ghost use Rattle.table_model.specs.declared.extreme.Extreme.{Extreme as AnExtreme};
ghost use Rattle.query_eval.specs.declared.tallies.tally.Tally.{Tally as ATally};
ghost use Rattle.query_eval.specs.declared.tallies.tally.TallyKind.TheVariants as kinds;

use crate::grouping::Slice;
use crate::tallies::tally::Tally;
use std::alloc::AllocError;
use transpose_order::Mask;

/// Counts this many values in the tally at a place. Tallies of another kind stay as they are.
pub fn count_more(tallies: &mut Vec<Tally>, place: usize, more: usize)
    ensures size { length tallies.new.items ≡ length tallies.old.items }
    ensures values { (added : List ℤ) → more ≡ length added → HaveAt kinds.Count place added tallies.old.items tallies.new.items }
    ensures kind { (g : ℕ) (t : ATally) → g < length tallies.old.items → kind_of (slice_index_or tallies.new.items g t) ≡ kind_of (slice_index_or tallies.old.items g t) }
{
    if place < tallies.len() {
        tallies[place].count_more(more);
    }
}

/// Takes this many values, with this sum, into the sum at a place. Tallies of another kind stay as they are.
pub fn sum_more(tallies: &mut Vec<Tally>, place: usize, count: usize, sum: i128)
    ensures size { length tallies.new.items ≡ length tallies.old.items }
    ensures values { (added : List ℤ) → count ≡ length added → sum ≡ total added → HaveAt kinds.Sum place added tallies.old.items tallies.new.items }
    ensures kind { (g : ℕ) (t : ATally) → g < length tallies.old.items → kind_of (slice_index_or tallies.new.items g t) ≡ kind_of (slice_index_or tallies.old.items g t) }
{
    if place < tallies.len() {
        tallies[place].sum_more(count, sum);
    }
}

/// Takes values, with this extreme, into the tally at a place. Tallies of another kind stay as they are.
pub fn extreme_more(tallies: &mut Vec<Tally>, place: usize, value: Option<i64>)
    ensures size { length tallies.new.items ≡ length tallies.old.items }
    ensures values { (extreme : AnExtreme) (added : List ℤ) → value ≡ extreme_of extreme added → HaveAt (kinds.Extreme extreme) place added tallies.old.items tallies.new.items }
    ensures kind { (g : ℕ) (t : ATally) → g < length tallies.old.items → kind_of (slice_index_or tallies.new.items g t) ≡ kind_of (slice_index_or tallies.old.items g t) }
{
    if place < tallies.len() {
        tallies[place].extreme_more(value);
    }
}

/// Whether the tally at a place keeps an extreme that no values go past whose representations are at most this bound.
pub fn reaches(tallies: &Vec<Tally>, place: usize, bound: i64) -> bool
    ensures { (extreme : AnExtreme) (added : List ℤ) → result ≡ true → top_of (map (turned extreme) added) ≤ℤ bound → HaveAt (kinds.Extreme extreme) place added tallies.now.items tallies.now.items }
{
    if place < tallies.len() {
        return tallies[place].reaches(bound);
    }
    false
}

/// Takes the values at the rows of a mask into the tally at a place. The values are short if `short` says so.
pub fn add_slice(
    tallies: &mut Vec<Tally>,
    place: usize,
    values: &[i64; 1024],
    short: bool,
    rows: &Mask,
) -> Result<(), AllocError>
    requires { short ≡ true → AreShort values.now }
    ensures size { OnOk result (length tallies.new.items ≡ length tallies.old.items) }
    ensures values { OnOk result (HaveMoreAt place (values_at rows.now values.now) tallies.old.items tallies.new.items) }
    ensures kind { OnOk result ((g : ℕ) (t : ATally) → g < length tallies.old.items → kind_of (slice_index_or tallies.new.items g t) ≡ kind_of (slice_index_or tallies.old.items g t)) }
{
    if place < tallies.len() {
        tallies[place].add_rows(values, short, rows)?;
    }
    Ok(())
}

/// Counts the rows of slices, except nulls, in the tallies at their places.
pub fn count_slices(tallies: &mut Vec<Tally>, slices: &[Slice], nulls: &Mask)
    ensures size { length tallies.new.items ≡ length tallies.old.items }
    ensures held { (a : AnAggregate) (v : Vector) → aggregate_kind a ≡ kinds.Count → AreNulls a v nulls.now → HaveSlices a v slices.now tallies.old.items tallies.new.items }
{
    for slice in slices {
        let rows = slice.rows.and_not(nulls);
        count_more(tallies, slice.place, rows.count());
    }
}

/// Takes the values at the rows of slices, except nulls, into the tallies at their places, of any kind. The values are short if
/// `short` says so.
pub fn add_slices(
    tallies: &mut Vec<Tally>,
    values: &[i64; 1024],
    short: bool,
    slices: &[Slice],
    nulls: &Mask,
) -> Result<(), AllocError>
    requires { short ≡ true → AreShort values.now }
    ensures size { OnOk result (length tallies.new.items ≡ length tallies.old.items) }
    ensures held { OnOk result ((a : AnAggregate) (v : Vector) → AreCells a v nulls.now values.now → HaveSlices a v slices.now tallies.old.items tallies.new.items) }
{
    for slice in slices {
        let rows = slice.rows.and_not(nulls);
        add_slice(tallies, slice.place, values, short, &rows)?;
    }
    Ok(())
}
