//! Tallies, a group each, as the values of a vector's rows come: one loop over the rows for each kind of tally.
ghost use Rattle.std.specs.Prelude.{◌≡◌, ◌<◌, ◌∷◌, [], ℕ, List, Bool, ℤ, cond, length, slice_index_or, OnOk};
ghost use Rattle.query_eval.specs.Grouping.{AreShown, CountPlaced, HavePlaced, SumPlaced};
ghost use Rattle.query_eval.specs.Tally.{HaveAt, HaveMoreAt, kind_of};
ghost use Rattle.query_eval.specs.Vector.{Vector};
ghost use Rattle.query_eval.specs.declared.tallies.aggregate.Aggregate.{Aggregate as AnAggregate};
ghost use Rattle.query_eval.specs.declared.tallies.tally.Tally.{Tally as ATally};
ghost use Rattle.query_eval.specs.declared.tallies.tally.TallyKind.TheVariants as kinds;

use crate::tallies::tally::Tally;
use std::alloc::AllocError;
use transpose_order::Mask;

/// Counts a value, if there is one, in the tally at a place. Tallies of another kind stay as they are.
#[inline(always)]
fn count_value(tallies: &mut Vec<Tally>, place: usize, comes: bool)
    ensures size { length tallies.new.items ≡ length tallies.old.items }
    ensures values { (z : ℤ) → HaveAt kinds.Count place (cond comes (z ∷ []) []) tallies.old.items tallies.new.items }
    ensures kind { (g : ℕ) (t : ATally) → g < length tallies.old.items → kind_of (slice_index_or tallies.new.items g t) ≡ kind_of (slice_index_or tallies.old.items g t) }
{
    if place < tallies.len() {
        tallies[place].count_where(comes);
    }
}

/// Takes a value, if there is one, into the sum at a place. Tallies of another kind stay as they are.
#[inline(always)]
fn sum_value(tallies: &mut Vec<Tally>, place: usize, value: i64, comes: bool)
    ensures size { length tallies.new.items ≡ length tallies.old.items }
    ensures values { HaveAt kinds.Sum place (cond comes (value ∷ []) []) tallies.old.items tallies.new.items }
    ensures kind { (g : ℕ) (t : ATally) → g < length tallies.old.items → kind_of (slice_index_or tallies.new.items g t) ≡ kind_of (slice_index_or tallies.old.items g t) }
{
    if place < tallies.len() {
        tallies[place].sum_where(value, comes);
    }
}

/// Takes a value into the tally at a place.
fn add_value(tallies: &mut Vec<Tally>, place: usize, value: i64) -> Result<(), AllocError>
    ensures size { OnOk result (length tallies.new.items ≡ length tallies.old.items) }
    ensures values { OnOk result (HaveMoreAt place (value ∷ []) tallies.old.items tallies.new.items) }
    ensures kind { OnOk result ((g : ℕ) (t : ATally) → g < length tallies.old.items → kind_of (slice_index_or tallies.new.items g t) ≡ kind_of (slice_index_or tallies.old.items g t)) }
{
    if place < tallies.len() {
        tallies[place].add(value)?;
    }
    Ok(())
}

/// Adds 1 to tally `places[n]` for each row n of the mask.
pub fn count_rows(tallies: &mut Vec<Tally>, places: &[usize; 1024], rows: &Mask)
    ensures size { length tallies.new.items ≡ length tallies.old.items }
    ensures held { CountPlaced rows.now places.now tallies.old.items tallies.new.items }
{
    for row in 0..1024 {
        count_value(tallies, places[row], rows.get(row));
    }
}

/// Takes the values at the rows of a mask into the sums at their places.
pub fn sum_rows(tallies: &mut Vec<Tally>, values: &[i64; 1024], places: &[usize; 1024], rows: &Mask)
    ensures size { length tallies.new.items ≡ length tallies.old.items }
    ensures held { SumPlaced rows.now values.now places.now tallies.old.items tallies.new.items }
{
    for row in 0..1024 {
        sum_value(tallies, places[row], values[row], rows.get(row));
    }
}

/// Takes the values at the rows of a mask into the tallies at their places, of any kind.
pub fn add_rows(
    tallies: &mut Vec<Tally>,
    values: &[i64; 1024],
    places: &[usize; 1024],
    rows: &Mask,
) -> Result<(), AllocError>
    ensures size { OnOk result (length tallies.new.items ≡ length tallies.old.items) }
    ensures held { OnOk result ((a : AnAggregate) (v : Vector) (mask : List Bool) → AreShown a v mask rows.now values.now → HavePlaced a v mask places.now tallies.old.items tallies.new.items) }
{
    for row in 0..1024 {
        if rows.get(row) {
            add_value(tallies, places[row], values[row])?;
        }
    }
    Ok(())
}
