//! The rows of a vector that repeat the row before if the vector is filled.
ghost use Rattle.std.specs.Prelude.{◌≡◌, ◌↔◌, ◌<◌, ◌≤◌, ℕ, ℤ, pos, true, List, length, slice_index, IsTrue};
ghost use Rattle.std.specs.Int.{bit_at};
ghost use Rattle.segment_core.specs.Fill.{filled, cells_under};
ghost use Rattle.segment_core.specs.Repeats.{Repeats, RepeatByPlace, RepeatsAt, RepeatsFirst};

use crate::fill::is_full;
use transpose_order::Mask;

/// What the fill asks of a vector's values: which rows repeat the row before, of which row 0 counts for nothing, and whether no
/// row has a value, so that the value is 0.
#[derive(Drop)]
pub(crate) struct RepeatingRows {
    pub(crate) rows: Mask,
    pub(crate) valueless: bool,
}

impl RepeatingRows {
    /// Those of a vector of `rows` rows, 1024 at most, and of a mask of those that are null: each row that is null or past the
    /// rows, and the first that has a value.
    pub(crate) fn of(rows: usize, nulls: &Mask) -> RepeatingRows
        requires { rows ≤ 1024 }
        ensures { (values : List ℤ) → length values ≡ 1024
            → (values ≡ filled (cells_under rows nulls.now values)) ↔ Repeats result.rows result.valueless values }
    {
        if is_full(rows, nulls) {
            return RepeatingRows {
                rows: Mask::none(),
                valueless: false,
            };
        }
        let mut holes = *nulls;
        holes.set_range(rows, 1024, true);
        let first = holes.not().next_true(0);
        holes.set_range(0, (first + 1).min(1024), true);
        RepeatingRows {
            rows: holes,
            valueless: first == 1024,
        }
    }

    /// Whether 1024 values in row order repeat so, and the first is 0 if no row has a value.
    pub(crate) fn hold_among(&self, values: &[i64; 1024]) -> bool
        ensures { IsTrue result ↔ Repeats self.now.rows self.now.valueless values.now }
    {
        if self.valueless && values[0] != 0 {
            return false;
        }
        for row in 1..1024 {
            if self.rows.get(row) && values[row] != values[row - 1] {
                return false;
            }
        }
        true
    }

    /// Whether a value may be that of row 0: any, if a row has a value, else 0.
    pub(crate) fn allow_first(&self, value: i64) -> bool
        ensures { IsTrue result ↔ (self.now.valueless ≡ true → value ≡ pos 0) }
    {
        !self.valueless || value == 0
    }

    /// Whether each of the rows repeats the number of the row before, of numbers by places.
    pub(crate) fn hold(&self, numbers: &[u64; 1024]) -> bool
        ensures { IsTrue result ↔ RepeatByPlace self.now.rows numbers.now }
    {
        if self.rows.next_true(1) == 1024 {
            return true;
        }
        let words = self.rows.words();
        repeat_first(words, numbers) && repeat_at_places(words, numbers)
    }
}

/// Whether the rows at place 0 of the words after the first, which are marked there, repeat the row before.
fn repeat_first(words: &[u64; 16], numbers: &[u64; 1024]) -> bool
    ensures { IsTrue result ↔ ((j : ℕ) → 0 < j → j < 16 → RepeatsFirst words.now numbers.now j) }
{
    for j in 1..16 {
        if words[j] % 2 == 1 && numbers[j] != numbers[1007 + j] {
            return false;
        }
    }
    true
}

/// Whether the rows at places from 1 on, which are marked there, repeat the row before.
fn repeat_at_places(words: &[u64; 16], numbers: &[u64; 1024]) -> bool
    ensures { IsTrue result ↔ ((place j : ℕ) → 0 < place → place < 64 → j < 16 → RepeatsAt words.now numbers.now place j) }
{
    let mut breaks = [0; 16];
    for place in 1..64 {
        add_breaks(words, numbers, place, &mut breaks);
    }
    are_zero(&breaks)
}

/// Makes the number of a word other than 0 if its row at a place, from 1 on, is marked and differs from the row before.
#[inline(always)]
fn add_breaks(words: &[u64; 16], numbers: &[u64; 1024], place: usize, breaks: &mut [u64; 16])
    requires later { 0 < place }
    requires place { place < 64 }
    ensures long { length breaks.new ≡ 16 }
    ensures each { (j : ℕ) → j < 16 → (slice_index breaks.new j ≡ 0) ↔ ((slice_index breaks.old j ≡ 0) × RepeatsAt words.now numbers.now place j) }
{
    for j in 0..16 {
        let marked = words[j] >> place & 1;
        let (number, before) = (numbers[16 * place + j], numbers[16 * (place - 1) + j]);
        breaks[j] = with_break(breaks[j], marked, number, before);
    }
}

/// A number, which is or becomes other than 0 if a row is marked, by 1, and differs from the row before.
#[inline(always)]
fn with_break(breaks: u64, marked: u64, number: u64, before: u64) -> u64
    requires { marked < 2 }
    ensures { (result ≡ 0) ↔ ((breaks ≡ 0) × (marked ≡ 1 → number ≡ before)) }
{
    breaks | (marked & u64::from(number != before))
}

/// Whether sixteen numbers are 0.
fn are_zero(numbers: &[u64; 16]) -> bool
    ensures { IsTrue result ↔ ((j : ℕ) → j < 16 → slice_index numbers.now j ≡ 0) }
{
    for j in 0..16 {
        if numbers[j] != 0 {
            return false;
        }
    }
    true
}
