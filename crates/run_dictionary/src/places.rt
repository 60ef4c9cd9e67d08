//! How many rows differ from the row before, of numbers by places.
ghost use Rattle.std.specs.Prelude.{◌≡◌, ◌↔◌, ℕ, suc, ◌+◌, ◌*◌, ◌<◌, ◌≤◌, IsTrue, pos};
ghost use Rattle.transpose_order.specs.Mask.{count_below};
ghost use Rattle.bit_interleave.specs.Places.{by_place};
ghost use Rattle.run_dictionary.specs.Runs.{changes_at};

/// How many of the sixteen rows that are the first of 64 differ from the row before, which is the last of the 64 before.
fn changes_at_first(numbers: &[u64; 1024]) -> usize
    ensures { result ≡ count_below (λ j. changes_at (λ n. pos (by_place numbers.now n)) (64 * j)) 16 }
{
    let mut count = 0;
    for j in 1..16 {
        count += usize::from(numbers[j] != numbers[16 * 63 + j - 1]);
    }
    count
}

/// How many of the sixteen rows at a place from 1 to 63 differ from the row before, which is at the place before.
fn changes_at_place(numbers: &[u64; 1024], place: usize) -> usize
    requires later { 0 < place }
    requires within { place < 64 }
    ensures { result ≡ count_below (λ j. changes_at (λ n. pos (by_place numbers.now n)) (64 * j + place)) 16 }
{
    let mut count = 0;
    for j in 0..16 {
        count += usize::from(numbers[16 * place + j] != numbers[16 * (place - 1) + j]);
    }
    count
}

/// Whether at least `least` of the rows after row 0 differ from the row before. It stops when that many do.
pub(crate) fn changes_reach(numbers: &[u64; 1024], least: usize) -> bool
    ensures { IsTrue result ↔ (least ≤ count_below (λ i. changes_at (λ n. pos (by_place numbers.now n)) (suc i)) 1023) }
{
    let mut count = changes_at_first(numbers);
    for place in 1..64 {
        if count >= least {
            return true;
        }
        count += changes_at_place(numbers, place);
    }
    count >= least
}
