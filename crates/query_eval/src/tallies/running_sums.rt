//! Running sums of packed values, by which the packed sum of a span takes two loads.
ghost use Rattle.std.specs.Prelude.{◌≡◌, ◌≤◌, Bool, List, ℤ};
ghost use Rattle.query_eval.specs.Packed.{ArePacked, AreRunning, AreSmallSums, AreSummable, IsSmallSum, packed_sum};
ghost use Rattle.query_eval.specs.Slices.{rows_between, values_at, values_below};

/// Sums packed values in place: each row then has the packed sum of the values up to it.
pub fn sum_up(packed: &mut [i64; 1024])
    requires { AreSummable packed.old }
    ensures small { AreSmallSums packed.new }
    ensures sums { (rows : List Bool) (values : List ℤ) → ArePacked rows values packed.old → AreRunning rows values packed.new }
{
    let mut sum = 0;
    for row in 0..1024 {
        sum += packed[row];
        packed[row] = sum;
    }
}

/// The packed sum of the values below an end.
#[inline(always)]
fn sum_below(running: &[i64; 1024], end: usize) -> i64
    requires within { end ≤ 1024 }
    requires small { AreSmallSums running.now }
    ensures small { IsSmallSum result }
    ensures sum { (rows : List Bool) (values : List ℤ) → AreRunning rows values running.now → result ≡ packed_sum (values_below end rows values) }
{
    if end == 0 {
        return 0;
    }
    running[end - 1]
}

/// The packed sum of the values from row `first` up to `end`.
#[inline(always)]
pub fn sum_of_span(running: &[i64; 1024], first: usize, end: usize) -> i64
    requires order { first ≤ end }
    requires within { end ≤ 1024 }
    requires small { AreSmallSums running.now }
    ensures { (rows : List Bool) (values : List ℤ) → AreRunning rows values running.now → result ≡ packed_sum (values_at (rows_between rows first end) values) }
{
    let below = sum_below(running, end);
    below - sum_below(running, first)
}
