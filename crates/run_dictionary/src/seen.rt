//! How many distinct numbers there are, without a sort if their keys tell.
ghost use Rattle.std.specs.Prelude.{◌≡◌, ◌↔◌, ◌<◌, ◌≤◌, IsTrue, IfSome, IfNone, length, map, pos};
ghost use Rattle.std.specs.List.{All};
ghost use Rattle.run_dictionary.specs.Dict.{distinct};
ghost use Rattle.run_dictionary.specs.Keys.{mark_of, marks_of};

use crate::codes::count_distinct;
use crate::run_words::distinct_to_three;
use bit_interleave::Values;

/// The mark of a number: the number itself if it is below 4096. Numbers that have the same twelve low bits mostly have
/// different marks.
fn mark_of(number: u64) -> usize
    ensures value { result ≡ mark_of number }
    ensures bound { result < 4096 }
{
    let mixed = (number >> 12).wrapping_mul(0x9e37_79b9_7f4a_7c15) >> 52;
    (number.wrapping_add(mixed) % 4096) as usize
}

/// How many marks the numbers have, if these are no more than `limit`.
fn count_marks(numbers: &[u64], limit: usize) -> Option<usize>
    requires { length numbers.now ≤ 1024 }
    ensures some { IfSome result (λ count. count ≡ length (distinct (marks_of numbers.now))) }
    ensures within { IfSome result (λ count. count ≤ limit) }
    ensures none { IfNone result (limit < length (distinct (marks_of numbers.now))) }
{
    let mut marked = [false; 4096];
    let mut count = 0;
    for number in numbers {
        let mark = mark_of(*number);
        count += usize::from(!marked[mark]);
        marked[mark] = true;
        if count > limit {
            return None;
        }
    }
    Some(count)
}

/// How many distinct numbers there are.
fn count_numbers(numbers: &[u64]) -> usize
    requires some { 0 < length numbers.now }
    requires many { length numbers.now ≤ 1024 }
    ensures { result ≡ length (distinct (map pos numbers.now)) }
{
    let mut values = [numbers[0].cast_signed(); 1024];
    for i in 0..numbers.len() {
        values[i] = numbers[i].cast_signed();
    }
    count_distinct(&values)
}

/// Whether each number is below 4096, and so its own mark.
fn are_small(numbers: &[u64]) -> bool
    ensures { IsTrue result ↔ All (λ number. number < 4096) numbers.now }
{
    numbers.iter().all(|number| *number < 4096)
}

/// Whether there are more distinct numbers than `limit`. It stops at the first mark that is too many, and the numbers are sorted
/// only if their marks are no more than the limit and a number is 4096 or more.
pub(crate) fn more_distinct(numbers: &[u64], limit: usize) -> bool
    requires some { 0 < length numbers.now }
    requires many { length numbers.now ≤ 1024 }
    ensures { IsTrue result ↔ (limit < length (distinct (map pos numbers.now))) }
{
    if limit >= numbers.len() {
        return false;
    }
    match count_marks(numbers, limit) {
        None => true,
        Some(_) => !are_small(numbers) && count_numbers(numbers) > limit,
    }
}

/// Whether there are more distinct values than `limit`.
pub(crate) fn more_values(values: &Values, limit: usize) -> bool
    requires some { 0 < length values.now.values }
    requires many { length values.now.values ≤ 1024 }
    ensures { IsTrue result ↔ (limit < length (distinct values.now.values)) }
{
    if limit < 3 {
        return distinct_to_three(values) > limit;
    }
    let mut numbers = [0; 1024];
    for k in 0..values.len() {
        numbers[k] = values.get(k).cast_unsigned();
    }
    more_distinct(&numbers[..values.len()], limit)
}
