//! The places of names and ranges in an ascending list of ranges, by binary search.
ghost use Rattle.std.specs.Prelude.{◌≡◌, ℕ, ◌≤◌, ◌<◌, ◌+◌, false, MatchOption, length, slice_index_or};
ghost use Rattle.catalogue_join.specs.Span.{among, Rises, IsRangeAt, IsPlace, IsOverlap};

use crate::span::Span;

/// The range that has the first name of `at`.
pub fn range_at<S: Span>(ranges: &[S], at: S) -> Option<S>
    requires { Rises S.shape 0 ranges.now }
    ensures { MatchOption result
        (among S.shape ranges.now (S.shape.low at) ≡ false)
        (IsRangeAt S.shape ranges.now (S.shape.low at)) }
{
    let count = count_begun(ranges, at);
    if count == 0 {
        return None;
    }
    let range = ranges[count - 1];
    if range.reaches(at) { Some(range) } else { None }
}

/// The ranges that have a name of `range`.
pub fn overlap<S: Span>(ranges: &[S], range: S) -> &[S]
    requires rising { Rises S.shape 0 ranges.now }
    requires not_empty { S.shape.low range ≤ S.shape.high range }
    ensures { IsOverlap S.shape ranges.now range result.now }
{
    let first = count_ended_before(ranges, range);
    let end = count_begun_by_end(ranges, range);
    &ranges[first..end]
}

/// The place to which a range goes: how many ranges end before it without touching it, and how many begin before it ends or touch it.
pub fn place_of<S: Span>(ranges: &[S], range: S) -> (usize, usize)
    requires rising { Rises S.shape 0 ranges.now }
    requires not_empty { S.shape.low range ≤ S.shape.high range }
    ensures { IsPlace S.shape ranges.now range result.0 result.1 }
{
    (
        count_apart_before(ranges, range),
        count_up_to_touching(ranges, range),
    )
}

// How many ranges begin at the first name of `at` or before it.
fn count_begun<S: Span>(ranges: &[S], at: S) -> usize
    requires { Rises S.shape 0 ranges.now }
    ensures within { result ≤ length ranges.now }
    ensures begun { (k : ℕ) (d : S) → k < result → S.shape.low (slice_index_or ranges.now k d) ≤ S.shape.low at }
    ensures later { (k : ℕ) (d : S) → result ≤ k → k < length ranges.now → S.shape.low at < S.shape.low (slice_index_or ranges.now k d) }
{
    ranges.partition_point(|range| range.begins_by(at))
}

// How many ranges end before `range` without touching it.
fn count_apart_before<S: Span>(ranges: &[S], range: S) -> usize
    requires { Rises S.shape 0 ranges.now }
    ensures within { result ≤ length ranges.now }
    ensures before { (k : ℕ) (d : S) → k < result → S.shape.high (slice_index_or ranges.now k d) + 1 < S.shape.low range }
    ensures later { (k : ℕ) (d : S) → result ≤ k → k < length ranges.now → S.shape.low range ≤ S.shape.high (slice_index_or ranges.now k d) + 1 }
{
    ranges.partition_point(|other| other.ends_before(range))
}

// How many ranges begin before `range` ends, or touch it.
fn count_up_to_touching<S: Span>(ranges: &[S], range: S) -> usize
    requires { Rises S.shape 0 ranges.now }
    ensures within { result ≤ length ranges.now }
    ensures begun { (k : ℕ) (d : S) → k < result → S.shape.low (slice_index_or ranges.now k d) ≤ S.shape.high range + 1 }
    ensures later { (k : ℕ) (d : S) → result ≤ k → k < length ranges.now → S.shape.high range + 1 < S.shape.low (slice_index_or ranges.now k d) }
{
    ranges.partition_point(|other| !range.ends_before(*other))
}

// How many ranges end before `range` begins.
fn count_ended_before<S: Span>(ranges: &[S], range: S) -> usize
    requires { Rises S.shape 0 ranges.now }
    ensures within { result ≤ length ranges.now }
    ensures before { (k : ℕ) (d : S) → k < result → S.shape.high (slice_index_or ranges.now k d) < S.shape.low range }
    ensures later { (k : ℕ) (d : S) → result ≤ k → k < length ranges.now → S.shape.low range ≤ S.shape.high (slice_index_or ranges.now k d) }
{
    ranges.partition_point(|other| !other.reaches(range))
}

// How many ranges begin where `range` ends or before.
fn count_begun_by_end<S: Span>(ranges: &[S], range: S) -> usize
    requires { Rises S.shape 0 ranges.now }
    ensures within { result ≤ length ranges.now }
    ensures reached { (k : ℕ) (d : S) → k < result → S.shape.low (slice_index_or ranges.now k d) ≤ S.shape.high range }
    ensures later { (k : ℕ) (d : S) → result ≤ k → k < length ranges.now → S.shape.high range < S.shape.low (slice_index_or ranges.now k d) }
{
    ranges.partition_point(|other| range.reaches(*other))
}
