//! A set of names as the ascending list of its maximal ranges.
ghost use Rattle.std.specs.Prelude.{◌≡◌, List, [], OnOk, OnErr, IfOk, IsOk, ℕ, ◌≤◌, ◌<◌, ◌+◌, false, true, ◌||◌, MatchOption, length, slice_index_or, take, drop, ◌++◌, ◌∷◌};
ghost use Rattle.catalogue_join.specs.Span.{among, covers, Rises, IsRangeAt, IsOverlap, Lacks};

use crate::join::joined;
use crate::search::{overlap, place_of, range_at};
use crate::span::Span;
use std::alloc::{AllocError, Global};
use std::marker::Model;

/// A set of names, kept as the ascending list of its maximal ranges.
#[derive(Drop)]
pub struct Ranges<S: Span> {
    ranges: Vec<S>,
}

impl<S: Span> Model for Ranges<S> {
    ghost use Rattle.std.specs.Prelude.{List};
    ghost use Rattle.catalogue_join.specs.Span.{Rises};

    ghost Value = { List S };

    ghost view = { λ r. r.ranges.items };

    ghost invariant = { λ r. Rises S.shape 0 r.ranges.items };
}

impl<S: Span> Ranges<S> {
    /// The set without names.
    pub fn new(alloc: Global) -> Self
        ensures { result ≡ [] }
    {
        Ranges {
            ranges: Vec::new(alloc),
        }
    }

    /// The set that these ranges are: they are maximal already, and ascend.
    pub fn from_rising(ranges: Vec<S>) -> Self
        requires { Rises S.shape 0 ranges.items }
        ensures { result ≡ ranges.items }
    {
        Ranges { ranges }
    }

    /// The ranges, ascending.
    pub fn as_slice(&self) -> &[S]
        ensures ranges { result.now ≡ self.now }
        ensures maximal { Rises S.shape 0 result.now }
    {
        self.ranges.as_slice()
    }

    /// The allocator that the set was made with.
    pub fn allocator(&self) -> Global {
        *self.ranges.allocator()
    }

    /// A copy of the set in memory of its own. If memory is refused, an `AllocError`.
    pub fn copy(&self, alloc: Global) -> Result<Ranges<S>, AllocError>
        ensures { IfOk result (λ copied. copied ≡ self.now) }
    {
        Ok(Ranges {
            ranges: Vec::from_slice(alloc, &self.ranges)?,
        })
    }

    /// The range that has the first name of `at`.
    pub fn find(&self, at: S) -> Option<S>
        ensures { MatchOption result
            (among S.shape self.now (S.shape.low at) ≡ false)
            (IsRangeAt S.shape self.now (S.shape.low at)) }
    {
        range_at(&self.ranges, at)
    }

    /// The ranges that have a name of `range`.
    pub fn overlapping(&self, range: S) -> &[S]
        requires { S.shape.low range ≤ S.shape.high range }
        ensures { IsOverlap S.shape self.now range result.now }
    {
        overlap(&self.ranges, range)
    }

    /// Whether all names of the range are in the set.
    pub fn has_range(&self, range: S) -> bool
        requires { S.shape.low range ≤ S.shape.high range }
        ensures has { result ≡ true → (p : ℕ) → covers S.shape range p ≡ true → among S.shape self.now p ≡ true }
        ensures lacks { result ≡ false → Lacks S.shape self.now (range ∷ []) }
    {
        match self.find(range) {
            Some(found) => range.ends_by(found),
            None => false,
        }
    }

    /// Whether all names of another set are in this one: a search for each of the other's ranges.
    pub fn has_all(&self, other: &Ranges<S>) -> bool
        ensures has { result ≡ true → (p : ℕ) → among S.shape other.now p ≡ true → among S.shape self.now p ≡ true }
        ensures lacks { result ≡ false → Lacks S.shape self.now other.now }
    {
        for range in &other.ranges {
            if !self.has_range(*range) {
                return false;
            }
        }
        true
    }

    /// The names of both sets, in one step for each of their ranges.
    pub fn joined(&self, other: &Ranges<S>) -> Result<Ranges<S>, AllocError>
        ensures places { IfOk result (λ r. (p : ℕ) → among S.shape r p
            ≡ (among S.shape self.now p || among S.shape other.now p)) }
        ensures maximal { IfOk result (λ r. Rises S.shape 0 r) }
    {
        Ok(Ranges {
            ranges: joined(self.allocator(), &self.ranges, &other.ranges)?,
        })
    }

    /// Adds the names of a range. If memory is refused the set is as before. If it has the range's first name already it takes no
    /// memory.
    pub fn insert(&mut self, range: S) -> Result<(), AllocError>
        requires not_empty { S.shape.low range ≤ S.shape.high range }
        requires named { S.shape.named range ≡ true }
        ensures places { OnOk result ((p : ℕ) → among S.shape self.new p
            ≡ (among S.shape self.old p || covers S.shape range p)) }
        ensures err { OnErr result (self.new ≡ self.old) }
        ensures idle { among S.shape self.old (S.shape.low range) ≡ true → IsOk result }
        ensures maximal { Rises S.shape 0 self.new }
    {
        put(&mut self.ranges, range)
    }
}

// Puts a range in its place, joined with those that it touches. If its first name is in one of them it takes no memory.
fn put<S: Span>(ranges: &mut Vec<S>, range: S) -> Result<(), AllocError>
    requires rising { Rises S.shape 0 ranges.old.items }
    requires not_empty { S.shape.low range ≤ S.shape.high range }
    requires named { S.shape.named range ≡ true }
    ensures places { OnOk result ((p : ℕ) → among S.shape ranges.new.items p
        ≡ (among S.shape ranges.old.items p || covers S.shape range p)) }
    ensures err { OnErr result (ranges.new.items ≡ ranges.old.items) }
    ensures idle { among S.shape ranges.old.items (S.shape.low range) ≡ true → IsOk result }
    ensures maximal { Rises S.shape 0 ranges.new.items }
{
    let (first, end) = place_of(ranges, range);
    if first == end {
        ranges.insert(first, range)?;
    } else {
        let hull = range.hull(ranges[first]).hull(ranges[end - 1]);
        replace(ranges, first, end, hull);
    }
    Ok(())
}

// Puts one range in place of those from `first` on and before `end`.
fn replace<S: Span>(ranges: &mut Vec<S>, first: usize, end: usize, range: S)
    requires order { first < end }
    requires within { end ≤ length ranges.old.items }
    ensures { ranges.new.items ≡ take first ranges.old.items ++ range ∷ drop end ranges.old.items }
{
    ranges[first] = range;
    drop(ranges.drain(first + 1..end));
}
