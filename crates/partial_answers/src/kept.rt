//! What a set function keeps of some values, and of two lists of values together.
ghost use Rattle.std.specs.Prelude.{◌≡◌, ◌+◌, ◌<◌, ◌^◌, ◌+ℤ◌, ◌++◌, ◌∷◌, [], map, FitsSigned, OnOk, IfOk, IfErr};
ghost use Rattle.std.specs.Int.{w128};
ghost use Rattle.partial_answers.specs.Refusing.{RefusesGroup, RefusesKept, kept_kind};
ghost use Rattle.partial_answers.specs.Kept.{tally_in, tallies_in};
ghost use Rattle.std.specs.List.Sorted.{IsStrictlySortedBy};
ghost use Rattle.std.specs.Ordering.{int_cmp};
ghost use Rattle.partial_answers.specs.PartialAnswer.{plus, pluses, set_of};
ghost use Rattle.table_model.specs.Values.{lesser as the_lesser, greater as the_greater};

use crate::fault::PartialAnswerFault;
use crate::values::Values;
use std::alloc::{AllocError, Global};

/// How many values there are, and their sum.
#[derive(Clone, Copy, Debug)]
pub struct Sums {
    pub count: u64,
    pub sum: i128,
}

/// What a set function keeps of some values.
#[derive(Drop)]
pub enum Kept {
    /// How many there are.
    Count(u64),
    /// How many there are, and their sum.
    Sum(Sums),
    /// The least, `None` of no values.
    Least(Option<i64>),
    /// The greatest, `None` of no values.
    Greatest(Option<i64>),
    /// The values, each once, under DISTINCT.
    Distinct(Values),
}

impl Kept {
    /// Which of the five is kept, as a number from 0 on.
    pub fn kind(&self) -> u8
        ensures { result ≡ kept_kind self.now }
    {
        match self {
            Kept::Count(_) => 0,
            Kept::Sum(_) => 1,
            Kept::Least(_) => 2,
            Kept::Greatest(_) => 3,
            Kept::Distinct(_) => 4,
        }
    }

    /// How many values there are, 0 if that is not kept.
    pub fn count(&self) -> u64
        ensures { result ≡ (tally_in self.now).count }
    {
        match self {
            Kept::Count(count) => *count,
            Kept::Sum(sums) => sums.count,
            Kept::Least(_) | Kept::Greatest(_) | Kept::Distinct(_) => 0,
        }
    }

    /// The sum of the values, 0 if that is not kept.
    pub fn sum(&self) -> i128
        ensures { result ≡ (tally_in self.now).sum }
    {
        match self {
            Kept::Sum(sums) => sums.sum,
            Kept::Count(_) | Kept::Least(_) | Kept::Greatest(_) | Kept::Distinct(_) => 0,
        }
    }

    /// The least value, `None` if that is not kept.
    pub fn least(&self) -> Option<i64>
        ensures { result ≡ (tally_in self.now).lowest }
    {
        match self {
            Kept::Least(value) => *value,
            Kept::Count(_) | Kept::Sum(_) | Kept::Greatest(_) | Kept::Distinct(_) => None,
        }
    }

    /// The greatest value, `None` if that is not kept.
    pub fn greatest(&self) -> Option<i64>
        ensures { result ≡ (tally_in self.now).highest }
    {
        match self {
            Kept::Greatest(value) => *value,
            Kept::Count(_) | Kept::Sum(_) | Kept::Least(_) | Kept::Distinct(_) => None,
        }
    }

    /// The values, each once and in ascending order; none if they are not kept.
    pub fn values(&self) -> &[i64]
        ensures value { set_of result.now ≡ (tally_in self.now).seen }
        ensures rising { IsStrictlySortedBy int_cmp result.now }
    {
        match self {
            Kept::Distinct(values) => values.as_slice(),
            Kept::Count(_) => &[],
            Kept::Sum(_) => &[],
            Kept::Least(_) => &[],
            Kept::Greatest(_) => &[],
        }
    }
}

/// The sum of two counts.
fn counts(a: u64, b: u64) -> Result<u64, PartialAnswerFault>
    ensures sum { IfOk result (λ n. n ≡ a + b) }
    ensures refused { IfErr result (λ e. (e ≡ PartialAnswerFault.TooMany) × (a + b < 2 ^ 64 → ⊥)) }
{
    match a.checked_add(b) {
        None => Err(PartialAnswerFault::TooMany),
        Some(n) => Ok(n),
    }
}

/// The sum of two sums.
fn total(a: i128, b: i128) -> Result<i128, PartialAnswerFault>
    ensures sum { IfOk result (λ z. z ≡ a +ℤ b) }
    ensures refused { IfErr result (λ e. (e ≡ PartialAnswerFault.TooMany) × (FitsSigned w128 (a +ℤ b) → ⊥)) }
{
    match a.checked_add(b) {
        None => Err(PartialAnswerFault::TooMany),
        Some(z) => Ok(z),
    }
}

/// The lesser of two values. `None` is no value.
fn lesser(a: Option<i64>, b: Option<i64>) -> Option<i64>
    ensures { result ≡ the_lesser a b }
{
    match (a, b) {
        (None, b) => b,
        (Some(x), None) => Some(x),
        (Some(x), Some(y)) => Some(x.min(y)),
    }
}

/// The greater of two values. `None` is no value.
fn greater(a: Option<i64>, b: Option<i64>) -> Option<i64>
    ensures { result ≡ the_greater a b }
{
    match (a, b) {
        (None, b) => b,
        (Some(x), None) => Some(x),
        (Some(x), Some(y)) => Some(x.max(y)),
    }
}

/// What a set function keeps of two lists of values, from what it keeps of each.
fn kept_of_both(alloc: Global, one: &Kept, other: &Kept) -> Result<Kept, PartialAnswerFault>
    ensures both { IfOk result (λ both. tally_in both ≡ plus (tally_in one.now) (tally_in other.now)) }
    ensures kind { IfOk result (λ both. kept_kind both ≡ kept_kind one.now) }
    ensures refused { IfErr result (λ e. RefusesKept e one.now other.now) }
{
    if one.kind() != other.kind() {
        return Err(PartialAnswerFault::QueryDiffers);
    }
    match one {
        Kept::Count(count) => {
            let both = counts(*count, other.count())?;
            Ok(Kept::Count(both))
        }
        Kept::Sum(mine) => {
            let count = counts(mine.count, other.count())?;
            let sum = total(mine.sum, other.sum())?;
            Ok(Kept::Sum(Sums { count, sum }))
        }
        Kept::Least(value) => Ok(Kept::Least(lesser(*value, other.least()))),
        Kept::Greatest(value) => Ok(Kept::Greatest(greater(*value, other.greatest()))),
        Kept::Distinct(values) => {
            let both = values.joined(alloc, other.values())?;
            Ok(Kept::Distinct(both))
        }
    }
}

/// Adds what one set function more keeps.
fn push_kept(all: &mut Vec<Kept>, kept: Kept) -> Result<(), AllocError>
    ensures { OnOk result (all.new.items ≡ all.old.items ++ kept ∷ []) }
{
    all.push(kept)?;
    Ok(())
}

/// What a group's set functions keep of two lists of rows, from what they keep of each.
pub(crate) fn group_of_both(
    alloc: Global,
    one: &[Kept],
    other: &[Kept],
) -> Result<Vec<Kept>, PartialAnswerFault>
    ensures both { IfOk result (λ both. tallies_in both.items ≡ pluses (tallies_in one.now) (tallies_in other.now)) }
    ensures kinds { IfOk result (λ both. map kept_kind both.items ≡ map kept_kind one.now) }
    ensures refused { IfErr result (λ e. RefusesGroup e one.now other.now) }
{
    if one.len() != other.len() {
        return Err(PartialAnswerFault::QueryDiffers);
    }
    let mut both = Vec::new(alloc);
    for i in 0..one.len() {
        let kept = kept_of_both(alloc, &one[i], &other[i])?;
        push_kept(&mut both, kept)?;
    }
    Ok(both)
}
