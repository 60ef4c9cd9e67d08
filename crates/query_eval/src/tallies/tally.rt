//! Set functions of a group, value by value.
ghost use Rattle.std.specs.Prelude.{◌≡◌, ◌≤◌, ◌++◌, ◌∷◌, [], ◌+ℤ◌, ◌≤ℤ◌, ℤ, List, map, length, pos, IfOk, OnOk, FitsSigned, cond, false, true};
ghost use Rattle.std.specs.List.{list_any};
ghost use Rattle.std.specs.Ordering.{int_eq};
ghost use Rattle.std.specs.Int.{w128};
ghost use Rattle.table_model.specs.Group.{state_row_limit};
ghost use Rattle.table_model.specs.Meaning.{fold_value};
ghost use Rattle.table_model.specs.Values.{distinct, total};
ghost use Rattle.table_model.proofs.Bounds.{AreSmall};
ghost use Rattle.table_model.specs.Extreme.{extreme_of, further, turned};
ghost use Rattle.query_eval.specs.Forms.{top_of};
ghost use Rattle.query_eval.specs.Slices.{AreShort, values_at};
ghost use Rattle.query_eval.specs.Tally.{AreAlike, AreTold, IsFieldOf, IsTally, TakesMore, kind_of};
ghost use Rattle.table_model.specs.declared.extreme.Extreme.{Extreme as AnExtreme};
ghost use Rattle.query_eval.specs.declared.tallies.tally.TallyKind.TheVariants as kinds;
ghost use Rattle.query_eval.specs.TallyKinds.{fold_kind};

use crate::hash_key::HashKey;
use crate::tallies::distinct::add_values;
use crate::tallies::field_values::{sum_field, values_field, whole_field};
use crate::tallies::masked_folds::{count_at, extreme_at, sum_at};
use crate::tallies::seen::Seen;
use crate::tallies::two_words::TwoWords;
use std::alloc::{AllocError, Global};
use table_model::{Extreme, Field, Fold, MAX_STATE_ROWS, MILLION};
use transpose_order::Mask;

/// What a set function keeps of a group's values.
#[derive(Clone, Copy, Debug)]
pub enum TallyKind {
    Count,
    Sum,
    Extreme(Extreme),
    Distinct,
}

/// How many values there are, and their sum.
#[derive(Drop)]
pub struct Sums {
    count: u64,
    sum: TwoWords,
}

/// A set function under way: what it needs of the values so far.
///
/// It is exact for up to 2^36 values of a column. No sum wraps, whatever the values are.
#[derive(Drop)]
pub enum Tally {
    /// How many values there are.
    Count(u64),
    /// How many values there are and their sum, for SUM and AVG.
    Sum(Sums),
    /// The least or the greatest value, `None` of no values.
    Extreme(Extreme, Option<i64>),
    /// The values, each once, under DISTINCT: on the heap, so that the other tallies stay small.
    Distinct(Box<Seen>),
}

/// The value if there is one, otherwise 0.
fn value_or_zero(value: i64, comes: bool) -> i64
    ensures { result ≡ cond comes value (pos 0) }
{
    if comes { value } else { 0 }
}

impl Sums {
    /// How many values there are.
    pub fn count(&self) -> u64
        ensures { result ≡ self.now.count }
    {
        self.count
    }

    /// The sum of the values.
    pub fn sum(&self) -> i128
        ensures { result ≡ self.now.sum }
    {
        self.sum.number()
    }

    /// Takes in one value more.
    fn add(&mut self, value: i64)
        ensures { (values : List ℤ) → AreTold values self.old → AreTold (values ++ value ∷ []) self.new }
    {
        self.count = self.count.saturating_add(1);
        self.sum.add(i128::from(value));
    }

    /// Takes in one more value if there is one. There is no branch on that, since it can't be predicted at columns with nulls.
    fn add_where(&mut self, value: i64, comes: bool)
        ensures { (values : List ℤ) → AreTold values self.old → AreTold (values ++ cond comes (value ∷ []) []) self.new }
    {
        let more = value_or_zero(value, comes);
        self.count = self.count.saturating_add(u64::from(comes));
        self.sum.add(i128::from(more));
    }

    /// Takes in this many more values, with this sum.
    fn add_many(&mut self, count: usize, sum: i128)
        ensures { (values more : List ℤ) → count ≡ length more → sum ≡ total more → AreTold values self.old → AreTold (values ++ more) self.new }
    {
        self.count = self.count.saturating_add(count as u64);
        self.sum.add(sum);
    }

    /// Adds `values[n]` for each row n of the mask. `short` promises that all 1,024 values are within ±2^52, so that their sum can't
    /// wrap.
    fn add_rows(&mut self, values: &[i64; 1024], short: bool, rows: &Mask)
        requires { short ≡ true → AreShort values.now }
        ensures { (before : List ℤ) → AreTold before self.old → AreTold (before ++ values_at rows.now values.now) self.new }
    {
        self.add_many(count_at(rows), sum_at(values, short, rows));
    }

    /// AVG of the values if the fold is that, otherwise SUM.
    fn field(&self, fold: Fold) -> Field
        ensures { (values : List ℤ) → length values ≤ state_row_limit → AreSmall values → AreTold values self.now → kinds.Sum ≡ fold_kind false fold → result ≡ fold_value fold values }
    {
        match fold {
            Fold::Avg => self.mean(),
            Fold::Count | Fold::Sum | Fold::Min | Fold::Max => {
                sum_field(u128::from(self.count), self.sum())
            }
        }
    }

    /// The mean in millionths, truncated toward zero; null of no values.
    fn mean(&self) -> Field
        ensures { (values : List ℤ) → length values ≤ state_row_limit → AreSmall values → AreTold values self.now → result ≡ fold_value Fold.Avg values }
    {
        if self.count == 0 {
            return Field::Null;
        }
        match self.sum().checked_mul(MILLION) {
            None => Field::Null,
            Some(millionths) => Field::Millionths(millionths / i128::from(self.count)),
        }
    }
}

/// A set function of a set's values, which are at most 2^32.
fn set_field(alloc: Global, fold: Fold, seen: &Seen) -> Result<Field, AllocError>
    ensures { IfOk result (λ field. (values : List ℤ) → length values ≤ state_row_limit → AreAlike seen.now.values values → field ≡ fold_value fold (distinct values)) }
{
    let values = seen.values(alloc)?;
    if values.len() > MAX_STATE_ROWS {
        return Ok(Field::Null);
    }
    Ok(values_field(fold, values.as_slice()))
}

/// Whether no values go past an extreme whose representations are at most a bound.
fn is_reached(extreme: Extreme, value: Option<i64>, bound: i64) -> bool
    ensures { (more : List ℤ) → result ≡ true → top_of (map (turned extreme) more) ≤ℤ bound → further extreme value (extreme_of extreme more) ≡ value }
{
    match value {
        None => false,
        Some(number) => bound <= extreme.turned(number),
    }
}

impl Tally {
    /// The set function of no values. Only DISTINCT takes memory, for its values, which hashes of this key will find.
    pub fn new(alloc: Global, hash_key: HashKey, kind: TallyKind) -> Result<Tally, AllocError>
        ensures values { IfOk result (λ tally. IsTally [] tally) }
        ensures kind { IfOk result (λ tally. kind_of tally ≡ kind) }
    {
        match kind {
            TallyKind::Count => Ok(Tally::Count(0)),
            TallyKind::Sum => Ok(Tally::Sum(Sums {
                count: 0,
                sum: TwoWords::of(0),
            })),
            TallyKind::Extreme(extreme) => Ok(Tally::Extreme(extreme, None)),
            TallyKind::Distinct => {
                let seen = Box::new(alloc, Seen::new(alloc, hash_key))?;
                Ok(Tally::Distinct(seen))
            }
        }
    }

    /// Counts one more value if there is one. A tally of another kind stays as it is.
    pub fn count_where(&mut self, comes: bool)
        ensures values { (values : List ℤ) (z : ℤ) → kind_of self.old ≡ kinds.Count → IsTally values self.old → IsTally (values ++ cond comes (z ∷ []) []) self.new }
        ensures kind { kind_of self.new ≡ kind_of self.old }
    {
        if let Tally::Count(count) = self {
            *count = count.saturating_add(u64::from(comes));
        }
    }

    /// Counts this many more values. A tally of another kind stays as it is.
    pub fn count_more(&mut self, more: usize)
        ensures values { (values added : List ℤ) → kind_of self.old ≡ kinds.Count → more ≡ length added → IsTally values self.old → IsTally (values ++ added) self.new }
        ensures kind { kind_of self.new ≡ kind_of self.old }
    {
        if let Tally::Count(count) = self {
            *count = count.saturating_add(more as u64);
        }
    }

    /// What it keeps.
    pub fn kind(&self) -> TallyKind
        ensures { result ≡ kind_of self.now }
    {
        match self {
            Tally::Count(_) => TallyKind::Count,
            Tally::Sum(_) => TallyKind::Sum,
            Tally::Extreme(extreme, _) => TallyKind::Extreme(*extreme),
            Tally::Distinct(_) => TallyKind::Distinct,
        }
    }

    /// Takes this many more values, with this sum, into a sum. A tally of another kind stays as it is.
    pub fn sum_more(&mut self, count: usize, sum: i128)
        ensures values { (values more : List ℤ) → kind_of self.old ≡ kinds.Sum → count ≡ length more → sum ≡ total more → TakesMore values more self.old self.new }
        ensures kind { kind_of self.new ≡ kind_of self.old }
    {
        if let Tally::Sum(sums) = self {
            sums.add_many(count, sum);
        }
    }

    /// Takes more values, with this extreme, into the least or the greatest value. A tally of another kind stays as it is.
    pub fn extreme_more(&mut self, value: Option<i64>)
        ensures values { (extreme : AnExtreme) (values more : List ℤ) → kind_of self.old ≡ kinds.Extreme extreme → value ≡ extreme_of extreme more → TakesMore values more self.old self.new }
        ensures kind { kind_of self.new ≡ kind_of self.old }
    {
        if let Tally::Extreme(extreme, before) = self {
            *before = extreme.further(*before, value);
        }
    }

    /// Whether the tally keeps an extreme that no values go past whose representations are at most this bound.
    pub(crate) fn reaches(&self, bound: i64) -> bool
        ensures { (extreme : AnExtreme) (values more : List ℤ) → result ≡ true → kind_of self.now ≡ kinds.Extreme extreme → top_of (map (turned extreme) more) ≤ℤ bound → TakesMore values more self.now self.now }
    {
        match self {
            Tally::Extreme(extreme, value) => is_reached(*extreme, *value, bound),
            Tally::Count(_) | Tally::Sum(_) | Tally::Distinct(_) => false,
        }
    }

    /// Takes one more value into a sum if there is one. A tally of another kind stays as it is.
    pub fn sum_where(&mut self, value: i64, comes: bool)
        ensures values { (values : List ℤ) → kind_of self.old ≡ kinds.Sum → IsTally values self.old → IsTally (values ++ cond comes (value ∷ []) []) self.new }
        ensures kind { kind_of self.new ≡ kind_of self.old }
    {
        if let Tally::Sum(sums) = self {
            sums.add_where(value, comes);
        }
    }

    /// Takes in one value more.
    pub fn add(&mut self, value: i64) -> Result<(), AllocError>
        ensures values { OnOk result ((values : List ℤ) → IsTally values self.old → IsTally (values ++ value ∷ []) self.new) }
        ensures kind { kind_of self.new ≡ kind_of self.old }
    {
        match self {
            Tally::Count(count) => *count = count.saturating_add(1),
            Tally::Sum(sums) => sums.add(value),
            Tally::Extreme(extreme, before) => *before = extreme.further(*before, Some(value)),
            Tally::Distinct(seen) => seen.insert(value)?,
        }
        Ok(())
    }

    /// Adds `values[n]` for each row n of the mask. `short` promises that all 1,024 values are within ±2^52, so that their sum can't
    /// wrap.
    pub fn add_rows(
        &mut self,
        values: &[i64; 1024],
        short: bool,
        rows: &Mask,
    ) -> Result<(), AllocError>
        requires { short ≡ true → AreShort values.now }
        ensures values { OnOk result ((before : List ℤ) → IsTally before self.old → IsTally (before ++ values_at rows.now values.now) self.new) }
        ensures kind { kind_of self.new ≡ kind_of self.old }
    {
        match self {
            Tally::Count(count) => *count = count.saturating_add(count_at(rows) as u64),
            Tally::Sum(sums) => sums.add_rows(values, short, rows),
            Tally::Extreme(extreme, before) => {
                *before = extreme.further(*before, extreme_at(*extreme, values, rows));
            }
            Tally::Distinct(seen) => add_values(seen, rows, values)?,
        }
        Ok(())
    }

    /// The set function's value. DISTINCT takes memory for the values.
    pub fn field(&self, alloc: Global, fold: Fold) -> Result<Field, AllocError>
        ensures { IfOk result (IsFieldOf fold self.now) }
    {
        match self {
            Tally::Count(count) => Ok(Field::Whole(i128::from(*count))),
            Tally::Sum(sums) => Ok(sums.field(fold)),
            Tally::Extreme(_, value) => Ok(whole_field(*value)),
            Tally::Distinct(seen) => set_field(alloc, fold, seen),
        }
    }
}
