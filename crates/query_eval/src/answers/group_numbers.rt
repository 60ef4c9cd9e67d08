//! Numbers of up to 1024 finished groups, in columns: one for each cell of their keys, and one for each set function.
ghost use Rattle.std.specs.Prelude.{◌≡◌, ℕ, IfOk, IfSome, None, List, slice_index_or};
ghost use Rattle.query_eval.specs.Finished.{GroupFields};
ghost use Rattle.query_eval.specs.GroupNumbers.{AreNumbers, HaveNumbers};
ghost use Rattle.query_eval.specs.declared.answers.field_places.FieldPlace.{FieldPlace as APlace};
ghost use Rattle.query_eval.specs.declared.answers.field_places.FieldPlace.TheVariants as places;

use crate::answers::field_places::FieldPlace;
use crate::filter::value_of;
use crate::tallies::{FinishedGroup, Plan};
use std::alloc::{AllocError, Global};
use table_model::Field;
use transpose_order::Mask;

/// A number for each of 1024 groups, and which of them are null. Past the last group each is null.
#[derive(Drop)]
pub struct Numbers {
    pub nulls: Mask,
    pub values: [i64; 1024],
}

impl Numbers {
    /// The number that is the same in each group, or `None` if it doesn't fit 64 bits.
    fn fixed(number: i128) -> Option<Numbers>
        ensures { (groups : List GroupFields) → IfSome result (AreNumbers groups (places.Fixed number)) }
    {
        let value = value_of(number)?;
        Some(Numbers {
            nulls: Mask::none(),
            values: [value; 1024],
        })
    }

    /// These numbers once more.
    fn copy(&self) -> Numbers
        ensures nulls { result.nulls ≡ self.now.nulls }
        ensures values { result.values ≡ self.now.values }
    {
        Numbers {
            nulls: self.nulls,
            values: self.values,
        }
    }

    /// The numbers at a place of the first 1024 of some groups, or `None` if one is a mean or doesn't fit 64 bits.
    fn at(groups: &[FinishedGroup], place: FieldPlace) -> Option<Numbers>
        ensures { IfSome result (AreNumbers groups.now place) }
    {
        let mut nulls = Mask::none();
        let mut values = [0; 1024];
        for row in 0..1024 {
            match place.at(groups, row) {
                Field::Null => nulls.set_range(row, row + 1, true),
                Field::Whole(number) => {
                    let value = value_of(number)?;
                    values[row] = value;
                }
                Field::Millionths(_) => return None,
            }
        }
        Some(Numbers { nulls, values })
    }
}

/// The columns of up to 1024 groups that have numbers of 64 bits alone.
#[derive(Drop)]
pub struct GroupNumbers {
    cells: Vec<Option<Numbers>>,
    fields: Vec<Option<Numbers>>,
}

/// The numbers in the cells of the keys.
fn cell_numbers(
    alloc: Global,
    groups: &[FinishedGroup],
    count: usize,
) -> Result<Vec<Option<Numbers>>, AllocError>
    ensures { IfOk result (λ columns. (p : ℕ) → IfSome (slice_index_or columns.items p None) (AreNumbers groups.now (places.Cell p))) }
{
    let mut columns = Vec::new(alloc);
    for place in 0..count {
        columns.push(Numbers::at(groups, FieldPlace::Cell(place)))?;
    }
    Ok(columns)
}

/// The numbers in the fields of the set functions.
fn field_numbers(
    alloc: Global,
    groups: &[FinishedGroup],
    count: usize,
) -> Result<Vec<Option<Numbers>>, AllocError>
    ensures { IfOk result (λ columns. (p : ℕ) → IfSome (slice_index_or columns.items p None) (AreNumbers groups.now (places.Computed p))) }
{
    let mut columns = Vec::new(alloc);
    for place in 0..count {
        columns.push(Numbers::at(groups, FieldPlace::Computed(place)))?;
    }
    Ok(columns)
}

/// The numbers of one of some columns, or `None` if it has none.
fn column_at(columns: &[Option<Numbers>], place: usize) -> Option<Numbers>
    ensures { (groups : List GroupFields) (at : ℕ → APlace) → ((p : ℕ) → IfSome (slice_index_or columns.now p None) (AreNumbers groups (at p))) → IfSome result (AreNumbers groups (at place)) }
{
    match columns.get(place) {
        Some(Some(numbers)) => Some(numbers.copy()),
        Some(None) | None => None,
    }
}

impl GroupNumbers {
    /// The columns of the first 1024 of some groups.
    pub fn of(
        alloc: Global,
        plan: &Plan,
        groups: &[FinishedGroup],
    ) -> Result<GroupNumbers, AllocError>
        ensures { IfOk result (HaveNumbers groups.now) }
    {
        let cells = cell_numbers(alloc, groups, plan.grouping().len())?;
        let fields = field_numbers(alloc, groups, plan.aggregates().len())?;
        Ok(GroupNumbers { cells, fields })
    }

    /// The numbers at a place, or `None` if one of them is a mean or doesn't fit 64 bits.
    pub fn at(&self, place: FieldPlace) -> Option<Numbers>
        ensures { (groups : List GroupFields) → HaveNumbers groups self.now → IfSome result (AreNumbers groups place) }
    {
        match place {
            FieldPlace::Cell(place) => column_at(self.cells.as_slice(), place),
            FieldPlace::Computed(place) => column_at(self.fields.as_slice(), place),
            FieldPlace::Fixed(number) => Numbers::fixed(number),
        }
    }
}
