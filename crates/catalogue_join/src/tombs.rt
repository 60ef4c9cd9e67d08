//! Deleted rows: a set of row names, kept as its maximal ranges.
ghost use Rattle.std.specs.Prelude.{◌≡◌, ◌≤◌, ◌<◌, ◌+◌, ◌&&◌, not, nat_le, nat_lt, OnOk, OnErr, IfOk, IsOk, IsTrue, List};
ghost use Rattle.std.specs.FinSet as set;
ghost use Rattle.std.specs.List.{All, list_all};
ghost use Rattle.table_model.specs.declared.names.RowName.{RowName};
ghost use Rattle.table_model.specs.Table.{row_limit};
ghost use Rattle.table_model.specs.Name.{is_proper_name};
ghost use Rattle.transpose_order.specs.Mask.{rows_of, has};
ghost use Rattle.catalogue_join.specs.LiveMask.{is_live};
ghost use Rattle.catalogue_join.specs.RowRange.{rows_in, rows_between, row_names, AreMaximal, RowRange};

use crate::ranges::Ranges;
use std::alloc::{AllocError, Global};
use std::marker::Model;
use table_model::{BatchName, RowName};
use transpose_order::{Mask, VECTOR_ROWS};

/// The names of deleted rows, held or not: a set of row names.
#[derive(Drop)]
pub struct Tombs {
    ranges: Ranges<(RowName, u16)>,
}

impl Model for Tombs {
    ghost use Rattle.std.specs.FinSet as set;
    ghost use Rattle.table_model.specs.Name.{row_name_cmp, coded_row_name};
    ghost use Rattle.catalogue_join.specs.Span.{Rises};
    ghost use Rattle.catalogue_join.specs.RowRange.{rows_in, row_range_shape};

    ghost Value = { set.FinSet row_name_cmp };

    ghost coded = { set.code coded_row_name };

    ghost view = { λ t. rows_in t.ranges };

    ghost invariant = { λ t. Rises row_range_shape 0 t.ranges };
}

impl Tombs {
    /// The set without rows. It takes no memory, and keeps the allocator for its own methods.
    pub fn new(alloc: Global) -> Self
        ensures { result ≡ set.empty }
    {
        Tombs {
            ranges: Ranges::new(alloc),
        }
    }

    /// Whether the row is in the set.
    pub fn holds(&self, row: RowName) -> bool
        ensures { result ≡ set.contains self.now row }
    {
        self.ranges.find((row, row.ordinal)).is_some()
    }

    /// Whether each of some rows is in the set. It takes no memory.
    pub fn holds_all(&self, rows: &[RowName]) -> bool
        ensures { result ≡ list_all (set.contains self.now) rows.now }
    {
        rows.iter().all(|row| self.holds(*row))
    }

    /// Whether the rows of a batch from `first` to the ordinal `last` are all in the set. It takes one search, and no memory.
    pub fn holds_rows(&self, first: RowName, last: u16) -> bool
        requires { first.ordinal ≤ last }
        ensures { result ≡ list_all (set.contains self.now) (rows_between first last) }
    {
        self.ranges.has_range((first, last))
    }

    /// Whether all rows of a batch with this many rows, from 1 to 65,536, are in the set. It takes one search, and no memory.
    pub fn holds_batch(&self, batch: BatchName, rows: usize) -> bool
        requires some { 1 ≤ rows }
        requires limit { rows ≤ row_limit }
        ensures { result ≡ list_all (set.contains self.now) (row_names batch 0 rows) }
    {
        let first = RowName { batch, ordinal: 0 };
        self.holds_rows(first, (rows - 1) as u16)
    }

    /// The set of some rows, in whatever order and however often they come.
    pub fn from_rows(alloc: Global, rows: &[RowName]) -> Result<Tombs, AllocError>
        requires { All (λ (row : RowName). IsTrue (is_proper_name row.batch)) rows.now }
        ensures { IfOk result (λ tombs. tombs ≡ set.from_list rows.now) }
    {
        if rows.is_sorted() {
            return Tombs::of_each(alloc, rows);
        }
        let mut sorted = Vec::from_slice(alloc, rows)?;
        sorted.sort_unstable();
        Tombs::of_each(alloc, &sorted)
    }

    /// The set of some rows, which are added one after another; if they ascend, each goes to the end.
    fn of_each(alloc: Global, rows: &[RowName]) -> Result<Tombs, AllocError>
        requires { All (λ (row : RowName). IsTrue (is_proper_name row.batch)) rows.now }
        ensures { IfOk result (λ tombs. tombs ≡ set.from_list rows.now) }
    {
        let mut tombs = Tombs::new(alloc);
        for index in 0..rows.len() {
            let row = rows[index];
            tombs.insert(row, row.ordinal)?;
        }
        Ok(tombs)
    }

    /// Adds the rows of a batch from `first` to the ordinal `last`. If memory is refused the set is as before. If the rows are
    /// deleted already it takes no memory.
    pub fn insert(&mut self, first: RowName, last: u16) -> Result<(), AllocError>
        requires proper { IsTrue (is_proper_name first.batch) }
        requires not_empty { first.ordinal ≤ last }
        ensures ok { OnOk result (self.new ≡ set.union self.old (set.from_list (rows_between first last))) }
        ensures idle { set.union self.old (set.from_list (rows_between first last)) ≡ self.old → IsOk result }
        ensures err { OnErr result (self.new ≡ self.old) }
    {
        self.ranges.insert((first, last))
    }

    /// A copy of the set in memory of its own. If memory is refused, an `AllocError`.
    pub fn copy(&self, alloc: Global) -> Result<Tombs, AllocError>
        ensures { IfOk result (λ copied. copied ≡ self.now) }
    {
        Ok(Tombs {
            ranges: self.ranges.copy(alloc)?,
        })
    }

    /// Whether all rows of another set are in this one. It takes no memory.
    pub fn has_all(&self, other: &Tombs) -> bool
        ensures { result ≡ set.is_subset other.now self.now }
    {
        self.ranges.has_all(&other.ranges)
    }

    /// The rows of both sets.
    pub fn joined(&self, other: &Tombs) -> Result<Tombs, AllocError>
        ensures { IfOk result (λ both. both ≡ set.union self.now other.now) }
    {
        Ok(Tombs {
            ranges: self.ranges.joined(&other.ranges)?,
        })
    }

    /// Adds the rows of another set. If memory is refused the set is as before.
    pub fn join(&mut self, other: &Tombs) -> Result<(), AllocError>
        ensures ok { OnOk result (self.new ≡ set.union self.old other.now) }
        ensures err { OnErr result (self.new ≡ self.old) }
    {
        *self = self.joined(other)?;
        Ok(())
    }

    /// The set's maximal ranges, ascending: each is its first row and the ordinal of its last.
    pub fn ranges(&self) -> &[(RowName, u16)]
        ensures rows { rows_in result.now ≡ self.now }
        ensures maximal { AreMaximal result.now }

        // No other list of maximal ranges has the same rows.
        ensures only { (ranges : List RowRange) → AreMaximal ranges → rows_in ranges ≡ self.now → ranges ≡ result.now }
    {
        self.ranges.as_slice()
    }

    /// The live rows of a vector of a batch that covers `rows` rows, at most 1024: those whose names are not in the
    /// set. Row `n` of the vector has the ordinal `1024 * vector + n`.
    pub fn live_mask(&self, batch: BatchName, vector: usize, rows: usize) -> Mask
        requires vector { vector < 64 }
        requires rows { rows ≤ 1024 }
        ensures { result ≡ rows_of (is_live self.now batch vector rows) }
    {
        let mut live = first_rows(rows);
        let start = VECTOR_ROWS * vector;
        let first = RowName {
            batch,
            ordinal: start as u16,
        };
        let last = start + (VECTOR_ROWS - 1);
        for deleted in self.ranges.overlapping((first, last as u16)) {
            clear(&mut live, *deleted, start);
        }
        live
    }
}

// The mask of a vector's first rows, at most 1024: of all rows at once, if the vector is full.
fn first_rows(rows: usize) -> Mask
    requires { rows ≤ 1024 }
    ensures { result ≡ rows_of (λ n. nat_lt n rows) }
{
    if rows == VECTOR_ROWS {
        return Mask::all();
    }
    let mut mask = Mask::none();
    mask.set_range(0, rows, true);
    mask
}

// Sets the deleted rows of a vector to false, whose first row has the ordinal `start`.
fn clear(live: &mut Mask, deleted: (RowName, u16), start: usize)
    requires begun { deleted.0.ordinal ≤ start + 1023 }
    requires reached { start ≤ deleted.1 }
    requires not_empty { deleted.0.ordinal ≤ deleted.1 }
    requires within { start < row_limit }
    ensures { live.new ≡ rows_of (λ n. has live.old n
        && not (nat_le deleted.0.ordinal (start + n) && nat_le (start + n) deleted.1)) }
{
    let from = usize::from(deleted.0.ordinal).max(start);
    let end = (usize::from(deleted.1) + 1).min(start + VECTOR_ROWS);
    live.set_range(from - start, end - start, false);
}
