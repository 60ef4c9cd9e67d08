//! A vector's kept rows, split by their groups.
ghost use Rattle.std.specs.Prelude.{◌≡◌, ℕ, OnOk};
ghost use Rattle.query_eval.specs.Keys.{AreFewCodes, IsSplitting, code_key, column_key, key_read, run_key};
ghost use Rattle.query_eval.specs.Places.{IsIndex};
ghost use Rattle.query_eval.specs.Slices.{AreByCode};
ghost use Rattle.query_eval.specs.declared.grouping.vector_keys.VectorKeys.TheVariants.{Codes};

use crate::grouping::code_slices::slice_codes;
use crate::grouping::coded_runs::span_runs;
use crate::grouping::key_columns::KeyColumn;
use crate::grouping::places::Places;
use crate::grouping::row_places::place_each;
use crate::grouping::slices::slice_rows;
use crate::grouping::vector_keys::VectorKeys;
use std::alloc::{AllocError, Global};
use transpose_order::Mask;

/// Kept rows of a vector that are next to each other and have one key: those from row `first` up to `end`, which is not included;
/// and the place of their group.
#[derive(Clone, Copy, Debug)]
pub struct Span {
    pub place: usize,
    pub first: usize,
    pub end: usize,
}

/// Rows of a vector with one key, and the place of its group. If the rows are split by codes, each has this code.
#[derive(Clone, Copy, Debug)]
pub struct Slice {
    pub place: usize,
    pub rows: Mask,
    pub code: u16,
}

/// The kept rows of a vector: spans and slices of those with one key, the rows in none of them, and the places of these rows'
/// groups. If the slices are by codes, the code of each row too.
///
/// The room serves one vector after another, so no vector takes memory once the spans and slices have theirs.
#[derive(Drop)]
pub struct Split {
    pub kept: Mask,
    pub spans: Vec<Span>,
    pub slices: Vec<Slice>,
    pub coded: bool,
    pub codes: [u16; 1024],
    pub left: Mask,
    pub places: [usize; 1024],
}

impl Split {
    /// No rows. It takes no memory yet.
    pub fn none(alloc: Global) -> Split {
        Split {
            kept: Mask::none(),
            spans: Vec::new(alloc),
            slices: Vec::new(alloc),
            coded: false,
            codes: [0; 1024],
            left: Mask::none(),
            places: [0; 1024],
        }
    }

    /// Splits the kept rows by the runs of one column, given by the rows at which they start, and their values.
    fn by_runs(
        &mut self,
        alloc: Global,
        places: &mut Places,
        starts: &Mask,
        values: &[i64; 1024],
    ) -> Result<(), AllocError>
        ensures index { OnOk result (IsIndex places.old → IsIndex places.new) }
        ensures codes { OnOk result (AreByCode self.new) }
        ensures placed { OnOk result (IsSplitting (run_key starts.now values.now) self.old.kept places.old places.new self.new) }
    {
        self.slices.clear();
        span_runs(alloc, places, starts, values, &self.kept, &mut self.spans)?;
        self.coded = false;
        self.left = Mask::none();
        Ok(())
    }

    /// Splits the kept rows by their codes, of which the first `count` represent values.
    fn by_codes(
        &mut self,
        alloc: Global,
        places: &mut Places,
        count: usize,
        values: &[i64; 1024],
    ) -> Result<(), AllocError>
        requires { AreFewCodes count self.old.codes values.now }
        ensures index { OnOk result (IsIndex places.old → IsIndex places.new) }
        ensures codes { OnOk result (AreByCode self.new) }
        ensures placed { OnOk result (IsSplitting (code_key count values.now self.old.codes) self.old.kept places.old places.new self.new) }
    {
        self.spans.clear();
        let left = slice_codes(
            alloc,
            places,
            &self.codes,
            values,
            count,
            &self.kept,
            &mut self.slices,
        )?;
        self.coded = true;
        self.left = left;
        Ok(())
    }

    /// Splits the kept rows by decoded columns: in spans or slices, and row by row if these aren't worth it.
    fn by_columns(
        &mut self,
        alloc: Global,
        places: &mut Places,
        columns: &[KeyColumn],
    ) -> Result<(), AllocError>
        ensures index { OnOk result (IsIndex places.old → IsIndex places.new) }
        ensures codes { OnOk result (AreByCode self.new) }
        ensures placed { OnOk result (IsSplitting (column_key columns.now) self.old.kept places.old places.new self.new) }
    {
        let left = slice_rows(
            alloc,
            places,
            columns,
            &self.kept,
            &mut self.spans,
            &mut self.slices,
        )?;
        place_each(alloc, places, columns, &left, &mut self.places)?;
        self.coded = false;
        self.left = left;
        Ok(())
    }

    /// Splits the kept rows by their keys. `values` are those of runs or codes. A new key gets a new place.
    pub fn by_keys(
        &mut self,
        alloc: Global,
        places: &mut Places,
        keys: &VectorKeys,
        columns: &[KeyColumn],
        values: &[i64; 1024],
    ) -> Result<(), AllocError>
        requires { (count : ℕ) → keys.now ≡ Codes count → AreFewCodes count self.old.codes values.now }
        ensures index { OnOk result (IsIndex places.old → IsIndex places.new) }
        ensures codes { OnOk result (AreByCode self.new) }
        ensures placed { OnOk result (IsSplitting (key_read keys.now columns.now values.now self.old.codes) self.old.kept places.old places.new self.new) }
    {
        match keys {
            VectorKeys::Runs(starts) => self.by_runs(alloc, places, starts, values),
            VectorKeys::Codes(count) => self.by_codes(alloc, places, *count, values),
            VectorKeys::Columns => self.by_columns(alloc, places, columns),
        }
    }
}
