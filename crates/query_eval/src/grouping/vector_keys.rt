//! The keys of a vector's rows, as the grouping columns give them.
ghost use Rattle.std.specs.Prelude.{◌≡◌, ◌<◌, ◌≤◌, ◌+◌, ◌∷◌, [], ℕ, None, Some, List, length, IfOk, IfSome, OnOk};
ghost use Rattle.query_eval.specs.Keys.{AreFewCodes, AreKeys, key_read, run_key};
ghost use Rattle.query_eval.specs.Read.{IsRead, IsSame};
ghost use Rattle.query_eval.specs.Vector.{IsThere, vector_of};
ghost use Rattle.query_eval.specs.declared.grouping.key_columns.KeyColumn.{KeyColumn as AKeyColumn};
ghost use Rattle.query_eval.specs.declared.grouping.vector_keys.VectorKeys.TheVariants.{Codes};

use crate::columns::{Columns, VectorId};
use crate::grouping::code_slices::MOST_CODES;
use crate::grouping::key_columns::{KeyColumn, read_columns};
use std::alloc::AllocError;
use transpose_order::Mask;

/// How the keys of a vector's rows are known: by the runs of one grouping column, given by the rows at which they start, and their
/// values; by codes of the rows and how many of them represent values; or by the decoded columns.
#[derive(Clone, Copy, Debug)]
pub enum VectorKeys {
    Runs(Mask),
    Codes(usize),
    Columns,
}

/// The runs of a column in a vector, in one pass, with their values. None if it isn't coded by runs or is null at a kept row: no
/// pass is counted then.
fn read_runs<C: Columns>(
    columns: &mut C,
    id: VectorId,
    column: usize,
    kept: &Mask,
    values: &mut [i64; 1024],
) -> Option<Mask>
    requires there { IsThere (C.seen columns.old).state id.batch id.vector }
    requires column { column < length (C.seen columns.old).table.columns }
    ensures runs { IfSome result (λ starts. AreKeys (column ∷ []) (vector_of (C.seen columns.old).state id) kept.now (run_key starts values.new)) }
    ensures read { IfSome result (λ _. IsRead (C.seen columns.old) (C.seen columns.new) 1) }
    ensures none { result ≡ None → C.seen columns.new ≡ C.seen columns.old }
{
    if columns.nulls(id, column).and(kept).next_true(0) < 1024 {
        return None;
    }
    columns.runs_into(id, column, values)
}

/// The keys of a vector's kept rows by one grouping column, as it is coded there, in one pass. None if it has neither runs nor few
/// codes, or is past the last column: no pass is counted then.
fn read_coded<C: Columns>(
    columns: &mut C,
    id: VectorId,
    column: usize,
    kept: &Mask,
    values: &mut [i64; 1024],
    codes: &mut [u16; 1024],
) -> Option<VectorKeys>
    requires { IsThere (C.seen columns.old).state id.batch id.vector }
    ensures keys { IfSome result (λ keys. (decoded : List AKeyColumn) → AreKeys (column ∷ []) (vector_of (C.seen columns.old).state id) kept.now (key_read keys decoded values.new codes.new)) }
    ensures few { (count : ℕ) → result ≡ Some (Codes count) → AreFewCodes count codes.new values.new }
    ensures read { IfSome result (λ _. IsRead (C.seen columns.old) (C.seen columns.new) 1) }
    ensures none { result ≡ None → C.seen columns.new ≡ C.seen columns.old }
{
    if columns.schema().column_list().len() <= column {
        return None;
    }
    if let Some(starts) = read_runs(columns, id, column, kept, values) {
        return Some(VectorKeys::Runs(starts));
    }
    match columns.codes_into(id, column, MOST_CODES, codes, values) {
        Some(count) => Some(VectorKeys::Codes(count)),
        None => None,
    }
}

/// Reads the keys of a vector's kept rows, each grouping column in at most one pass. If one column groups, its runs or few codes are
/// keys as they are; otherwise the columns are decoded.
pub fn read_keys<C: Columns>(
    columns: &mut C,
    id: VectorId,
    grouping: &[usize],
    kept: &Mask,
    decoded: &mut Vec<KeyColumn>,
    values: &mut [i64; 1024],
    codes: &mut [u16; 1024],
) -> Result<VectorKeys, AllocError>
    requires { IsThere (C.seen columns.old).state id.batch id.vector }
    ensures keys { IfOk result (λ keys. AreKeys grouping.now (vector_of (C.seen columns.old).state id) kept.now (key_read keys decoded.new.items values.new codes.new)) }
    ensures few { IfOk result (λ keys. (count : ℕ) → keys ≡ Codes count → AreFewCodes count codes.new values.new) }
    ensures same { IsSame (C.seen columns.old) (C.seen columns.new) }
    ensures passes { OnOk result ((C.seen columns.new).passes ≤ (C.seen columns.old).passes + length grouping.now) }
{
    if grouping.len() == 1 {
        if let Some(keys) = read_coded(columns, id, grouping[0], kept, values, codes) {
            return Ok(keys);
        }
    }
    read_columns(columns, id, grouping, decoded)?;
    Ok(VectorKeys::Columns)
}
