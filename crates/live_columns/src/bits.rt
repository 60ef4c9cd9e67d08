//! Validity bits: bit `i % 8` of byte `i / 8` is that of cell `i`.
ghost use Rattle.std.specs.Prelude.{◌≡◌, ◌==◌, ◌<◌, ◌≤◌, ◌+◌, ◌-◌, ◌*◌, ◌^◌, ◌++◌, ◌∷◌, [], ℕ, Bool, List, cond, length, count_by, min};
ghost use Rattle.transpose_order.specs.Bytes.{bit_of_bytes};
ghost use Rattle.transpose_order.specs.Mask.{has};
ghost use Rattle.live_columns.specs.Bits.{AreMarked, front_bit};
ghost use Rattle.live_columns.specs.Chosen.{picked};

use transpose_order::{Mask, VECTOR_ROWS};

/// The byte at a place of the bytes in which the bits of a number of cells are 1, from the first byte on, and those after them 0.
fn front_byte(cells: usize, index: usize) -> u8
    requires { index < 2 ^ 60 }
    ensures { result ≡ 2 ^ (min (cells - 8 * index) 8) - 1 }
{
    let left = cells.saturating_sub(8 * index).min(8);
    ((1u16 << left) - 1) as u8
}

/// Makes the bits of the cells 1, and those past the last cell 0.
pub(crate) fn set_front(valid: &mut [u8], cells: usize)
    requires room { cells ≤ 8 * length valid.old }
    requires size { length valid.old ≤ 2 ^ 60 }
    ensures { (i : ℕ) → bit_of_bytes valid.new i ≡ front_bit cells i }
{
    for index in 0..valid.len() {
        valid[index] = front_byte(cells, index);
    }
}

/// Clears the bit of a cell.
fn clear_bit(valid: &mut [u8], cell: usize)
    requires { cell < 8 * length valid.old }
    ensures { (i : ℕ) → bit_of_bytes valid.new i ≡ cond (i == cell) 0 (bit_of_bytes valid.old i) }
{
    valid[cell / 8] &= !(1 << (cell % 8));
}

/// Clears the bit of a cell if it is null, the bits of the cells before it being known.
fn mark_cell(valid: &mut [u8], cell: usize, is_null: bool)
    requires { cell < 8 * length valid.old }
    ensures { (before : ℕ → ℕ) (cells : List Bool) → length cells ≡ cell → AreMarked before cells valid.old → AreMarked before (cells ++ is_null ∷ []) valid.new }
{
    if is_null {
        clear_bit(valid, cell);
    }
}

/// Clears the bit of each cell that is null. The cells are those at the rows of a mask, one after another from a cell on.
fn clear_each(nulls: &Mask, rows: &Mask, valid: &mut [u8], first: usize)
    requires room { first + length (picked rows.now (has nulls.now)) ≤ 8 * length valid.old }
    requires size { length valid.old ≤ 2 ^ 60 }
    ensures { (before : ℕ → ℕ) (cells : List Bool) → length cells ≡ first → AreMarked before cells valid.old → AreMarked before (cells ++ picked rows.now (has nulls.now)) valid.new }
{
    let mut cell = first;
    for row in 0..VECTOR_ROWS {
        if rows.get(row) {
            mark_cell(valid, cell, nulls.get(row));
            cell += 1;
        }
    }
}

/// Clears the bits of rows whose cell is null, and answers how many there are. If no cell is null it does nothing.
pub(crate) fn clear_nulls(nulls: &Mask, rows: &Mask, valid: &mut [u8], first: usize) -> usize
    requires room { first + length (picked rows.now (has nulls.now)) ≤ 8 * length valid.old }
    requires size { length valid.old ≤ 2 ^ 60 }
    ensures marked { (before : ℕ → ℕ) (cells : List Bool) → length cells ≡ first → AreMarked before cells valid.old → AreMarked before (cells ++ picked rows.now (has nulls.now)) valid.new }
    ensures count { result ≡ count_by (λ null. null) (picked rows.now (has nulls.now)) }
{
    let both = rows.and(nulls);
    let count = both.count();
    if count == 0 {
        return 0;
    }
    clear_each(nulls, rows, valid, first);
    count
}
