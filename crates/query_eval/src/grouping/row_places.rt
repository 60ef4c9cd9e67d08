//! The rows of a vector, split by their groups.
ghost use Rattle.std.specs.Prelude.{◌==◌, ◌+◌, ◌≤◌, ℕ, List, length, OnOk};
ghost use Rattle.query_eval.specs.Read.{IsSame};
ghost use Rattle.query_eval.specs.Keys.{IsPlacing, column_key};
ghost use Rattle.query_eval.specs.Places.{AreKeyCells, ArePlaced, IsIndex, PlacesWord, PlacesCells};
ghost use Rattle.query_eval.specs.Slices.{AreByCode, IsSplit};
ghost use Rattle.query_eval.specs.Vector.{IsThere, Vector, vector_of};

use crate::columns::Columns;
use crate::filter::{KeptVector, is_set};
use crate::grouping::key::Key;
use crate::grouping::key_columns::KeyColumn;
use crate::grouping::places::Places;
use crate::grouping::room::Room;
use crate::grouping::slices::read_key;
use crate::grouping::vector_keys::read_keys;
use std::alloc::{AllocError, Global};
use transpose_order::Mask;

/// Writes the place of each row of a word of a mask, by its cell in the one grouping column: bit `b` is row `first + b`, of the
/// word of nulls too.
fn place_word(
    alloc: Global,
    places: &mut Places,
    nulls: u64,
    values: &[i64; 1024],
    word: u64,
    first: usize,
    out: &mut [usize; 1024],
) -> Result<(), AllocError>
    requires { first + 64 ≤ 1024 }
    ensures index { OnOk result (IsIndex places.old → IsIndex places.new) }
    ensures placed { OnOk result (PlacesWord values.now word nulls first places.old places.new out.old out.new) }
{
    for bit in 0..64 {
        if is_set(word, bit) {
            let row = first + bit;
            let null = is_set(nulls, bit);
            let place = places.of_row(alloc, null, values[row])?;
            out[row] = place;
        }
    }
    Ok(())
}

/// Writes the place of each row of a mask, by its cell in the one grouping column, 64 rows at a time.
fn place_by_value(
    alloc: Global,
    places: &mut Places,
    nulls: &Mask,
    values: &[i64; 1024],
    mask: &Mask,
    out: &mut [usize; 1024],
) -> Result<(), AllocError>
    ensures index { OnOk result (IsIndex places.old → IsIndex places.new) }
    ensures placed { OnOk result (PlacesCells nulls.now values.now mask.now places.old places.new out.new) }
{
    let words = mask.words();
    let null_words = nulls.words();
    for index in 0..16 {
        place_word(
            alloc,
            places,
            null_words[index],
            values,
            words[index],
            64 * index,
            out,
        )?;
    }
    Ok(())
}

/// Writes the place of each row of a mask, by its key.
fn place_by_key(
    alloc: Global,
    places: &mut Places,
    columns: &[KeyColumn],
    mask: &Mask,
    out: &mut [usize; 1024],
) -> Result<(), AllocError>
    ensures index { OnOk result (IsIndex places.old → IsIndex places.new) }
    ensures placed { OnOk result (IsPlacing (column_key columns.now) mask.now places.old places.new out.new) }
{
    let mut key = Key::empty(alloc);
    for row in 0..1024 {
        if mask.get(row) {
            read_key(&mut key, columns, row)?;
            let place = places.of_key(alloc, &key)?;
            out[row] = place;
        }
    }
    Ok(())
}

/// Writes the place of each row of a mask: by its cell if there is one grouping column, otherwise by its key.
pub fn place_each(
    alloc: Global,
    places: &mut Places,
    columns: &[KeyColumn],
    mask: &Mask,
    out: &mut [usize; 1024],
) -> Result<(), AllocError>
    ensures index { OnOk result (IsIndex places.old → IsIndex places.new) }
    ensures placed { OnOk result (IsPlacing (column_key columns.now) mask.now places.old places.new out.new) }
{
    if mask.next_true(0) == 1024 {
        return Ok(());
    }
    if columns.len() == 1 {
        let column = &columns[0];
        place_by_value(alloc, places, &column.nulls, &column.values, mask, out)?;
        return Ok(());
    }
    place_by_key(alloc, places, columns, mask, out)?;
    Ok(())
}

/// Splits the kept rows of a vector by the grouping columns, each in at most one pass. A new key gets a new place.
pub fn place_rows<C: Columns>(
    alloc: Global,
    columns: &mut C,
    kept: &KeptVector,
    grouping: &[usize],
    places: &mut Places,
    room: &mut Room,
) -> Result<(), AllocError>
    requires { IsThere (C.seen columns.old).state kept.now.id.batch kept.now.id.vector }
    ensures index { OnOk result (IsIndex places.old → IsIndex places.new) }
    ensures codes { OnOk result (AreByCode room.new.split) }
    ensures placed { OnOk result (IsIndex places.old → IsSplit grouping.now (vector_of (C.seen columns.old).state kept.now.id) kept.now.rows places.old.index.entries places.new.index.entries room.new.split) }
    ensures same { IsSame (C.seen columns.old) (C.seen columns.new) }
    ensures passes { OnOk result ((C.seen columns.new).passes ≤ (C.seen columns.old).passes + length grouping.now) }
{
    let keys = read_keys(
        columns,
        kept.id,
        grouping,
        &kept.rows,
        &mut room.keys,
        &mut room.values,
        &mut room.split.codes,
    )?;
    room.split.kept = kept.rows;
    room.split
        .by_keys(alloc, places, &keys, room.keys.as_slice(), &room.values)?;
    Ok(())
}
