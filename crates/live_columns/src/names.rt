//! Columns by their names.
ghost use Rattle.std.specs.Prelude.{◌≡◌, ◌<◌, ◌≤◌, ◌+◌, ◌^◌, ◌++◌, ◌∷◌, [], IfOk, IfSome, OnOk, length, map, sum_by};
ghost use Rattle.std.specs.List.{All, range_with_len};
ghost use Rattle.live_columns.specs.Names.{ReadsPlaces, parts_of, place_named, places_from, places_named};

use crate::choice::Unchosen;
use std::alloc::{AllocError, Global};
use table_model::{Column, same_word};

/// The place of the column with this name, from the left and from 0, whatever the case of its letters.
fn place_named(columns: &[Column], name: &[u8]) -> Option<usize>
    ensures within { IfSome result (λ place. place < length columns.now) }
    ensures place { result ≡ place_named columns.now name.now }
{
    columns
        .iter()
        .position(|column| same_word(name, column.name().as_bytes()))
}

/// The names of a list, as the separators between them cut it.
fn parts(alloc: Global, names: &[u8], separator: u8) -> Result<Vec<&[u8]>, AllocError>
    ensures { IfOk result (λ parts. map (λ part. part.now) parts.items ≡ parts_of separator names.now) }
{
    names.split(|byte| *byte == separator).collect(alloc)
}

/// Adds a place.
fn push_place(places: &mut Vec<usize>, place: usize) -> Result<(), AllocError>
    ensures { OnOk result (places.new.items ≡ places.old.items ++ place ∷ []) }
{
    places.push(place)?;
    Ok(())
}

/// The places of the columns with these names. Refused is the first name that no column has, by its byte in the list.
fn places_of(alloc: Global, columns: &[Column], parts: &[&[u8]]) -> Result<Vec<usize>, Unchosen>
    requires { sum_by (λ part. length part.now + 1) parts.now ≤ 2 ^ 64 }
    ensures within { IfOk result (λ places. All (λ place. place < length columns.now) places.items) }
    ensures read { ReadsPlaces result (places_from columns.now 0 (map (λ part. part.now) parts.now)) }
{
    let mut places = Vec::new(alloc);
    // Behind the last part it may be past 64 bits.
    let mut at: u128 = 0;
    for part in parts {
        match place_named(columns, part) {
            Some(place) => push_place(&mut places, place)?,
            None => return Err(Unchosen::NoSuchName(at as u64)),
        }
        at += part.len() as u128 + 1;
    }
    Ok(places)
}

/// The places of all columns, from the left.
fn all_places(alloc: Global, columns: usize) -> Result<Vec<usize>, AllocError>
    ensures places { IfOk result (λ places. places.items ≡ range_with_len 0 columns) }
    ensures within { IfOk result (λ places. All (λ place. place < columns) places.items) }
{
    let mut places = Vec::with_capacity(alloc, columns)?;
    for place in 0..columns {
        places.push(place)?;
    }
    Ok(places)
}

/// The places of the columns that a list names, with one separator between each two names, in the list's order; without a name the
/// places of all columns. Refused is the first name that no column has, by its byte in the list.
pub fn places_named(
    alloc: Global,
    columns: &[Column],
    names: &[u8],
    separator: u8,
) -> Result<Vec<usize>, Unchosen>
    ensures read { ReadsPlaces result (places_named columns.now separator names.now) }
    ensures within { IfOk result (λ places. All (λ place. place < length columns.now) places.items) }
{
    if names.is_empty() {
        return Ok(all_places(alloc, columns.len())?);
    }
    let parts = parts(alloc, names, separator)?;
    places_of(alloc, columns, parts.as_slice())
}
