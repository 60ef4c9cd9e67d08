//! BETWEEN and IN of operands of WHERE over the rows of a vector, as pairs of masks.
ghost use Rattle.std.specs.Prelude.{◌≡◌, ◌<◌, ◌≤◌, ◌+◌, length, Some};
ghost use Rattle.table_model.specs.Answer.{whole};
ghost use Rattle.table_model.specs.Condition.{between, is_among};
ghost use Rattle.query_eval.specs.Read.{IsRead};
ghost use Rattle.query_eval.specs.Mentions.{operand_mentions};
ghost use Rattle.query_eval.specs.Pairs.{yes_of};
ghost use Rattle.query_eval.specs.Side.{side_seen, side_mentions, HasColumn};
ghost use Rattle.query_eval.specs.Vector.{IsThere, cell_at, vector_of};
ghost use Rattle.query_eval.specs.Where.{IsPair, between_seen, cell_between, operand_seen};

use crate::columns::{Columns, VectorId};
use crate::filter::code_predicates::{MOST_KEYS, among_codes};
use crate::filter::decoded::decode;
use crate::filter::pair::Pair;
use crate::filter::rows::{among, among_values, between, between_rows};
use crate::filter::side::{Side, side_of};
use table_model::{Literals, Operand};
use transpose_order::Mask;

/// BETWEEN of three sides at the rows of a mask: each column takes one pass. It is a function of its own and is never inlined into
/// `between_sides`, since most conditions need no room for three decoded columns.
#[inline(never)]
fn between_decoded<C: Columns>(
    columns: &mut C,
    id: VectorId,
    operand: Side,
    low: Side,
    high: Side,
    mask: &Mask,
) -> Pair
    requires there { IsThere (C.seen columns.old).state id.batch id.vector }
    requires operand { HasColumn (C.seen columns.old).table operand }
    requires low { HasColumn (C.seen columns.old).table low }
    requires high { HasColumn (C.seen columns.old).table high }
    ensures value { IsPair mask.now (λ n. cell_between (side_seen (C.seen columns.old) id operand n) (side_seen (C.seen columns.old) id low n) (side_seen (C.seen columns.old) id high n)) result }
    ensures read { IsRead (C.seen columns.old) (C.seen columns.new) (side_mentions operand + (side_mentions low + side_mentions high)) }
{
    let operand = decode(columns, id, operand);
    let low = decode(columns, id, low);
    let high = decode(columns, id, high);
    between_rows(&operand, &low, &high, mask)
}

/// BETWEEN of three sides at the rows of a mask: a column between two literals takes one pass, and otherwise each column takes one.
fn between_sides<C: Columns>(
    columns: &mut C,
    id: VectorId,
    operand: Side,
    low: Side,
    high: Side,
    mask: &Mask,
) -> Pair
    requires there { IsThere (C.seen columns.old).state id.batch id.vector }
    requires operand { HasColumn (C.seen columns.old).table operand }
    requires low { HasColumn (C.seen columns.old).table low }
    requires high { HasColumn (C.seen columns.old).table high }
    ensures value { IsPair mask.now (λ n. cell_between (side_seen (C.seen columns.old) id operand n) (side_seen (C.seen columns.old) id low n) (side_seen (C.seen columns.old) id high n)) result }
    ensures read { IsRead (C.seen columns.old) (C.seen columns.new) (side_mentions operand + (side_mentions low + side_mentions high)) }
{
    if let (Side::Column(column), Side::Fixed(Some(low)), Side::Fixed(Some(high))) = (
        operand, low, high,
    ) {
        let (yes, no) = columns.compare_range(id, column, low, high, mask);
        return Pair { yes, no };
    }
    between_decoded(columns, id, operand, low, high, mask)
}

/// The rows of a mask at which an operand is between two numbers. A column takes one pass, and no mask is made of the rows at which
/// it isn't.
pub fn range_rows<C: Columns>(
    columns: &mut C,
    id: VectorId,
    operand: &Operand,
    low: i128,
    high: i128,
    mask: &Mask,
) -> Mask
    requires there { IsThere (C.seen columns.old).state id.batch id.vector }
    ensures value { result ≡ yes_of mask.now (λ n. between (operand_seen (C.seen columns.old) id operand.now n) (whole (Some low)) (whole (Some high))) }
    ensures read { IsRead (C.seen columns.old) (C.seen columns.new) (operand_mentions operand.now) }
{
    match side_of(columns, operand) {
        Side::Column(column) => {
            let (yes, _no) = columns.compare_range(id, column, low, high, mask);
            yes
        }
        Side::Fixed(cell) => {
            let pair = Pair::everywhere(between(cell, Some(low), Some(high)), mask);
            pair.yes
        }
    }
}

/// BETWEEN of three operands at the rows of a mask.
pub fn between_operands<C: Columns>(
    columns: &mut C,
    id: VectorId,
    operand: &Operand,
    low: &Operand,
    high: &Operand,
    mask: &Mask,
) -> Pair
    requires there { IsThere (C.seen columns.old).state id.batch id.vector }
    ensures value { IsPair mask.now (between_seen (C.seen columns.old) id operand.now low.now high.now) result }
    ensures read { IsRead (C.seen columns.old) (C.seen columns.new) (operand_mentions operand.now + (operand_mentions low.now + operand_mentions high.now)) }
{
    let operand = side_of(columns, operand);
    let low = side_of(columns, low);
    let high = side_of(columns, high);
    between_sides(columns, id, operand, low, high, mask)
}

/// IN of a column at the rows of a mask, by its decoded values, in one pass. Its room is its own: few conditions need it.
#[inline(never)]
fn among_decoded<C: Columns>(
    columns: &mut C,
    id: VectorId,
    column: usize,
    literals: &[i128],
    mask: &Mask,
) -> Pair
    requires there { IsThere (C.seen columns.old).state id.batch id.vector }
    requires column { column < length (C.seen columns.old).table.columns }
    ensures value { IsPair mask.now (λ n. is_among (whole (cell_at (vector_of (C.seen columns.old).state id) column n)) literals.now) result }
    ensures read { IsRead (C.seen columns.old) (C.seen columns.new) 1 }
{
    let nulls = columns.nulls(id, column);
    let mut values = [0; 1024];
    columns.decode_into(id, column, &mut values);
    among_values(&nulls, &values, literals, mask)
}

/// IN of a column at the rows of a mask, which takes one pass: by the codes of its rows if they are few, otherwise by its decoded
/// values. It has its own room, since most conditions need none.
#[inline(never)]
fn among_column<C: Columns>(
    columns: &mut C,
    id: VectorId,
    column: usize,
    literals: &[i128],
    mask: &Mask,
) -> Pair
    requires there { IsThere (C.seen columns.old).state id.batch id.vector }
    requires column { column < length (C.seen columns.old).table.columns }
    ensures value { IsPair mask.now (λ n. is_among (whole (cell_at (vector_of (C.seen columns.old).state id) column n)) literals.now) result }
    ensures read { IsRead (C.seen columns.old) (C.seen columns.new) 1 }
{
    let mut codes = [0; 1024];
    let mut keys = [0; 1024];
    match columns.codes_into(id, column, MOST_KEYS, &mut codes, &mut keys) {
        Some(count) => among_codes(&codes, &keys, count, literals, mask),
        None => among_decoded(columns, id, column, literals, mask),
    }
}

/// IN of a side at the rows of a mask.
fn among_side<C: Columns>(
    columns: &mut C,
    id: VectorId,
    side: Side,
    literals: &[i128],
    mask: &Mask,
) -> Pair
    requires there { IsThere (C.seen columns.old).state id.batch id.vector }
    requires column { HasColumn (C.seen columns.old).table side }
    ensures value { IsPair mask.now (λ n. is_among (whole (side_seen (C.seen columns.old) id side n)) literals.now) result }
    ensures read { IsRead (C.seen columns.old) (C.seen columns.new) (side_mentions side) }
{
    match side {
        Side::Column(column) => among_column(columns, id, column, literals, mask),
        Side::Fixed(cell) => Pair::everywhere(among(cell, literals), mask),
    }
}

/// IN of an operand at the rows of a mask.
pub fn among_operand<C: Columns>(
    columns: &mut C,
    id: VectorId,
    operand: &Operand,
    literals: &Literals,
    mask: &Mask,
) -> Pair
    requires there { IsThere (C.seen columns.old).state id.batch id.vector }
    ensures value { IsPair mask.now (λ n. is_among (operand_seen (C.seen columns.old) id operand.now n) literals.now) result }
    ensures read { IsRead (C.seen columns.old) (C.seen columns.new) (operand_mentions operand.now) }
{
    let side = side_of(columns, operand);
    among_side(columns, id, side, literals.as_slice(), mask)
}
