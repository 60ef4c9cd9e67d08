//! The sides of comparisons, and comparisons by masks.
ghost use Rattle.std.specs.Prelude.{◌≡◌, ◌<◌, ◌≤◌, ◌+◌, ℕ, length};
ghost use Rattle.table_model.specs.Answer.{whole};
ghost use Rattle.table_model.specs.Condition.{is_null, field_comparison};
ghost use Rattle.table_model.specs.Truth.{comparison, truth_of};
ghost use Rattle.query_eval.specs.Read.{IsRead};
ghost use Rattle.query_eval.specs.Mentions.{operand_mentions};
ghost use Rattle.query_eval.specs.Side.{side_at, side_mentions, HasColumn, StandsFor};
ghost use Rattle.query_eval.specs.Vector.{IsThere, vector_of};
ghost use Rattle.query_eval.specs.Where.{IsPair, operand_seen};

use crate::columns::{Columns, VectorId, state_is_within_limits};
use crate::filter::column_places::place_of;
use crate::filter::pair::Pair;
use table_model::{Op, Operand, Truth};
use transpose_order::Mask;

/// A side of a comparison in WHERE: a column by its place, or a cell that is the same at each row.
#[derive(Clone, Copy, Debug)]
pub enum Side {
    Column(usize),
    Fixed(Option<i128>),
}

/// What an operand of WHERE represents.
pub fn side_of<C: Columns>(columns: &C, operand: &Operand) -> Side
    ensures value { StandsFor (C.seen columns.now).table (C.seen columns.now).state operand.now result }
    ensures column { HasColumn (C.seen columns.now).table result }
    ensures mentions { side_mentions result ≤ operand_mentions operand.now }
{
    state_is_within_limits(columns);
    match operand {
        Operand::Column(column) => match place_of(columns.schema(), column) {
            None => Side::Fixed(None),
            Some(place) => Side::Column(place),
        },
        Operand::Literal(literal) => Side::Fixed(Some(*literal)),
        Operand::Function(_) => Side::Fixed(None),
    }
}

/// The comparison of two sides at the rows of a mask. A comparison without a column takes no pass.
pub fn compare_sides<C: Columns>(
    columns: &mut C,
    id: VectorId,
    left: Side,
    op: Op,
    right: Side,
    mask: &Mask,
) -> Pair
    requires there { IsThere (C.seen columns.old).state id.batch id.vector }
    requires left { HasColumn (C.seen columns.old).table left }
    requires right { HasColumn (C.seen columns.old).table right }
    ensures value { IsPair mask.now (λ n. comparison op (side_at (vector_of (C.seen columns.old).state id) left n) (side_at (vector_of (C.seen columns.old).state id) right n)) result }
    ensures read { IsRead (C.seen columns.old) (C.seen columns.new) (side_mentions left + side_mentions right) }
{
    match (left, right) {
        (Side::Column(column), Side::Fixed(Some(literal))) => {
            let (yes, no) = columns.compare(id, column, op, literal, mask);
            Pair { yes, no }
        }
        (Side::Fixed(Some(literal)), Side::Column(column)) => {
            let (yes, no) = columns.compare(id, column, op.turned(), literal, mask);
            Pair { yes, no }
        }
        (Side::Column(left), Side::Column(right)) => {
            let (yes, no) = columns.compare_columns(id, left, op, right, mask);
            Pair { yes, no }
        }
        (Side::Fixed(left), Side::Fixed(right)) => Pair::everywhere(op.compare(left, right), mask),
        (Side::Column(_), Side::Fixed(None)) | (Side::Fixed(None), Side::Column(_)) => {
            Pair::everywhere(Truth::Unknown, mask)
        }
    }
}

/// Whether a side is null, at the rows of a mask.
pub fn null_rows<C: Columns>(columns: &C, id: VectorId, side: Side, mask: &Mask) -> Pair
    requires there { IsThere (C.seen columns.now).state id.batch id.vector }
    requires column { HasColumn (C.seen columns.now).table side }
    ensures { IsPair mask.now (λ n. truth_of (is_null (whole (side_at (vector_of (C.seen columns.now).state id) side n)))) result }
{
    match side {
        Side::Column(column) => {
            let nulls = columns.nulls(id, column);
            let yes = mask.and(&nulls);
            let no = mask.and_not(&yes);
            Pair { yes, no }
        }
        Side::Fixed(cell) => Pair::everywhere(Truth::from_bool(cell.is_none()), mask),
    }
}

/// The comparison of two operands of WHERE at the rows of a mask. A comparison of two literals takes no pass.
pub fn compare_operands<C: Columns>(
    columns: &mut C,
    id: VectorId,
    left: &Operand,
    op: Op,
    right: &Operand,
    mask: &Mask,
) -> Pair
    requires there { IsThere (C.seen columns.old).state id.batch id.vector }
    ensures value { IsPair mask.now (λ n. field_comparison op (operand_seen (C.seen columns.old) id left.now n) (operand_seen (C.seen columns.old) id right.now n)) result }
    ensures read { IsRead (C.seen columns.old) (C.seen columns.new) (operand_mentions left.now + operand_mentions right.now) }
{
    let left = side_of(columns, left);
    let right = side_of(columns, right);
    compare_sides(columns, id, left, op, right, mask)
}

/// Whether an operand of WHERE is null, at the rows of a mask. It takes no pass.
pub fn null_operand<C: Columns>(columns: &C, id: VectorId, operand: &Operand, mask: &Mask) -> Pair
    requires { IsThere (C.seen columns.now).state id.batch id.vector }
    ensures { IsPair mask.now (λ n. truth_of (is_null (operand_seen (C.seen columns.now) id operand.now n))) result }
{
    let side = side_of(columns, operand);
    null_rows(columns, id, side, mask)
}
