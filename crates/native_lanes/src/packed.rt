//! Frames and deltas whose numbers stay packed, gone through in lanes of their own type.
ghost use Rattle.std.specs.Prelude.{◌≡◌, ◌==◌, ℕ, ◌^◌, ◌<◌, ◌&&◌, nat_lt, cond, is_some, IfSome, IsSome, pos, ◌+ℤ◌};
ghost use Rattle.table_model.specs.declared.extreme.Extreme.TheVariants as sides;
ghost use Rattle.transpose_order.specs.Mask.{has, rows_of};
ghost use Rattle.transpose_order.specs.Place.{IsLaneWidth};
ghost use Rattle.native_lanes.specs.Between.{between};
ghost use Rattle.native_lanes.specs.Extremes.{extreme_at};
ghost use Rattle.native_lanes.specs.Folds.{fold_to};
ghost use Rattle.native_lanes.specs.Packed.{IsDecidedFrame, value_of, values_of, width_of};
ghost use Rattle.native_lanes.specs.Pairs.{value_passes};
ghost use Rattle.native_lanes.specs.Walks.{number_of_row};

use crate::frame_range::frame_between;
use crate::pair_test::PairTest;
use crate::short_frames::sum_of_frame;
use crate::walk_16::{Walk16, walk_of_deltas_16, walk_of_frame_16};
use crate::walk_32::{Walk32, walk_of_deltas_32, walk_of_frame_32};
use crate::walk_64::{Walk64, walk_of_deltas_64, walk_of_frame_64};
use frame_delta::{Delta, For};
use table_model::Extreme;
use transpose_order::Mask;

/// A frame or deltas. Each of the calls goes through all lanes of a step at once, and has no answer for lanes of 8 bits.
#[derive(Clone, Copy)]
pub enum Packed<'a> {
    /// A frame.
    Frame(&'a For),
    /// Deltas.
    Deltas(&'a Delta),
}

impl<'a> Packed<'a> {
    /// The bits of a lane: 8, 16, 32 or 64.
    fn lane_width(self) -> usize
        ensures value { result ≡ width_of self.entry }
        ensures lanes { IsLaneWidth result }
    {
        match self {
            Packed::Frame(form) => form.lane_width(),
            Packed::Deltas(form) => form.lane_width(),
        }
    }

    /// The walk through lanes of 16 bits.
    fn walk_16(self) -> Walk16<'a>
        requires { width_of self ≡ 16 }
        ensures { (n : ℕ) → n < 1024 → pos (number_of_row result n) ≡ value_of self.entry n +ℤ pos (2 ^ 15) }
    {
        match self {
            Packed::Frame(form) => walk_of_frame_16(form),
            Packed::Deltas(form) => walk_of_deltas_16(form),
        }
    }

    /// The walk through lanes of 32 bits.
    fn walk_32(self) -> Walk32<'a>
        requires { width_of self ≡ 32 }
        ensures { (n : ℕ) → n < 1024 → pos (number_of_row result n) ≡ value_of self.entry n +ℤ pos (2 ^ 31) }
    {
        match self {
            Packed::Frame(form) => walk_of_frame_32(form),
            Packed::Deltas(form) => walk_of_deltas_32(form),
        }
    }

    /// The walk through lanes of 64 bits.
    fn walk_64(self) -> Walk64<'a>
        requires { width_of self ≡ 64 }
        ensures { (n : ℕ) → n < 1024 → pos (number_of_row result n) ≡ value_of self.entry n +ℤ pos (2 ^ 63) }
    {
        match self {
            Packed::Frame(form) => walk_of_frame_64(form),
            Packed::Deltas(form) => walk_of_deltas_64(form),
        }
    }

    /// The sum of the values of a mask's rows, or none at a lane width of 8.
    pub fn sum(self, rows: &Mask) -> Option<i128>
        ensures value { IfSome result (λ sum. sum ≡ fold_to ◌+ℤ◌ (pos 0) 1024 (λ n. cond (has rows.now n) (value_of self.entry n) (pos 0))) }
        ensures answers { is_some result ≡ nat_lt 8 (width_of self.entry) }
    {
        match self {
            Packed::Frame(form) => sum_of_frame(form, rows),
            Packed::Deltas(form) => match form.lane_width() {
                16 => Some(walk_of_deltas_16(form).sum_of_values(rows)),
                32 => Some(walk_of_deltas_32(form).sum_of_values(rows)),
                64 => Some(walk_of_deltas_64(form).sum_of_values(rows)),
                _ => None,
            },
        }
    }

    /// The least of the values of a mask's rows, none over none, or none at a lane width of 8. The loops are fast if the side is a
    /// constant. One function for both sides would be too large for the compiler to inline it, so each side has its own.
    fn least(self, rows: &Mask) -> Option<Option<i64>>
        ensures value { IfSome result (λ found. found ≡ extreme_at sides.Least rows.now (value_of self.entry)) }
        ensures answers { is_some result ≡ nat_lt 8 (width_of self.entry) }
    {
        match self {
            Packed::Frame(form) => match form.lane_width() {
                16 => Some(walk_of_frame_16(form).extreme_value(Extreme::Least, rows)),
                32 => Some(walk_of_frame_32(form).extreme_value(Extreme::Least, rows)),
                64 => Some(walk_of_frame_64(form).extreme_value(Extreme::Least, rows)),
                _ => None,
            },
            Packed::Deltas(form) => match form.lane_width() {
                16 => Some(walk_of_deltas_16(form).extreme_value(Extreme::Least, rows)),
                32 => Some(walk_of_deltas_32(form).extreme_value(Extreme::Least, rows)),
                64 => Some(walk_of_deltas_64(form).extreme_value(Extreme::Least, rows)),
                _ => None,
            },
        }
    }

    /// The greatest of the values of a mask's rows, none over none, or none at a lane width of 8.
    fn greatest(self, rows: &Mask) -> Option<Option<i64>>
        ensures value { IfSome result (λ found. found ≡ extreme_at sides.Greatest rows.now (value_of self.entry)) }
        ensures answers { is_some result ≡ nat_lt 8 (width_of self.entry) }
    {
        match self {
            Packed::Frame(form) => match form.lane_width() {
                16 => Some(walk_of_frame_16(form).extreme_value(Extreme::Greatest, rows)),
                32 => Some(walk_of_frame_32(form).extreme_value(Extreme::Greatest, rows)),
                64 => Some(walk_of_frame_64(form).extreme_value(Extreme::Greatest, rows)),
                _ => None,
            },
            Packed::Deltas(form) => match form.lane_width() {
                16 => Some(walk_of_deltas_16(form).extreme_value(Extreme::Greatest, rows)),
                32 => Some(walk_of_deltas_32(form).extreme_value(Extreme::Greatest, rows)),
                64 => Some(walk_of_deltas_64(form).extreme_value(Extreme::Greatest, rows)),
                _ => None,
            },
        }
    }

    /// The least or the greatest of the values of a mask's rows, none over none, or none at a lane width of 8.
    pub fn extreme(self, side: Extreme, rows: &Mask) -> Option<Option<i64>>
        ensures value { IfSome result (λ found. found ≡ extreme_at side rows.now (value_of self.entry)) }
        ensures answers { is_some result ≡ nat_lt 8 (width_of self.entry) }
    {
        match side {
            Extreme::Least => self.least(rows),
            Extreme::Greatest => self.greatest(rows),
        }
    }

    /// The rows whose value is neither below `low` nor above `high`, by a walk, or none at a lane width of 8.
    fn within_by_walk(self, low: i64, high: i64) -> Option<Mask>
        ensures value { IfSome result (λ found. found ≡ rows_of (λ n. between low high (value_of self.entry n))) }
        ensures answers { is_some result ≡ nat_lt 8 (width_of self.entry) }
    {
        match self {
            Packed::Frame(form) => match form.lane_width() {
                16 => Some(walk_of_frame_16(form).values_between(low, high)),
                32 => Some(walk_of_frame_32(form).values_between(low, high)),
                64 => Some(walk_of_frame_64(form).values_between(low, high)),
                _ => None,
            },
            Packed::Deltas(form) => match form.lane_width() {
                16 => Some(walk_of_deltas_16(form).values_between(low, high)),
                32 => Some(walk_of_deltas_32(form).values_between(low, high)),
                64 => Some(walk_of_deltas_64(form).values_between(low, high)),
                _ => None,
            },
        }
    }

    /// The rows whose value is neither below `low` nor above `high`. If none or all of the values of the lane's bits are, or if the
    /// reference and the width of a frame that can't wrap decide, no word is read. Only at a lane width of 8 there can be no
    /// answer.
    pub fn within(self, low: i64, high: i64) -> Option<Mask>
        ensures value { IfSome result (λ found. found ≡ rows_of (λ n. between low high (value_of self.entry n))) }
        ensures answers { 8 < width_of self.entry → IsSome result }
        ensures decided { IsDecidedFrame self.entry low high → IsSome result }
    {
        if let Packed::Frame(form) = self
            && let Some(found) = frame_between(form, low, high)
        {
            return Some(found);
        }
        self.within_by_walk(low, high)
    }

    /// The rows at which a value and another's pass a test. There is no answer if the lane widths differ or are 8.
    pub fn beside(self, test: PairTest, other: Packed<'_>) -> Option<Mask>
        ensures value { IfSome result (λ found. found ≡ rows_of (λ n. value_passes test (value_of self.entry n) (value_of other.entry n))) }
        ensures answers { is_some result ≡ (width_of self.entry == width_of other.entry && nat_lt 8 (width_of self.entry)) }
    {
        let lane_width = self.lane_width();
        if lane_width != other.lane_width() {
            return None;
        }
        match lane_width {
            16 => Some(self.walk_16().values_beside(test, &other.walk_16())),
            32 => Some(self.walk_32().values_beside(test, &other.walk_32())),
            64 => Some(self.walk_64().values_beside(test, &other.walk_64())),
            _ => None,
        }
    }

    /// Writes the 1024 values in row order, at a lane width of 16 by all lanes of a step at once.
    pub fn write_values(self, values: &mut [i64; 1024])
        ensures { values.new ≡ values_of self.entry }
    {
        match self {
            Packed::Frame(form) => match form.lane_width() {
                16 => walk_of_frame_16(form).write_values(values),
                _ => form.decode(values),
            },
            Packed::Deltas(form) => match form.lane_width() {
                16 => walk_of_deltas_16(form).write_values(values),
                _ => form.decode(values),
            },
        }
    }
}
