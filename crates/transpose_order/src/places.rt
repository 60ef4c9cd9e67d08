//! The places of the 1024 rows of a vector in lanes of 8, 16, 32 or 64 bits.
ghost use Rattle.std.specs.Prelude.{◌≡◌, ◌/◌, ◌<◌, ◌≤◌};
ghost use Rattle.transpose_order.specs.Place.{reversed, IsLaneWidth, group_bits, lane_of, step_of, row_at, position_of, place_of};
ghost use Rattle.transpose_order.specs.Place.{PlacesAreDistinct, EveryPlaceIsARow, OneOrderServesEveryWidth, PiecesStandInWords};

/// How many rows a vector has, as in FastLanes (VLDB 2023).
pub const VECTOR_ROWS: usize = 1024;

/// The number of bits of a group's number at a lane width, 3 for 8 bits down to 0 for 64.
fn group_bits(lane_width: usize) -> usize
    ensures value { result ≡ group_bits lane_width }
    ensures bound { result ≤ 3 }
{
    match lane_width {
        8 => 3,
        16 => 2,
        32 => 1,
        _ => 0,
    }
}

/// The `bits` low bits of `number` in reverse.
fn reversed(bits: usize, number: usize) -> usize
    requires { bits ≤ 3 }
    ensures value { result ≡ reversed bits number }
    ensures bound { result < 8 }
{
    match bits {
        0 => 0,
        1 => number % 2,
        2 => number % 2 * 2 + number / 2 % 2,
        _ => number % 2 * 4 + number / 2 % 2 * 2 + number / 4 % 2,
    }
}

/// The lane and the step of a row, 0 to 1023, at a lane width of 8, 16, 32 or 64 bits. The order is in the manner
/// of FastLanes (VLDB 2023), of its section on the unified transposed layout; its exact index is our own.
pub fn place(lane_width: usize, row: usize) -> (usize, usize)
    requires width { IsLaneWidth lane_width }
    requires within { row < 1024 }
    ensures lane { result.0 ≡ lane_of lane_width row }
    ensures step { result.1 ≡ step_of lane_width row }
{
    let group = reversed(group_bits(lane_width), row % 64 / lane_width);
    (16 * group + row / 64, row % lane_width)
}

/// The row, 0 to 1023, at a lane and a step: what `place` answers, undone.
pub fn row_at(lane_width: usize, lane: usize, step: usize) -> usize
    requires width { IsLaneWidth lane_width }
    requires lane { lane < 1024 / lane_width }
    requires step { step < lane_width }
    ensures { result ≡ row_at lane_width lane step }
{
    let group = reversed(group_bits(lane_width), lane / 16);
    64 * (lane % 16) + lane_width * group + step
}

/// The position of a row, 0 to 1023, in the one order that serves every lane width.
pub fn position(row: usize) -> usize
    requires { row < 1024 }
    ensures { result ≡ position_of row }
{
    128 * (row % 8) + 16 * reversed(3, row / 8 % 8) + row / 64
}

/// The bit of each of a mask's words that belongs to a piece, 0 to 63: the piece's row of lane `16 * g + i` is that
/// bit of word `i`.
pub fn place_in_word(lane_width: usize, piece: usize) -> usize
    requires width { IsLaneWidth lane_width }
    requires within { piece < 64 }
    ensures { result ≡ place_of lane_width piece }
{
    lane_width * reversed(group_bits(lane_width), piece / lane_width) + piece % lane_width
}

/// The law that no two rows share a lane and a step.
pub fn places_are_distinct()
    ensures { PlacesAreDistinct }
{}

/// The law that every lane and step is a row's.
pub fn every_place_is_a_row()
    ensures { EveryPlaceIsARow }
{}

/// The law that one order of the rows serves every lane width.
pub fn one_order_serves_every_width()
    ensures { OneOrderServesEveryWidth }
{}

/// The law that the sixteen rows of a piece are at one bit of a mask's sixteen words.
pub fn pieces_stand_in_words()
    ensures { PiecesStandInWords }
{}
