//! The canonical choice among the four codings.
ghost use Rattle.std.specs.Prelude.{◌≡◌, ◌↔◌, if◌then◌else◌, nat_lt, is_some, IsTrue};
ghost use Rattle.transpose_order.specs.Place.{IsLaneWidth};
ghost use Rattle.bit_interleave.specs.Range.{AreInRange};
ghost use Rattle.segment_core.specs.Choice.{choice, least_bytes, IsFirstFewest};

use crate::coding::Coding;
use frame_delta::{Delta, For};
use run_dictionary::{Dict, Runs};

/// A coding, and the bytes that its least form takes.
#[derive(Clone, Copy)]
struct Candidate {
    coding: Coding,
    bytes: u16,
}

impl Candidate {
    /// A later candidate if it takes fewer bytes, else this one.
    fn or_fewer(self, coding: Coding, bytes: u16) -> Candidate
        ensures coding { result.coding ≡ (if nat_lt bytes self.bytes then coding else self.coding) }
        ensures bytes { result.bytes ≡ (if nat_lt bytes self.bytes then bytes else self.bytes) }
    {
        if bytes < self.bytes {
            Candidate { coding, bytes }
        } else {
            self
        }
    }

    /// The dictionary's coding if a size was found for it, which is smaller, else this one's.
    fn or_dictionary(self, smaller: Option<u16>) -> Coding
        ensures { result ≡ (if is_some smaller then Coding.Dict else self.coding) }
    {
        match smaller {
            Some(_) => Coding::Dict,
            None => self.coding,
        }
    }
}

/// The coding whose least form of 1024 values takes the fewest bytes; of several, the first in the order FOR, DELTA, RLE, DICT.
/// The values are in the range of `lane_width` bits, signed, which are 8, 16, 32 or 64. A dictionary is sized only as far as it
/// can still win, and a frame without packed values, as one value in all rows has it, needs no comparison.
pub(crate) fn choose(values: &[i64; 1024], lane_width: usize) -> Coding
    requires lane_width { IsLaneWidth lane_width }
    requires fit { AreInRange lane_width values.now }
    ensures value { result ≡ choice lane_width values.now }
    ensures fewest { IsFirstFewest (least_bytes lane_width values.now) result }
{
    let frame = Candidate {
        coding: Coding::For,
        bytes: For::size(values, lane_width),
    };
    if usize::from(frame.bytes) == lane_width / 8 {
        return Coding::For;
    }
    let of_two = frame.or_fewer(Coding::Delta, Delta::size(values, lane_width));
    let of_three = of_two.or_fewer(Coding::Runs, Runs::size(values, lane_width));
    of_three.or_dictionary(Dict::size_below(values, lane_width, of_three.bytes))
}

/// Whether a coding is the one that is chosen for 1024 values.
pub(crate) fn is_chosen(coding: Coding, values: &[i64; 1024], lane_width: usize) -> bool
    requires lane_width { IsLaneWidth lane_width }
    requires fit { AreInRange lane_width values.now }
    ensures { IsTrue result ↔ (choice lane_width values.now ≡ coding) }
{
    choose(values, lane_width) == coding
}
