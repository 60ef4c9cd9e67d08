//! The names of the four codings, and the numbers that represent them in files.
ghost use Rattle.std.specs.Prelude.{◌≡◌};
ghost use Rattle.segment_core.specs.VectorBytes.{tag_of, coding_tagged};

/// How the values of a vector are coded.
#[derive(Clone, Copy, Debug, PartialEq, Eq)]
pub enum Coding {
    /// FOR, frame of reference: a reference and packed distances from it.
    For,
    /// DELTA: bases, a least difference and packed distances from it.
    Delta,
    /// RLE: runs of equal values.
    Runs,
    /// DICT: a dictionary and packed codes.
    Dict,
}

impl Coding {
    /// The greatest number that represents a coding.
    pub(crate) const GREATEST_TAG: u64 = 3;

    /// The number that represents the coding, from 0 to 3.
    pub(crate) fn tag(self) -> u64
        ensures { result ≡ tag_of self }
    {
        match self {
            Coding::For => 0,
            Coding::Delta => 1,
            Coding::Runs => 2,
            Coding::Dict => 3,
        }
    }

    /// The coding with this number, from 0 to 3.
    pub(crate) fn tagged(tag: u64) -> Coding
        ensures { result ≡ coding_tagged tag }
    {
        match tag {
            0 => Coding::For,
            1 => Coding::Delta,
            2 => Coding::Runs,
            _ => Coding::Dict,
        }
    }
}
