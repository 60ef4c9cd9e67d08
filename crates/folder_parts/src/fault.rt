//! Why a part of a folder isn't taken.
ghost use Rattle.std.specs.Prelude.{◌≡◌};
ghost use Rattle.folder_parts.specs.declared.fault.PartFault.TheVariants.{Refused};
ghost use Rattle.table_model.specs.declared.refusal.Refusal.TheVariants.{Memory};

use std::alloc::AllocError;
use std::error::Error;
use std::fmt;
use table_model::Refusal;

/// Why a part isn't taken.
#[derive(Clone, Copy, Debug, PartialEq, Eq)]
pub enum PartFault {
    /// Its name isn't that of its bytes: it is to be copied again, or removed.
    Damaged,
    /// What its bytes are refused as, or its join with the parts before it; or `Memory`, or `ReadFault`.
    Refused(Refusal),
}

impl From<Refusal> for PartFault {
    ghost from_gives = { λ refusal e. e ≡ Refused refusal };

    fn from(refusal: Refusal) -> PartFault {
        PartFault::Refused(refusal)
    }
}

impl From<AllocError> for PartFault {
    ghost from_gives = { λ _ e. e ≡ Refused Memory };

    fn from(_lacking: AllocError) -> PartFault {
        PartFault::Refused(Refusal::Memory)
    }
}

/// The fault's name, `Damaged`, or the refusal.
impl fmt::Display for PartFault {
    fn fmt<W: fmt::Write>(&self, f: &mut fmt::Formatter<W>) -> fmt::Result {
        match self {
            PartFault::Damaged => f.write_str("Damaged"),
            PartFault::Refused(refusal) => write!(f, "{refusal}"),
        }
    }
}

impl Error for PartFault {}

/// The first part that is at fault, by its index among those that were read, and its fault.
#[derive(Clone, Copy, Debug, PartialEq, Eq)]
pub struct PartRefusal {
    /// The place of the part at fault, from 0.
    pub part: usize,
    /// Why it isn't taken.
    pub fault: PartFault,
}

/// The part's place, from 0, and its fault.
impl fmt::Display for PartRefusal {
    fn fmt<W: fmt::Write>(&self, f: &mut fmt::Formatter<W>) -> fmt::Result {
        let PartRefusal { part, fault } = self;
        write!(f, "part {part}: {fault}")
    }
}

impl Error for PartRefusal {}
