//! The join of a folder's parts, which are taken one after another.
ghost use Rattle.std.specs.Prelude.{◌≡◌, Some, None, map, string_bytes, IfOk, IfErr};
ghost use Rattle.folder_commands.specs.Joined.{IsJoinedOf, IsStopped};
ghost use Rattle.folder_commands.specs.ReadParts.{More};
ghost use Rattle.folder_commands.specs.Relying.{AreRelied};

use crate::gathering::Gathers;
use crate::reliance::Reliance;
use folder_parts::{Join, PartFault};
use std::alloc::Global;

/// The join of the parts that were taken so far, if there are any, of which the bytes are not kept; and the names of those on which a
/// command relies.
#[derive(Drop)]
pub(crate) struct Joining {
    pub join: Option<Join>,
    pub relied: Vec<String>,
}

impl Joining {
    /// No part was taken yet.
    pub fn new(alloc: Global) -> Joining
        ensures { result.join ≡ None }
    {
        Joining {
            join: None,
            relied: Vec::new(alloc),
        }
    }
}

/// The join with one more part, the first one or a further one.
fn joined(alloc: Global, join: Option<Join>, name: &str, bytes: &[u8]) -> Result<Join, PartFault>
    ensures made { IfOk result (λ next. More (IsJoinedOf join) (IsJoinedOf (Some next)) (record { name = name.now; bytes = bytes.now })) }
    ensures stopped { IfErr result (λ fault. More (IsJoinedOf join) (IsStopped fault) (record { name = name.now; bytes = bytes.now })) }
{
    match join {
        Some(join) => join.with_part(alloc, name, bytes),
        None => Join::new(alloc, name, bytes),
    }
}

impl Gathers for Joining {
    type Way = Reliance;

    ghost made_of = { λ reliance made parts. IsJoinedOf made.join parts × AreRelied reliance (map string_bytes made.relied.items) parts };

    ghost stops = { λ reliance fault parts. IsStopped fault parts };

    /// Refused are what [`Join::new`] refuses of the first part, and what [`Join::with_part`] refuses of a further one.
    fn with(
        self,
        alloc: Global,
        way: &Reliance,
        name: &str,
        bytes: &[u8],
    ) -> Result<Joining, PartFault> {
        let Joining { join, relied } = self;
        let next = joined(alloc, join, name, bytes)?;
        let relied = way.with(alloc, relied, name, bytes)?;
        Ok(Joining {
            join: Some(next),
            relied,
        })
    }
}
