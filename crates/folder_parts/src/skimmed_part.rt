//! What of a part is read for a load under given names.
ghost use Rattle.std.specs.Prelude.{◌≡◌, IfErr, IfOk, IfSome, Ok};
ghost use Rattle.std.specs.List.{list_any};
ghost use Rattle.table_model.specs.declared.refusal.Refusal.TheVariants.{Memory};
ghost use Rattle.replica_changes.specs.Loads.{is_one_of};
ghost use Rattle.replica_reports.specs.Held.{held_in};
ghost use Rattle.replica_store.specs.Replica.{Replica};
ghost use Rattle.folder_parts.specs.PartReads.{IsListed, is_refusal_of_part};
ghost use Rattle.folder_parts.specs.PartName.{part_name};
ghost use Rattle.folder_parts.specs.Parts.{IsFaultOf};
ghost use Rattle.folder_parts.specs.Skims.{HasNoneOf, IsOpenedOr, SkimsDeletions, SkimsPart};

use crate::fault::PartFault;
use crate::joining::open_part;
use column_file::skim;
use replica_changes::is_one_of;
use replica_store::{Offer, Store};
use std::alloc::Global;
use table_model::{BatchName, Origin, Refusal};

/// The names of a load's batches: a number of consecutive ones from a first one on.
#[derive(Clone, Copy, Debug)]
pub struct LoadNames {
    pub first: BatchName,
    pub count: u32,
}

impl LoadNames {
    /// Whether one of some names is one of them.
    pub fn holds_any(&self, names: &[BatchName]) -> bool
        ensures { result ≡ list_any (is_one_of self.now.first self.now.count) names.now }
    {
        let LoadNames { first, count } = *self;
        names.iter().any(|name| is_one_of(first, count, *name))
    }
}

/// What was read of a part, as a store, and how many batches the part has.
#[derive(Drop)]
pub(crate) struct SkimmedPart {
    pub store: Store,
    pub batches: usize,
}

/// The deletions alone of a part with these bytes, if it has no batch of these names. None if it has one, and if the bytes are refused.
fn skim_deletions(
    alloc: Global,
    bytes: &[u8],
    names: LoadNames,
) -> Result<Option<SkimmedPart>, Refusal>
    ensures skimmed { (r : Replica) → held_in bytes.now ≡ Ok r → SkimsDeletions (λ part. part.store.replica) (λ part. part.batches) result names.first names.count r }
    ensures none { IfOk result (λ found. IfSome found (λ part. HasNoneOf names.first names.count bytes.now)) }
    ensures refused { IfErr result (λ e. e ≡ Memory) }
{
    let Ok(skimmed) = skim(alloc, bytes) else {
        return Ok(None);
    };
    if names.holds_any(skimmed.names.as_slice()) {
        return Ok(None);
    }
    let batches = skimmed.names.len();
    let offer = Offer::from_parts(skimmed.schema, Vec::new(alloc), skimmed.deleted);
    let store = offer.into_store(alloc, Origin(1))?;
    Ok(Some(SkimmedPart { store, batches }))
}

/// What is read of a part of this name for a load under these names: all that it holds, if it has a batch of such a name, and else its
/// deletions alone. A part of which only these are read isn't compared with its name, and its values may be at fault.
///
/// Refused are a name of other bytes (`Damaged`), and then what [`open`](column_file::open) refuses; `Memory` may come in the place of
/// either.
pub(crate) fn skim_part(
    alloc: Global,
    name: &str,
    bytes: &[u8],
    names: LoadNames,
) -> Result<SkimmedPart, PartFault>
    ensures skimmed { (r : Replica) → name.now ≡ part_name bytes.now → held_in bytes.now ≡ Ok r → SkimsPart (λ part. part.store.replica) (λ part. part.batches) result names.first names.count r }
    // It has no batch of these names; or its bytes were compared with its name, and it is opened.
    ensures opened { IfOk result (λ part. IsOpenedOr (HasNoneOf names.first names.count bytes.now) (record { name = name.now; bytes = bytes.now }) part.store.replica) }
    // A part that is refused is at fault.
    ensures fault { IfErr result (λ fault. IsFaultOf fault (record { name = name.now; bytes = bytes.now }) (held_in bytes.now)) }
    ensures listed { IfErr result (λ fault. IsListed is_refusal_of_part fault) }
{
    if let Some(part) = skim_deletions(alloc, bytes, names)? {
        return Ok(part);
    }
    let store = open_part(alloc, name, bytes)?;
    let batches = store.batches();
    Ok(SkimmedPart { store, batches })
}
