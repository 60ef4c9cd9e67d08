//! What of a folder's parts is read for a load under given names.
ghost use Rattle.std.specs.Prelude.{◌≡◌, List, ℕ, Err, Some, None, map, string_bytes, IfOk, IfErr, IfSome};
ghost use Rattle.folder_model.specs.Turn.{listing_of};
ghost use Rattle.folder_protocol.specs.Goes.{GoesInTurn};
ghost use Rattle.folder_protocol.specs.Sweeping.{RemovesOnly};
ghost use Rattle.folder_protocol.specs.Taking.{UntakenCause};
ghost use Rattle.folder_parts.specs.Covers.{folder_parts};
ghost use Rattle.folder_parts.specs.PartReads.{IsListed, is_refusal_of_part};
ghost use Rattle.folder_commands.specs.Joined.{AreGiven, AreUnwanted, WereGiven};
ghost use Rattle.folder_commands.specs.ReadParts.{IfPartsRefused, More};
ghost use Rattle.folder_commands.specs.Relying.{AreReadRelied, AreRelied};
ghost use Rattle.folder_commands.specs.Skims.{AreSkimmedAs, IsSkimRefused, IsSkimOf, SkimsRead};
ghost use Rattle.folder_commands.specs.declared.reliance.Reliance.TheVariants.{Load};
ghost use Rattle.folder_commands.specs.Wanted.{wanted_of};

use crate::gathering::{Gathers, gather_each};
use crate::reading::refused;
use crate::reliance::Reliance;
use folder_parts::{LoadNames, PartFault, PartRefusal, Skim, SkimmedParts};
use folder_protocol::{Folder, Untaken, list_names};
use std::alloc::Global;

/// What was read of a folder's parts for a load under given names.
#[derive(Drop)]
pub struct Skimmed {
    /// The names that the folder has.
    pub names: Vec<String>,
    /// What was read of its parts.
    pub held: SkimmedParts,
    /// The names of those that have a batch of one of the load's names.
    pub relied: Vec<String>,
}

/// What was read of the parts so far, if there are any, and the names of those that have a batch of one of the load's names.
#[derive(Drop)]
struct Skimming {
    skim: Option<Skim>,
    relied: Vec<String>,
}

/// What was read of parts, if there were any, with what is read of one more.
///
/// Refused are what [`Skim::new`] refuses of the first part, and what [`Skim::with_part`] refuses of a further one.
pub fn skim_more(
    alloc: Global,
    had: Option<Skim>,
    name: &str,
    bytes: &[u8],
    names: LoadNames,
) -> Result<Skim, PartFault>
    ensures made { IfOk result (λ next. More (IsSkimOf had names.first names.count) (IsSkimOf (Some next) names.first names.count) (record { name = name.now; bytes = bytes.now })) }
    ensures stopped { IfErr result (λ fault. More (IsSkimOf had names.first names.count) (SkimsRead (Err fault) names.first names.count) (record { name = name.now; bytes = bytes.now })) }
    ensures listed { IfErr result (λ fault. IsListed is_refusal_of_part fault) }
{
    match had {
        Some(skim) => skim.with_part(alloc, name, bytes, names),
        None => Skim::new(alloc, name, bytes, names),
    }
}

impl Gathers for Skimming {
    type Way = LoadNames;

    ghost made_of = { λ names made parts. IsSkimOf made.skim names.first names.count parts × AreRelied (Load names) (map string_bytes made.relied.items) parts };

    ghost stops = { λ names fault parts. SkimsRead (Err fault) names.first names.count parts × IsListed is_refusal_of_part fault };

    /// Refused are what [`Skim::new`] refuses of the first part, and what [`Skim::with_part`] refuses of a further one.
    fn with(
        self,
        alloc: Global,
        way: &LoadNames,
        name: &str,
        bytes: &[u8],
    ) -> Result<Skimming, PartFault> {
        let Skimming { skim, relied } = self;
        let next = skim_more(alloc, skim, name, bytes, *way)?;
        let relied = Reliance::Load(*way).with(alloc, relied, name, bytes)?;
        Ok(Skimming {
            skim: Some(next),
            relied,
        })
    }
}

/// What loads are answered from once the parts of those names that are wanted are read. None if none is.
fn skim_named<F: Folder>(
    alloc: Global,
    folder: &mut F,
    passed: &[String],
    listed: &[String],
    names: LoadNames,
) -> Result<Option<(SkimmedParts, Vec<String>)>, Untaken<PartRefusal>>
    ensures in_turn { GoesInTurn folder_parts (F.history folder.old) (F.history folder.new) }
    ensures listing { listing_of (F.history folder.new) ≡ listing_of (F.history folder.old) }
    ensures answers { IfOk result (λ answer. IfSome answer (λ both. AreSkimmedAs both.0 (map string_bytes passed.now) (map string_bytes listed.now) names.first names.count (F.history folder.old) (F.history folder.new))) }
    ensures relied { IfOk result (λ answer. IfSome answer (λ both. AreReadRelied (Load names) (map string_bytes both.1.items) (wanted_of (map string_bytes passed.now) (map string_bytes listed.now)) (F.history folder.old) (F.history folder.new))) }
    ensures refused { AreGiven (map string_bytes listed.now) (F.history folder.old) → IfPartsRefused result (λ refusal. IsSkimRefused refusal (map string_bytes passed.now) names.first names.count (F.history folder.old) (F.history folder.new)) }
    ensures none { IfOk result (λ answer. answer ≡ None → AreUnwanted (map string_bytes passed.now) (map string_bytes listed.now)) }
    ensures cause { IfErr result (λ fault. UntakenCause fault (F.history folder.old) (F.history folder.new)) }
    ensures unremoved { RemovesOnly (λ name. ⊥) (F.history folder.old) (F.history folder.new) }
{
    let start = Skimming {
        skim: None,
        relied: Vec::new(alloc),
    };
    let Skimming { skim, relied } = match gather_each(
        alloc, folder, passed, listed, &names, start,
    ) {
        Ok(skimming) => skimming,
        Err(fault) => return Err(fault),
    };
    let Some(skim) = skim else {
        return Ok(None);
    };
    match skim.into_parts(alloc) {
        Ok(parts) => Ok(Some((parts, relied))),
        Err(refusal) => Err(refused(refusal)),
    }
}

/// What of a folder's parts is read for a load under these names, one part after another, once the folder is listed. A part that has a
/// batch of such a name is compared with its name and opened, and of any other its deletions alone are read: that one is neither compared
/// with its name nor judged behind them. If the batches that were counted and those of the load are too many
/// (`SkimmedParts::has_room`), all parts are to be joined.
///
/// None if the folder has no part. Some names may be passed over. Refused is a part that [`Skim`] refuses; its place is counted from 0
/// among those that were read, and 0 if the refusal is of none of them, as out of memory.
pub fn skim_folder<F: Folder>(
    alloc: Global,
    folder: &mut F,
    passed: &[String],
    names: LoadNames,
) -> Result<Option<Skimmed>, Untaken<PartRefusal>>
    // Each call is in turn.
    ensures in_turn { GoesInTurn folder_parts (F.history folder.old) (F.history folder.new) }
    // Its names are those that a listing gave.
    ensures listed { IfOk result (λ answer. IfSome answer (λ s. WereGiven (map string_bytes s.names.items) (F.history folder.old) (F.history folder.new))) }
    // Each part that is wanted was read, and if these are whole, loads are answered as from all of them.
    ensures answers { IfOk result (λ answer. IfSome answer (λ s. AreSkimmedAs s.held (map string_bytes passed.now) (map string_bytes s.names.items) names.first names.count (F.history folder.old) (F.history folder.new))) }
    // Of each part that was read and has a batch of one of the names, the name is among those that are told.
    ensures relied { IfOk result (λ answer. IfSome answer (λ s. AreReadRelied (Load names) (map string_bytes s.relied.items) (wanted_of (map string_bytes passed.now) (map string_bytes s.names.items)) (F.history folder.old) (F.history folder.new))) }
    // If a part is refused, those up to it were read; if these are whole, memory ran out.
    ensures refused { IfPartsRefused result (λ refusal. IsSkimRefused refusal (map string_bytes passed.now) names.first names.count (F.history folder.old) (F.history folder.new)) }
    // None if a listing gave no part's name, but for those that are passed over.
    ensures none { IfOk result (λ answer. answer ≡ None → (given : List (List ℕ)) × WereGiven given (F.history folder.old) (F.history folder.new) × AreUnwanted (map string_bytes passed.now) given) }
    // An error has its cause: a part that was gone, a call that failed, or a part that is refused.
    ensures cause { IfErr result (λ fault. UntakenCause fault (F.history folder.old) (F.history folder.new)) }
    // It removes no name, whatever the answer is.
    ensures unremoved { RemovesOnly (λ name. ⊥) (F.history folder.old) (F.history folder.new) }
{
    let listed = match list_names(alloc, folder) {
        Ok(listed) => listed,
        Err(error) => return Err(Untaken::Failed(error)),
    };
    match skim_named(alloc, folder, passed, listed.as_slice(), names) {
        Ok(Some((held, relied))) => Ok(Some(Skimmed {
            names: listed,
            held,
            relied,
        })),
        Ok(None) => Ok(None),
        Err(fault) => Err(fault),
    }
}
