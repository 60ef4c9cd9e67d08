//! How a part is put in the place of those that were read to make it.
ghost use Rattle.std.specs.Prelude.{◌≡◌, None, map, filter, string_bytes, IfOk, IfErr};
ghost use Rattle.folder_model.specs.Call.{lock_of};
ghost use Rattle.folder_model.specs.Parts.{IsNoPart};
ghost use Rattle.folder_protocol.specs.Goes.{GoesInTurn};
ghost use Rattle.folder_protocol.specs.Taking.{UntakenCause};
ghost use Rattle.folder_parts.specs.Covers.{folder_parts};
ghost use Rattle.folder_parts.specs.PartName.{part_name};
ghost use Rattle.folder_commands.specs.ReadParts.{IfPartsRefused};
ghost use Rattle.folder_commands.specs.Refusals.{LacksMemory};
ghost use Rattle.folder_commands.specs.Replacing.{AreCoveredBy, Replaces};
ghost use Rattle.folder_commands.specs.Wanted.{goes};

use crate::reading::refused;
use crate::wanted::going;
use folder_parts::{PartRefusal, part_name};
use folder_protocol::{self, Folder, Outcome, Untaken};
use std::alloc::{AllocError, Global};
use table_model::Refusal;

/// What came of a part that was to be put in the place of others.
#[derive(Drop)]
pub struct Replaced {
    /// The part's name.
    pub name: String,
    /// The names of those that go.
    pub gone: Vec<String>,
    /// What came of it. None if one of those was gone already: then nothing was put or removed.
    pub outcome: Option<Outcome>,
}

/// The name of a part with these bytes, and the names of those that go once it has taken their place.
pub fn names_for(
    alloc: Global,
    passed: &[String],
    names: &[String],
    bytes: &[u8],
) -> Result<(String, Vec<String>), AllocError>
    ensures name { IfOk result (λ both. string_bytes both.0 ≡ part_name bytes.now) }
    ensures gone { IfOk result (λ both. map string_bytes both.1.items ≡ filter (goes (map string_bytes passed.now) (string_bytes both.0)) (map string_bytes names.now)) }
{
    let name = part_name(alloc, bytes)?;
    let gone = going(alloc, passed, name.as_str(), names)?;
    Ok((name, gone))
}

/// Puts a part with these bytes, by a temporary of a new name, in the place of the parts of these names that are wanted, which were read
/// and which it covers.
pub(crate) fn replace_read<F: Folder>(
    alloc: Global,
    folder: &mut F,
    temporary: &str,
    passed: &[String],
    names: &[String],
    bytes: &[u8],
) -> Result<Replaced, Untaken<PartRefusal>>
    // Each call is in turn.
    ensures in_turn { IsNoPart folder_parts temporary.now → AreCoveredBy (map string_bytes passed.now) (map string_bytes names.now) bytes.now (F.history folder.old) → GoesInTurn folder_parts (F.history folder.old) (F.history folder.new) }
    // The part is named by its bytes, and those that are wanted go, but for itself.
    ensures replaces { IfOk result (λ done. Replaces (map string_bytes passed.now) (map string_bytes names.now) bytes.now (string_bytes done.name) (map string_bytes done.gone.items) done.outcome (F.history folder.old) (F.history folder.new)) }
    ensures refused { IfPartsRefused result LacksMemory }
    ensures cause { IfErr result (λ fault. UntakenCause fault (F.history folder.old) (F.history folder.new)) }
    // It leaves no lock.
    ensures unlocked { lock_of (F.history folder.old) ≡ None → lock_of (F.history folder.new) ≡ None }
{
    let (name, gone) = match names_for(alloc, passed, names, bytes) {
        Ok(both) => both,
        Err(_) => return Err(refused(Refusal::Memory)),
    };
    match folder_protocol::replace(
        alloc,
        folder,
        temporary,
        name.as_str(),
        bytes,
        gone.as_slice(),
    ) {
        Ok(outcome) => Ok(Replaced {
            name,
            gone,
            outcome,
        }),
        Err(error) => Err(Untaken::Failed(error)),
    }
}
