//! What is made of the parts of a folder that are read one after another.
ghost use Rattle.std.specs.Prelude.{◌≡◌, ℕ, List, [], map, string_bytes, IfOk, IfErr};
ghost use Rattle.folder_model.specs.Turn.{listing_of};
ghost use Rattle.folder_protocol.specs.Goes.{GoesInTurn};
ghost use Rattle.folder_protocol.specs.Linking.{GoesPlainly};
ghost use Rattle.folder_protocol.specs.Sweeping.{RemovesOnly};
ghost use Rattle.folder_protocol.specs.Taking.{UntakenCause};
ghost use Rattle.folder_parts.specs.Covers.{folder_parts};
ghost use Rattle.folder_parts.specs.Parts.{PartForm};
ghost use Rattle.folder_parts.specs.declared.fault.PartFault.{PartFault};
ghost use Rattle.folder_commands.specs.ReadParts.{AreReadSoFar, IfPartsRefused, More, ReadsOne, StopsAtFault};
ghost use Rattle.folder_commands.specs.Wanted.{wanted_of};

use crate::wanted::is_wanted;
use folder_parts::{PartFault, PartRefusal};
use folder_protocol::{Folder, Untaken};
use std::alloc::Global;

/// What is made of parts that come one after another.
pub(crate) trait Gathers: Drop {
    /// How it is made of each of them.
    type Way: Drop;

    /// What is so of what was made, and of the parts that it was made of, in their order.
    ghost made_of: { Self.Way → Self → List PartForm → Type 0 };

    /// What is so of a fault, and of parts of which the last one has it.
    ghost stops: { Self.Way → PartFault → List PartForm → Type 0 };

    /// What is made with one part more. A part is refused if it is at fault, by itself or together with those before it.
    fn with(
        self,
        alloc: Global,
        way: &Self::Way,
        name: &str,
        bytes: &[u8],
    ) -> Result<Self, PartFault>
        ensures made { IfOk result (λ next. More (made_of way.now self) (made_of way.now next) (record { name = name.now; bytes = bytes.now })) }
        ensures stopped { IfErr result (λ fault. More (made_of way.now self) (stops way.now fault) (record { name = name.now; bytes = bytes.now })) };
}

/// What is made with one part more, once the part of that name is read. Its place is told if it is refused.
fn gather_one<F: Folder, G: Gathers>(
    alloc: Global,
    folder: &mut F,
    way: &G::Way,
    made: G,
    place: usize,
    name: &str,
) -> Result<G, Untaken<PartRefusal>>
    ensures in_turn { GoesInTurn folder_parts (F.history folder.old) (F.history folder.new) }
    ensures listing { listing_of (F.history folder.new) ≡ listing_of (F.history folder.old) }
    ensures one { IfOk result (λ next. ReadsOne name.now (More (G.made_of way.now made) (G.made_of way.now next)) (F.history folder.old) (F.history folder.new)) }
    ensures refused { IfPartsRefused result (λ refusal. (refusal.part ≡ place) × ReadsOne name.now (More (G.made_of way.now made) (G.stops way.now refusal.fault)) (F.history folder.old) (F.history folder.new)) }
    ensures cause { IfErr result (λ fault. UntakenCause fault (F.history folder.old) (F.history folder.new)) }
    ensures plain { GoesPlainly (F.history folder.old) (F.history folder.new) }
    ensures unremoved { RemovesOnly (λ name. ⊥) (F.history folder.old) (F.history folder.new) }
{
    match folder.read(alloc, name) {
        Ok(Some(bytes)) => match made.with(alloc, way, name, bytes.as_slice()) {
            Ok(next) => Ok(next),
            Err(fault) => Err(Untaken::Refused(PartRefusal { part: place, fault })),
        },
        Ok(None) => Err(Untaken::Gone),
        Err(error) => Err(Untaken::Failed(error)),
    }
}

/// What is made of the parts of those names that are wanted, which are read one after another, from this on, which is made of none.
pub(crate) fn gather_each<F: Folder, G: Gathers>(
    alloc: Global,
    folder: &mut F,
    passed: &[String],
    listed: &[String],
    way: &G::Way,
    start: G,
) -> Result<G, Untaken<PartRefusal>>
    ensures in_turn { GoesInTurn folder_parts (F.history folder.old) (F.history folder.new) }
    ensures listing { listing_of (F.history folder.new) ≡ listing_of (F.history folder.old) }
    // Each part was read, and this is what is made of them.
    ensures read { G.made_of way.now start [] → IfOk result (λ made. (many : ℕ) × AreReadSoFar (G.made_of way.now made) many (wanted_of (map string_bytes passed.now) (map string_bytes listed.now)) (F.history folder.old) (F.history folder.new)) }
    // If a part is refused, those up to it were read, and this is so of them.
    ensures refused { G.made_of way.now start [] → IfPartsRefused result (λ refusal. StopsAtFault (G.stops way.now) refusal (wanted_of (map string_bytes passed.now) (map string_bytes listed.now)) (F.history folder.old) (F.history folder.new)) }
    ensures cause { IfErr result (λ fault. UntakenCause fault (F.history folder.old) (F.history folder.new)) }
    ensures plain { GoesPlainly (F.history folder.old) (F.history folder.new) }
    ensures unremoved { RemovesOnly (λ name. ⊥) (F.history folder.old) (F.history folder.new) }
{
    let mut made = start;
    let mut count = 0;
    for index in 0..listed.len() {
        let name = listed[index].as_str();
        if is_wanted(passed, name) {
            match gather_one(alloc, folder, way, made, count, name) {
                Ok(next) => {
                    made = next;
                    count += 1;
                }
                Err(fault) => return Err(fault),
            }
        }
    }
    Ok(made)
}
