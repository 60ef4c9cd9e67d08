//! How the parts of a folder are read, and given to what takes them.
ghost use Rattle.std.specs.Prelude.{◌≡◌, ◌∷◌, ◌⊎◌, List, ℕ, None, map, true, false, IfOk, IfErr, OnOk};
ghost use Rattle.std.specs.String.{string_bytes};
ghost use Rattle.folder_model.specs.Call.{lock_of};
ghost use Rattle.folder_model.specs.Disk.{Among};
ghost use Rattle.folder_model.specs.Parts.{Parts, IsNoPart};
ghost use Rattle.folder_model.specs.Turn.{Gave, listing_of};
ghost use Rattle.folder_protocol.specs.Goes.{GoesInTurn};
ghost use Rattle.folder_protocol.specs.Linking.{GoesPlainly};
ghost use Rattle.folder_protocol.specs.Reads.{KeepsRead, HasFound};
ghost use Rattle.folder_protocol.specs.Taking.{IsTaken, AreReadSince, UntakenCause};

use crate::Folder;
use crate::listing::list_names;
use std::alloc::Global;
use std::io;

/// What takes the parts of a folder, one after another.
pub trait Taker {
    /// What the name of a part with these bytes is.
    ghost name_of: { Self → List ℕ → List ℕ };

    /// Which names it may pass over.
    ghost passes: { Self → List ℕ → Type 0 };

    /// Which names it wants.
    ghost wanted: { Self → List ℕ → Type 0 };

    /// The bytes of the parts that it has taken, the newest first.
    ghost taken: { Self → List (List ℕ) };

    /// Why it refuses parts.
    type Fault: Drop;

    /// Hears which names the folder has, before it takes any of them.
    fn begin(&mut self, names: &[String]) -> Result<(), Self::Fault>
        ensures named { name_of self.new ≡ name_of self.old }
        ensures passing { (name : List ℕ) → passes self.new name → passes self.old name };

    /// Whether the file of a name is to be read.
    fn wants(&self, name: &str) -> bool
        ensures passing { result ≡ false → passes self.now name.now }
        ensures wanting { result ≡ true → wanted self.now name.now };

    /// Takes the part of a name, if it is the one with these bytes.
    fn take(&mut self, alloc: Global, name: &str, bytes: &[u8]) -> Result<(), Self::Fault>
        ensures named { name_of self.new ≡ name_of self.old }
        ensures passing { (other : List ℕ) → passes self.new other → passes self.old other }
        ensures is_its_name { OnOk result (name.now ≡ name_of self.old bytes.now) }
        ensures taken { OnOk result (taken self.new ≡ bytes.now ∷ taken self.old) };
}

/// Why the parts of a folder were not all taken.
#[derive(Debug, Drop)]
pub enum Untaken<E> {
    /// One of them is gone since it was listed: begin anew.
    Gone,
    /// A call failed, with this error.
    Failed(io::Error),
    /// What takes them refuses one, or all.
    Refused(E),
}

/// Reads all parts of a folder that are wanted, in the order in which they are listed; and the names that the folder has.
pub fn take_all<F: Folder, T: Taker>(
    alloc: Global,
    folder: &mut F,
    taker: &mut T,
) -> Result<Vec<String>, Untaken<T::Fault>>
    // Each call is in turn.
    ensures in_turn { (parts : Parts) → GoesInTurn parts (F.history folder.old) (F.history folder.new) }
    // All that a listing under the lock gave was read and taken, if only what is no part was passed over.
    ensures found { (parts : Parts) → parts.name_of ≡ T.name_of taker.old → ((name : List ℕ) → T.passes taker.old name → IsNoPart parts name) → OnOk result (HasFound parts (F.history folder.new) (T.taken taker.new)) }
    // These are the names that the last listing gave.
    ensures listed { IfOk result (λ names. listing_of (F.history folder.new) ≡ Gave (map string_bytes names.items)) }
    // That not all were taken has its cause.
    ensures cause { IfErr result (λ fault. UntakenCause fault (F.history folder.old) (F.history folder.new)) }
    // It leaves no lock, whatever the answer is.
    ensures unlocked { lock_of (F.history folder.new) ≡ None }
{
    let listed = match list_names(alloc, folder) {
        Ok(listed) => listed,
        Err(error) => return Err(Untaken::Failed(error)),
    };
    match take_listed(alloc, folder, taker, listed.as_slice()) {
        Ok(()) => Ok(listed),
        Err(fault) => Err(fault),
    }
}

/// Reads the parts that are wanted of those that were listed.
pub fn take_listed<F: Folder, T: Taker>(
    alloc: Global,
    folder: &mut F,
    taker: &mut T,
    names: &[String],
) -> Result<(), Untaken<T::Fault>>
    ensures in_turn { (parts : Parts) → GoesInTurn parts (F.history folder.old) (F.history folder.new) }
    ensures listing { OnOk result (listing_of (F.history folder.new) ≡ listing_of (F.history folder.old)) }
    ensures taken { (parts : Parts) → parts.name_of ≡ T.name_of taker.old → OnOk result ((name : List ℕ) → Among name (map string_bytes names.now) → T.passes taker.old name ⊎ IsTaken parts (F.history folder.new) (T.taken taker.new) name) }
    ensures cause { IfErr result (λ fault. UntakenCause fault (F.history folder.old) (F.history folder.new)) }
    ensures plain { GoesPlainly (F.history folder.old) (F.history folder.new) }
{
    match taker.begin(names) {
        Ok(()) => take_each(alloc, folder, taker, names),
        Err(fault) => Err(Untaken::Refused(fault)),
    }
}

/// Reads the parts of these names that are wanted.
pub fn take_each<F: Folder, T: Taker>(
    alloc: Global,
    folder: &mut F,
    taker: &mut T,
    names: &[String],
) -> Result<(), Untaken<T::Fault>>
    // Each call is in turn.
    ensures in_turn { (parts : Parts) → GoesInTurn parts (F.history folder.old) (F.history folder.new) }
    ensures named { T.name_of taker.new ≡ T.name_of taker.old }
    ensures passing { (name : List ℕ) → T.passes taker.new name → T.passes taker.old name }
    ensures listing { OnOk result (listing_of (F.history folder.new) ≡ listing_of (F.history folder.old)) }
    // Each name may be passed over, or its part was read and taken.
    ensures taken { (parts : Parts) → parts.name_of ≡ T.name_of taker.old → OnOk result ((name : List ℕ) → Among name (map string_bytes names.now) → T.passes taker.old name ⊎ IsTaken parts (F.history folder.new) (T.taken taker.new) name) }
    // Nothing was taken but what was read.
    ensures only { (parts : Parts) → parts.name_of ≡ T.name_of taker.old → OnOk result (AreReadSince parts (T.taken taker.old) (T.taken taker.new) (F.history folder.new)) }
    ensures cause { IfErr result (λ fault. UntakenCause fault (F.history folder.old) (F.history folder.new)) }
    // It gives no name, changes no lock, and lists nothing.
    ensures plain { GoesPlainly (F.history folder.old) (F.history folder.new) }
{
    let mut at = 0;
    while at < names.len() {
        match take_one(alloc, folder, taker, names[at].as_str()) {
            Ok(()) => at += 1,
            Err(fault) => return Err(fault),
        }
    }
    Ok(())
}

/// Reads the part of a name, if it is wanted.
fn take_one<F: Folder, T: Taker>(
    alloc: Global,
    folder: &mut F,
    taker: &mut T,
    name: &str,
) -> Result<(), Untaken<T::Fault>>
    ensures in_turn { (parts : Parts) → GoesInTurn parts (F.history folder.old) (F.history folder.new) }
    ensures named { T.name_of taker.new ≡ T.name_of taker.old }
    ensures passing { (other : List ℕ) → T.passes taker.new other → T.passes taker.old other }
    ensures keeps { (parts : Parts) → OnOk result (KeepsRead parts (F.history folder.old) (T.taken taker.old) (F.history folder.new) (T.taken taker.new)) }
    ensures only { (parts : Parts) → parts.name_of ≡ T.name_of taker.old → OnOk result (AreReadSince parts (T.taken taker.old) (T.taken taker.new) (F.history folder.new)) }
    ensures one { (parts : Parts) → parts.name_of ≡ T.name_of taker.old → OnOk result (T.passes taker.old name.now ⊎ IsTaken parts (F.history folder.new) (T.taken taker.new) name.now) }
    ensures cause { IfErr result (λ fault. UntakenCause fault (F.history folder.old) (F.history folder.new)) }
    ensures plain { GoesPlainly (F.history folder.old) (F.history folder.new) }
{
    if !taker.wants(name) {
        return Ok(());
    }
    match folder.read(alloc, name) {
        Ok(Some(bytes)) => match taker.take(alloc, name, bytes.as_slice()) {
            Ok(()) => Ok(()),
            Err(fault) => Err(Untaken::Refused(fault)),
        },
        Ok(None) => Err(Untaken::Gone),
        Err(error) => Err(Untaken::Failed(error)),
    }
}
