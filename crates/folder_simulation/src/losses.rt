//! Every state that a loss of power may leave.

use crate::claims::{holds, is_name_of};
use crate::disk::{Disk, Name};

/// Whether a name that leads there leads to a part, on the disk, that holds a claim.
fn is_part_with(disk: &Disk, name: &Name, leads_to: Option<usize>, claim: u8) -> bool {
    let file = match leads_to {
        Some(number) => disk.files.get(number),
        None => None,
    };
    match file {
        Some(file) => {
            file.is_synced
                && holds(file.bytes.as_slice(), claim)
                && is_name_of(name.text.as_str(), file.bytes.as_slice())
        }
        None => false,
    }
}

/// Whether a name leads to a part that holds a claim, whatever a loss of power leaves of that name.
fn keeps(disk: &Disk, name: &Name, claim: u8) -> bool {
    for earlier in name.earlier.iter() {
        if !is_part_with(disk, name, *earlier, claim) {
            return false;
        }
    }
    is_part_with(disk, name, name.file, claim)
}

/// Whether a claim is held in every state that a loss of power may leave now. A loss leaves each name at what it leads to or at what it
/// led to since the folder was last synced, one name independent of the other. So a claim is held in every state if one name leads to a
/// part that holds it whatever is left of that name; and if there is no such name, there is a state without it.
pub fn is_safe(disk: &Disk, claim: u8) -> bool {
    for name in disk.names.iter() {
        if keeps(disk, name, claim) {
            return true;
        }
    }
    false
}
