//! The heads of a folder's parts, which are read of the parts' first bytes.

use crate::folders::{Parts, SystemRound};
use crate::part_failures::{Unread, at_place, busy};
use crate::rounds::Rounds;
use crate::told_folder::ToldFolder;
use folder_parts::{HEAD_BYTES, Head, Part, PartFault, compare_part, part_head};
use folder_protocol::{Looks, Opened};
use program_failures::Failure;
use program_inputs::{Host, Watched, read_front};
use refusal_sentences::{CommandRefusal, KIND_BYTES};
use std::alloc::{AllocError, Global};
use std::fs::{File, Permissions};
use table_model::{Counted, Refusal, Schema};

/// What the heads of a folder's parts say.
#[derive(Drop)]
pub struct PartHeads {
    pub schema: Schema,
    /// How many batches each part has.
    pub batches: Vec<u32>,
    /// The permissions that a new part takes.
    pub permissions: Option<Permissions>,
}

/// What the heads of a folder's parts say. The smallest part's bytes are compared with its name.
pub fn read_heads<R: Host>(rt: &R, folder: &str) -> Result<PartHeads, Failure> {
    let mut rounds = Rounds::new(rt);
    for _ in 0..u64::MAX {
        match heads_once(rt, folder, rounds.is_careful()) {
            Ok(heads) => return Ok(heads),
            Err(why) => {
                if !rounds.again(rt, why)? {
                    break;
                }
            }
        }
    }
    Err(busy(rt.alloc(), folder))
}

/// Reads the heads for [`read_heads`] by one listing. It fails if a part was packed or forgotten meanwhile.
fn heads_once<R: Host>(rt: &R, folder: &str, is_careful: bool) -> Result<PartHeads, Unread> {
    let mut system = ToldFolder::open(rt, folder, None)?;
    let parts = Parts::listed_in(rt, folder, &mut system, is_careful)?;
    heads_of(rt, &mut system, parts.names())
}

/// What the heads of the parts of these names say, of which there is at least one. The smallest part's bytes are compared with its name.
fn heads_of<R: Host>(
    rt: &R,
    system: &mut SystemRound<'_, '_, R>,
    names: &[String],
) -> Result<PartHeads, Unread> {
    let mut buffer = vec![in rt.alloc(); 0u8; HEAD_BYTES]?;
    let mut batches = Vec::with_capacity(rt.alloc(), names.len())?;
    let mut first: Option<(usize, Schema)> = None;
    let mut smallest = (0, u64::MAX);
    for (index, name) in names.iter().enumerate() {
        let (head, size) = match head_of(rt, system, name.as_str(), buffer.as_mut_slice()) {
            Ok(both) => both,
            Err(Unread::Folder) => continue,
            Err(why) => return Err(why),
        };
        if size < smallest.1 {
            smallest = (index, size);
        }
        batches.push(head.batches)?;
        match &first {
            Some((at, schema)) if !schema.same(&head.schema) => {
                let last = (name.as_str(), &head.schema);
                let first = (at_place(names, *at), schema);
                return Err(of_other_head(rt, system, last, first));
            }
            Some(_) => {}
            None => first = Some((index, head.schema)),
        }
    }
    let Some((_, schema)) = first else {
        return Err(Unread::Folder);
    };
    compare(rt, system, at_place(names, smallest.0))?;
    Ok(PartHeads {
        schema,
        batches,
        permissions: system.permissions(),
    })
}

/// The head of the part of a name, which is read into this buffer, and how many bytes the part has.
fn head_of<R: Host>(
    rt: &R,
    system: &mut SystemRound<'_, '_, R>,
    name: &str,
    buffer: &mut [u8],
) -> Result<(Head, u64), Unread> {
    let mut opened = opened(system, name)?;
    let front = read_front(&mut opened.file, buffer);
    if let Some(error) = front.fault {
        return Err(system.unread(name, error.kind()));
    }
    let bytes = buffer.get(..front.length).unwrap_or(&[]);
    match part_head(rt.alloc(), bytes) {
        Ok(head) => Ok((head, opened.size)),
        Err(refusal) => Err(of_head(rt, system, name, refusal, bytes)),
    }
}

/// The file of the part of a name, open to be looked into.
fn opened<R: Host>(
    system: &mut SystemRound<'_, '_, R>,
    name: &str,
) -> Result<Opened<File>, Unread> {
    match system.open(name) {
        Ok(Some(opened)) => Ok(opened),
        Ok(None) => Err(Unread::Gone),
        Err(error) => Err(system.unread(name, error.kind())),
    }
}

/// Why the part of a name is refused, whose head is at fault and which begins with these bytes. If its bytes are not those of its name,
/// it is damaged.
fn of_head<R: Host>(
    rt: &R,
    system: &mut SystemRound<'_, '_, R>,
    name: &str,
    refusal: Refusal,
    bytes: &[u8],
) -> Unread {
    if refusal != Refusal::Memory && is_damaged(rt, system, name) {
        return of_part(rt, system, name, CommandRefusal::Damaged);
    }
    match system.path_of(name) {
        Ok(path) => {
            let beginning = bytes.get(..KIND_BYTES).unwrap_or(bytes);
            let refusal = CommandRefusal::from(refusal);
            Unread::from(Failure::of_input(rt, refusal, path.as_str(), beginning))
        }
        Err(lacking) => Unread::from(lacking),
    }
}

/// Why the last one of two parts is refused, of which these are the names and the tables. If the bytes of one of the two are not those of
/// its name, it is damaged.
fn of_other_head<R: Host>(
    rt: &R,
    system: &mut SystemRound<'_, '_, R>,
    last: (&str, &Schema),
    first: (&str, &Schema),
) -> Unread {
    for name in [last.0, first.0] {
        if is_damaged(rt, system, name) {
            return of_part(rt, system, name, CommandRefusal::Damaged);
        }
    }
    match (system.path_of(last.0), system.path_of(first.0)) {
        (Ok(path), Ok(other)) => {
            let (path, other) = (path.as_str(), other.as_str());
            Unread::from(Failure::of_tables(rt.alloc(), path, last.1, other, first.1))
        }
        _ => Unread::from(Failure::from(Refusal::Memory)),
    }
}

/// The refusal of the part of a name.
fn of_part<R: Host>(
    rt: &R,
    system: &SystemRound<'_, '_, R>,
    name: &str,
    refusal: CommandRefusal,
) -> Unread {
    match system.path_of(name) {
        Ok(path) => Unread::from(Failure::of_file(rt, refusal, path.as_str())),
        Err(lacking) => Unread::from(lacking),
    }
}

/// Compares the bytes of the part of a name with the name. Nothing of them is kept.
fn compare<R: Host>(rt: &R, system: &mut SystemRound<'_, '_, R>, name: &str) -> Result<(), Unread> {
    let file = opened(system, name)?.file;
    let mut part = named_part(rt.alloc(), name, file)?;
    let refusal = match compare_part(rt.alloc(), &mut part) {
        Ok(()) => return Ok(()),
        Err(PartFault::Refused(refusal)) => CommandRefusal::from(refusal),
        Err(PartFault::Damaged) => CommandRefusal::Damaged,
    };
    match part.into_reader().into_inner().reason() {
        Some(kind) => Err(system.unread(name, kind)),
        None => Err(of_part(rt, system, name, refusal)),
    }
}

/// Whether the part of a name can be read and has other bytes than the name says.
fn is_damaged<R: Host>(rt: &R, system: &mut SystemRound<'_, '_, R>, name: &str) -> bool {
    let Ok(opened) = opened(system, name) else {
        return false;
    };
    match named_part(rt.alloc(), name, opened.file) {
        Ok(mut part) => compare_part(rt.alloc(), &mut part) == Err(PartFault::Damaged),
        Err(_) => false,
    }
}

/// The part of a name, as its file is compared with the name.
fn named_part(alloc: Global, name: &str, file: File) -> Result<Part<Watched<File>>, AllocError> {
    let name = String::from_str(alloc, name)?;
    Ok(Part::new(name, Counted::new(Watched::new(file))))
}
