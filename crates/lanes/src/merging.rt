//! The merge of files and of folders.

use command_line::{Merge, Source, not_for_a_folder};
use either::Either;
use file_commands::{Left, merged};
use folder_parts::PartFault;
use folder_system::path_in;
use program_changes::{Done, Headed, Heads, Reply, say};
use program_failures::Failure;
use program_files::{Output, is_special, write_in_place};
use program_folders::{
    CheckedPart, PartReason, Parts, Rounds, Unread, at_place, make_folder, refused, unread_for,
};
use program_inputs::{Home, Host, LazyFile, Progress, Told, is_folder};
use refusal_sentences::CommandRefusal;
use std::alloc::{AllocError, Global};
use std::fs::{self, Files};
use std::io::{ErrorKind, Read};
use std::os::unix::fs::MetadataExt;
use table_model::{Counted, READ_CHUNK, Refusal};

/// What is said of an OUT that is no table's file.
const NO_TABLE: &str =
    "this is there and holds no table: choose another OUT, or write over this one by --replace (lanes apply OUT IN.. adds files to a table)";

/// What is said of an OUT that has another table.
const OTHER_TABLE: &str =
    "this is there and holds another table: choose another OUT, or write over this one by --replace (lanes apply OUT IN.. adds files of one table)";

/// What is said of an OUT that has more than the result, or other rows.
const MORE_IN_OUT: &str =
    "this is there and holds rows or deletions that the result does not have: lanes apply OUT IN.. adds the files to it, and --replace writes over it";

/// What to do instead of a merge into a folder that is there.
const NO_FOLDER: &str =
    "OUT is a folder: lanes apply FOLDER FILE.. adds files to it, and a name that ends in / makes a new one";

/// Writes the canonical file of what all of some files hold, of which there is at least one, and then `ok`, unless it is to be quiet
/// or what is written is no regular file, since that may be standard output itself. The files are judged in order. The one that is
/// written is replaced whole, and if it is one of them its lock is taken at the beginning. If it is there and is not one of them, it is
/// replaced only if what is written has all that it holds, or if that is asked for. For a folder among them its parts are read. A name
/// that ends in `/` is that of a folder that is made, with what is written as its one part.
pub fn merge<R: Host>(
    rt: &R,
    progress: &Progress<'_, R>,
    asked: &Merge<'_>,
) -> Result<(), Failure> {
    let names = asked.files.as_slice();
    let home = Home::to_make(asked.out);
    let left = match home {
        Home::Folder(out) => merge_into_folder(rt, progress, out, names)?,
        Home::File(out) if is_folder(rt, out) => {
            return Err(Failure::from(not_for_a_folder(rt.alloc(), NO_FOLDER)));
        }
        Home::File(out) if is_special(rt, out) => return fill(rt, progress, out, names),
        Home::File(out) => replace(rt, progress, out, names, asked.is_replacing)?,
    };
    say(rt, home, &Done::new(Reply::Created, left), asked.is_quiet)
}

/// Makes a folder whose one part is what all of some files hold.
fn merge_into_folder<R: Host>(
    rt: &R,
    progress: &Progress<'_, R>,
    out: &str,
    names: &[&str],
) -> Result<Left, Failure> {
    let bytes = merged_as_named(rt, progress, names)?;
    Ok(Left::Changed(make_folder(rt, out, bytes.as_slice())?))
}

/// Writes what all of some files hold to what is no regular file.
fn fill<R: Host>(
    rt: &R,
    progress: &Progress<'_, R>,
    out: &str,
    names: &[&str],
) -> Result<(), Failure> {
    let bytes = merged_as_named(rt, progress, names)?;
    write_in_place(rt, out, bytes.as_slice())
}

/// Replaces a file by what all of some files hold. Those that are the file itself are read under the name that its lock is of, so that a
/// link that is switched meanwhile changes nothing. If one of them is the file itself and nothing changed, the file is synced as it is.
fn replace<R: Host>(
    rt: &R,
    progress: &Progress<'_, R>,
    out: &str,
    names: &[&str],
    is_replacing: bool,
) -> Result<Left, Failure> {
    let own = own_among(rt, out, names)?;
    let is_own = own.contains(&true);
    let mut output = Output::new(rt, out)?;
    if is_own {
        output.hold(rt);
    }
    let bytes = match merged_with_own(rt, progress, names, own.as_slice(), output.name()) {
        Ok(bytes) => bytes,
        Err(failure) => {
            output.leave();
            return Err(failure);
        }
    };
    if is_own {
        return if output.is_held() && has_bytes(rt, output.name(), bytes.as_slice()) {
            Ok(output.keep())
        } else {
            output.replace(rt, out, bytes.as_slice())
        };
    }
    output.hold(rt);
    if let Some(failure) = kept_by(rt, out, output.name(), bytes.as_slice(), is_replacing) {
        output.leave();
        return Err(failure);
    }
    output.replace(rt, out, bytes.as_slice())
}

/// Why a file that is there is not replaced by these bytes, unless that is asked for: they lack some of what it holds, or it can't be
/// read. `out` is what it is called in a sentence. None if it is replaced.
fn kept_by<R: Host>(
    rt: &R,
    out: &str,
    name: &str,
    bytes: &[u8],
    is_replacing: bool,
) -> Option<Failure> {
    if is_replacing || is_empty(rt, name) || has_bytes(rt, name, bytes) {
        return None;
    }
    let mut result = Counted::new(Either::Left(bytes));
    let mut file = [Counted::new(Either::Right(LazyFile::new(rt, name)))];
    let words = match merged(rt.alloc(), &mut result, file.as_mut_slice()) {
        Ok(both) if both.as_slice() == bytes => return None,
        Ok(_) | Err(Refusal::Conflict(_) | Refusal::Full) => MORE_IN_OUT,
        Err(Refusal::SchemaDiffers) => OTHER_TABLE,
        Err(Refusal::ReadFault) => {
            return Some(Failure::of_file(rt, CommandRefusal::from(Refusal::ReadFault), out));
        }
        Err(Refusal::Memory) => return Some(Failure::from(Refusal::Memory)),
        Err(_) => NO_TABLE,
    };
    Some(Failure::advised(rt.alloc(), CommandRefusal::Exists, out, words))
}

/// Whether nothing has a name, or a file without a byte has it.
fn is_empty<R: Files>(rt: &R, name: &str) -> bool {
    match fs::metadata(rt, name) {
        Ok(found) => found.is_file() && found.len() == 0,
        Err(error) => error.kind() == ErrorKind::NotFound,
    }
}

/// Whether a file has these bytes, and no others.
fn has_bytes<R: Files + AllocGlobal>(rt: &R, name: &str, bytes: &[u8]) -> bool {
    let Ok(mut chunk) = vec![in rt.alloc(); 0u8; READ_CHUNK] else {
        return false;
    };
    let mut reader = LazyFile::new(rt, name);
    let mut left = bytes;
    for _ in 0..u64::MAX {
        match reader.read(chunk.as_mut_slice()) {
            Ok(0) => return left.is_empty(),
            Ok(count) => match left.strip_prefix(&chunk.as_slice()[..count.min(READ_CHUNK)]) {
                Some(rest) => left = rest,
                None => return false,
            },
            Err(_) => return false,
        }
    }
    false
}

/// The canonical file of what all of some files hold, each read under the name that it has on the command line.
fn merged_as_named<R: Host>(
    rt: &R,
    progress: &Progress<'_, R>,
    names: &[&str],
) -> Result<Vec<u8>, Failure> {
    let mut sources = Vec::new(rt.alloc());
    for name in names {
        sources.push(*name)?;
    }
    merged_files(rt, progress, names, sources.as_slice())
}

/// The canonical file of what all of some files hold, of which those that are the file itself are read under its own name.
fn merged_with_own<R: Host>(
    rt: &R,
    progress: &Progress<'_, R>,
    names: &[&str],
    own: &[bool],
    own_name: &str,
) -> Result<Vec<u8>, Failure> {
    let mut sources = Vec::new(rt.alloc());
    for (name, is_own) in names.iter().zip(own.iter()) {
        sources.push(if *is_own { own_name } else { *name })?;
    }
    merged_files(rt, progress, names, sources.as_slice())
}

/// Of each of these names whether it leads to a file.
fn own_among<R: Files + AllocGlobal>(
    rt: &R,
    file: &str,
    names: &[&str],
) -> Result<Vec<bool>, AllocError> {
    let mut own = Vec::new(rt.alloc());
    for name in names {
        own.push(is_same(rt, file, *name))?;
    }
    Ok(own)
}

/// Whether two names lead to one file.
fn is_same<R: Files>(rt: &R, one: &str, other: &str) -> bool {
    let (Ok(one), Ok(other)) = (fs::metadata(rt, one), fs::metadata(rt, other)) else {
        return false;
    };
    one.ino() == other.ino() && one.dev() == other.dev()
}

/// The canonical file of what all of some files and folders hold, which are read from these sources and called by these names in a
/// sentence.
fn merged_files<R: Host>(
    rt: &R,
    progress: &Progress<'_, R>,
    names: &[&str],
    sources: &[&str],
) -> Result<Vec<u8>, Failure> {
    let mut rounds = Rounds::new(rt);
    for _ in 0..u64::MAX {
        let (inputs, fault) = Inputs::of(rt, names, sources, rounds.is_careful())?;
        let outcome = if fault.is_some() && inputs.paths.as_slice().is_empty() {
            Ok(Vec::new(rt.alloc()))
        } else {
            merged_inputs(rt, &*progress, &inputs)
        };
        match outcome {
            Ok(bytes) => return told_last(bytes, fault),
            Err(why) => {
                if !rounds.again(rt, why)? {
                    break;
                }
            }
        }
    }
    Err(Failure::of(rt.alloc(), CommandRefusal::Busy))
}

/// What the inputs up to a fault made, unless there is one: it is told only if they are well.
fn told_last(bytes: Vec<u8>, fault: Option<Failure>) -> Result<Vec<u8>, Failure> {
    match fault {
        Some(failure) => Err(failure),
        None => Ok(bytes),
    }
}

/// The inputs of a merge: files, and the parts of folders in their place; what each is called in a sentence, and its path.
#[derive(Drop)]
struct Inputs {
    names: Vec<String>,
    paths: Vec<String>,
    are_parts: Vec<bool>,
}

impl Inputs {
    /// The files of these names, which are read from these sources, and for each folder among them its parts, up to a folder that can't be
    /// listed; and why that can't.
    fn of<R: Host>(
        rt: &R,
        names: &[&str],
        sources: &[&str],
        is_careful: bool,
    ) -> Result<(Inputs, Option<Failure>), Failure> {
        let mut inputs = Inputs {
            names: Vec::new(rt.alloc()),
            paths: Vec::new(rt.alloc()),
            are_parts: Vec::new(rt.alloc()),
        };
        for (name, source) in names.iter().zip(sources.iter()) {
            match Home::of(rt, *source) {
                Home::File(file) => inputs.add(rt.alloc(), *name, file, false)?,
                Home::Folder(folder) => match Parts::listed(rt, folder, is_careful) {
                    Ok(parts) => inputs.add_parts(rt.alloc(), folder, &parts)?,
                    Err(failure) => return Ok((inputs, Some(failure))),
                },
            }
        }
        Ok((inputs, None))
    }

    /// Adds an input of this name and this path.
    fn add(
        &mut self,
        alloc: Global,
        name: &str,
        path: &str,
        is_part: bool,
    ) -> Result<(), AllocError> {
        self.names.push(String::from_str(alloc, name)?)?;
        self.paths.push(String::from_str(alloc, path)?)?;
        self.are_parts.push(is_part)?;
        Ok(())
    }

    /// Adds the parts of a folder.
    fn add_parts(&mut self, alloc: Global, folder: &str, parts: &Parts) -> Result<(), AllocError> {
        for name in parts.names() {
            let path = path_in(alloc, folder, name.as_str())?;
            self.add(alloc, path.as_str(), path.as_str(), true)?;
        }
        Ok(())
    }
}

/// A file, or a part of a folder.
type Input<'r, 'n, R> = Either<LazyFile<'r, 'n, R>, CheckedPart<'r, 'n, R>>;

/// An input whose head is kept, and of which it is said how far it is.
type ToldInput<'r, 'n, 'h, R> = Counted<Told<'r, 'n, R, Headed<'h, Input<'r, 'n, R>>>>;

/// The canonical file of what all inputs hold.
fn merged_inputs<'r, R: Host>(
    rt: &'r R,
    progress: &'r Progress<'r, R>,
    inputs: &Inputs,
) -> Result<Vec<u8>, Unread> {
    let heads = Heads::new(rt.alloc());
    let mut readers = Vec::new(rt.alloc());
    for (path, is_part) in inputs.paths.iter().zip(inputs.are_parts.iter()) {
        let input = if *is_part {
            Either::Right(CheckedPart::new(rt, path.as_str()))
        } else {
            Either::Left(LazyFile::new(rt, path.as_str()))
        };
        let headed = Headed::new(&heads, input);
        let told = Told::new(progress, Source::File(path.as_str()), headed);
        readers.push(Counted::new(told))?;
    }
    let outcome = match readers.as_mut_slice().split_first_mut() {
        Some((first, others)) => merged(rt.alloc(), first, others),
        None => Err(Refusal::ReadFault),
    };
    let refusal = match outcome {
        Ok(bytes) => return Ok(bytes),
        Err(refusal) => refusal,
    };
    let at = heads.begun().saturating_sub(1);
    let paths = inputs.paths.as_slice();
    let fault = match reason_of(readers, at) {
        Some(PartReason::Gone) => return Err(Unread::Gone),
        Some(PartReason::Unread(kind)) => {
            return Err(unread_for(rt.alloc(), at_place(paths, at), kind));
        }
        Some(PartReason::Damaged) => PartFault::Damaged,
        None => PartFault::Refused(refusal),
    };
    Err(Unread::Refused(refused(rt, inputs.names.as_slice(), at, fault, &heads)))
}

/// Why nothing was read from the input of an index, if it is a part.
fn reason_of<R: Host>(mut readers: Vec<ToldInput<'_, '_, '_, R>>, at: usize) -> Option<PartReason> {
    if at >= readers.len() {
        return None;
    }
    let input = readers.swap_remove(at).into_inner().into_inner();
    match input.into_inner() {
        Either::Left(_file) => None,
        Either::Right(part) => part.reason(),
    }
}
