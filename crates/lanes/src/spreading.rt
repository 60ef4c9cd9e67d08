//! The spread of a table over new files and folders.

use crate::opening::opened;
use command_line::Spread;
use file_commands::{Left, put};
use file_protocol::{FileFolder, Place, SystemFileFolder};
use folder_parts::part_name;
use folder_system::path_in;
use program_changes::{say_left, say_line};
use program_failures::{Failure, not_written, unlocked};
use program_files::WatchedFolder;
use program_folders::make_folder;
use program_inputs::{Home, Host, Progress, is_there};
use refusal_sentences::CommandRefusal;
use replica_store::Store;
use std::alloc::AllocError;
use std::fs::{self, File, Files};
use std::rt::Clock;
use table_spread::NameRuns;

/// What is said of an output that is named twice.
const NAMED_TWICE: &str = "this OUT is named twice";

/// Makes new files, and folders of one part if a name ends in `/`, each with a share of what a file or a folder holds, and then says
/// how many there are and how many batches they have. The file is judged first, and that no output is there. If one can't be made, those
/// that were made before are removed.
pub fn spread<R: Host>(
    rt: &R,
    progress: &Progress<'_, R>,
    asked: &Spread<'_>,
) -> Result<(), Failure> {
    let outs = asked.outs.as_slice();
    let held = opened(rt, progress, asked.file)?;
    are_free(rt, outs)?;
    let store = held.store();
    let runs = NameRuns::of(rt.alloc(), store, outs.len().max(1))?;
    let files = outs.len();
    let batches = store.batches();
    let line = format!(in rt.alloc(); "ok files={files} batches={batches}\n")?;
    let mut made = Vec::with_capacity(rt.alloc(), outs.len())?;
    for (index, out) in outs.iter().enumerate() {
        match make_share(rt, &runs, store, index, *out) {
            Ok(output) => made.push(output)?,
            Err(failure) => {
                remove_all(rt, made.as_slice());
                return Err(failure);
            }
        }
    }
    say_line(rt, "each OUT", "is made", line.as_str(), asked.is_quiet)
}

/// Refuses the first output that is there already, or that was named before under this name or another one.
fn are_free<R: Files + AllocGlobal>(rt: &R, outs: &[&str]) -> Result<(), Failure> {
    let mut places: Vec<String> = Vec::new(rt.alloc());
    for out in outs {
        let place = place_of(rt, *out)?;
        if is_there(rt, bare(*out)) {
            return Err(Failure::of_file(rt, CommandRefusal::Exists, *out));
        }
        if places.as_slice().contains(&place) {
            let refusal = CommandRefusal::Exists;
            return Err(Failure::advised(rt.alloc(), refusal, *out, NAMED_TWICE));
        }
        places.push(place)?;
    }
    Ok(())
}

/// The name of an output without the slashes at its end, unless it is all slashes.
fn bare(out: &str) -> &str {
    match out.trim_end_matches('/') {
        "" => out,
        name => name,
    }
}

/// The place of an output: the folder that its name leads to, and the last part of its name in that.
fn place_of<R: Files + AllocGlobal>(rt: &R, out: &str) -> Result<String, AllocError> {
    let name = bare(out);
    let (above, last) = match name.rsplit_once('/') {
        None => (".", name),
        Some(("", last)) => ("/", last),
        Some((above, last)) => (above, last),
    };
    match fs::canonicalize(rt, above) {
        Ok(path) => path_in(rt.alloc(), path.into_string().as_str(), last),
        Err(_) => String::from_str(rt.alloc(), name),
    }
}

/// An output that was made: its file, or the part and the folder that it is in.
#[derive(Drop)]
struct Made {
    file: String,
    folder: Option<String>,
}

impl Made {
    /// Removes it.
    fn remove<R: Files>(&self, rt: &R) {
        let _ = fs::remove_file(rt, self.file.as_str());
        if let Some(folder) = &self.folder {
            let _ = fs::remove_dir(rt, folder.as_str());
        }
    }
}

/// Removes the outputs that were made, the last one first.
fn remove_all<R: Files>(rt: &R, made: &[Made]) {
    for later in 0..made.len() {
        if let Some(output) = made.get(made.len() - 1 - later) {
            output.remove(rt);
        }
    }
}

/// Makes an output with the share of this index.
fn make_share<R: Host>(
    rt: &R,
    runs: &NameRuns,
    store: &Store,
    index: usize,
    out: &str,
) -> Result<Made, Failure> {
    let bytes = runs.share_bytes(rt.alloc(), store, index)?;
    match Home::to_make(out) {
        Home::Folder(out) => make_part(rt, out, bytes.as_slice()),
        Home::File(out) => make_file(rt, out, bytes.as_slice()),
    }
}

/// Makes a folder with these bytes as its one part.
fn make_part<R: Host>(rt: &R, out: &str, bytes: &[u8]) -> Result<Made, Failure> {
    let name = part_name(rt.alloc(), bytes)?;
    let folder = String::from_str(rt.alloc(), bare(out))?;
    let file = path_in(rt.alloc(), folder.as_str(), name.as_str())?;
    let replaced = make_folder(rt, out, bytes)?;
    say_left(rt, Home::Folder(out), Left::Changed(replaced));
    Ok(Made {
        file,
        folder: Some(folder),
    })
}

/// Makes a file with these bytes, under its lock.
fn make_file<R: Eprint + Files<File = File> + Clock + AllocGlobal>(
    rt: &R,
    out: &str,
    bytes: &[u8],
) -> Result<Made, Failure> {
    let place = Place::followed(rt, out)?;
    let file = String::from_str(rt.alloc(), place.name())?;
    let mut folder = WatchedFolder::new(SystemFileFolder::new(rt));
    if let Err(why) = folder.hold(rt, &place) {
        return Err(unlocked(rt, out, &place, why));
    }
    if is_there(rt, place.name()) {
        let _ = folder.remove(place.lock());
        return Err(Failure::of_file(rt, CommandRefusal::Exists, out));
    }
    match put(&mut folder, &place, bytes) {
        Ok(replaced) => say_left(rt, Home::File(out), Left::Changed(replaced)),
        Err(_) => return Err(not_written(rt, out, folder.reason())),
    }
    Ok(Made { file, folder: None })
}
