//! Imports into a folder of parts under names that begin with one that is given.

use crate::folders::{Basis, Parts, no_part, open_to_add, passed_in};
use crate::judged_puts::finish_judged;
use crate::part_failures::{Unread, busy, unmade};
use crate::part_heads::read_heads;
use crate::rounds::Rounds;
use crate::told_folder::ToldFolder;
use command_line::{CsvForm, Source};
use folder_commands::Reliance;
use folder_parts::{LoadNames, SkimmedParts, part_of};
use program_changes::{Done, load_of};
use program_failures::Failure;
use program_inputs::{Host, Progress};
use replica_changes::Command;
use replica_store::Store;
use table_model::{BatchName, Counted};

/// Puts the rows of comma-separated values into a folder as one part, under names that begin with the one that is given. Of two such
/// loads at once under one name with other rows the second is refused.
pub fn import_named<R: Host>(
    rt: &R,
    progress: &Progress<'_, R>,
    folder: &str,
    csvs: &[Source<'_>],
    first: BatchName,
    form: CsvForm<'_>,
) -> Result<Done, Failure> {
    let heads = read_heads(rt, folder)?;
    let load = load_of(rt, progress, folder, csvs, &heads.schema, form)?;
    let names = LoadNames {
        first,
        count: load.batches() as u32,
    };
    let (held, basis) = open_for(&*rt, &*progress, folder, names)?;
    let command = Command::Import {
        load,
        given: Some(first),
        words: &[],
    };
    let mut writer = Counted::new(Vec::new(rt.alloc()));
    match part_of(rt.alloc(), &held, command, &mut writer) {
        Ok(answer) => {
            let bytes = writer.into_inner();
            finish_judged(rt, folder, basis, answer, bytes.as_slice())
        }
        Err(refusal) => Err(unmade(rt, folder, refusal)),
    }
}

/// What answers a load under these names as all parts of a folder do: what is skimmed of them, if that is enough, and else what all of
/// them hold.
fn open_for<'r, R: Host>(
    rt: &'r R,
    progress: &'r Progress<'r, R>,
    folder: &str,
    names: LoadNames,
) -> Result<(Store, Basis<'r, R>), Failure> {
    let (parts, basis) = skim_folder(rt, progress, folder, names)?;
    if parts.has_room(names.count) {
        let SkimmedParts { held, .. } = parts;
        return Ok((held, basis));
    }
    open_to_add(rt, progress, folder, &Reliance::Load(names))
}

/// What of all parts of a folder is read for a load under these names. It says at a terminal how many of them were read.
fn skim_folder<'r, R: Host>(
    rt: &'r R,
    progress: &'r Progress<'r, R>,
    folder: &str,
    names: LoadNames,
) -> Result<(SkimmedParts, Basis<'r, R>), Failure> {
    let mut rounds = Rounds::new(rt);
    for _ in 0..u64::MAX {
        let outcome = skim_once(rt, progress, folder, names, rounds.is_careful());
        progress.clear();
        match outcome {
            Ok(opened) => return Ok(opened),
            Err(why) => {
                if !rounds.again(rt, why)? {
                    break;
                }
            }
        }
    }
    Err(busy(rt.alloc(), folder))
}

/// Reads a folder for [`skim_folder`] by one listing. It fails if a part was packed or forgotten meanwhile.
fn skim_once<'r, R: Host>(
    rt: &'r R,
    progress: &'r Progress<'r, R>,
    folder: &str,
    names: LoadNames,
    is_careful: bool,
) -> Result<(SkimmedParts, Basis<'r, R>), Unread> {
    let mut system = ToldFolder::open(rt, folder, Some(progress))?;
    let passed = passed_in(rt.alloc(), &mut system, is_careful)?;
    let passed = passed.as_slice();
    match folder_commands::skim_folder(rt.alloc(), &mut system, passed, names) {
        Ok(Some(skimmed)) => {
            let unreadable = system.unreadable();
            let parts = Parts::among(rt.alloc(), skimmed.names, unreadable, passed)?;
            let basis = Basis {
                parts,
                relied: skimmed.relied,
                system: system.into_inner(),
            };
            Ok((skimmed.held, basis))
        }
        Ok(None) => Err(Unread::Refused(no_part(rt.alloc(), folder))),
        Err(fault) => Err(system.why(fault)),
    }
}
