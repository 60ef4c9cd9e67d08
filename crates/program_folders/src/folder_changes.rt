//! The commands that change a folder of parts: what each brings is put into it as one more part.

use crate::folders::{Basis, open_to_add};
use crate::judged_puts::finish_judged;
use crate::named_imports::import_named;
use crate::part_failures::unmade;
use crate::part_heads::{PartHeads, read_heads};
use crate::putting::{make_folder, put_part, put_relying};
use command_line::{CsvForm, Source};
use file_commands::{HeldRows, Left};
use folder_commands::Reliance;
use folder_parts::{check_room, part_alone, part_of};
use program_changes::{Done, OfferTables, Reply, batches_of, load_of, random_words, read_offers};
use program_failures::{Failure, of_other_table};
use program_inputs::{Host, Progress, is_there};
use refusal_sentences::{CommandRefusal, is_of_a_text};
use replica_changes::Command;
use replica_reports::OpenFile;
use replica_store::Store;
use table_model::{BatchName, ColType, Counted, Refusal, RowName};

/// Makes a folder that has the empty table as its one part.
pub fn create<R: Host>(
    rt: &R,
    folder: &str,
    table: &str,
    columns: &[(&str, ColType)],
) -> Result<Done, Failure> {
    if is_there(rt, folder.trim_end_matches('/')) {
        return Err(Failure::of_file(rt, CommandRefusal::Exists, folder));
    }
    let mut writer = Counted::new(Vec::new(rt.alloc()));
    match replica_changes::create(rt.alloc(), table, columns, &mut writer) {
        Ok(()) => {}
        Err(Refusal::BadSchema) => {
            return Err(Failure::of_names(rt.alloc(), folder, table, columns));
        }
        Err(refusal) => return Err(unmade(rt, folder, refusal)),
    }
    let replaced = make_folder(rt, folder, writer.into_inner().as_slice())?;
    Ok(Done::new(Reply::Created, Left::Changed(replaced)))
}

/// Puts the rows of comma-separated values into a folder as one part, under names that are drawn or begin with the one that is given.
pub fn import<R: Host>(
    rt: &R,
    progress: &Progress<'_, R>,
    folder: &str,
    csvs: &[Source<'_>],
    first: Option<BatchName>,
    form: CsvForm<'_>,
) -> Result<Done, Failure> {
    match first {
        Some(first) => import_named(rt, progress, folder, csvs, first, form),
        None => import_drawn(rt, progress, folder, csvs, form),
    }
}

/// Puts the rows of comma-separated values into a folder as one part, under names that are drawn. Only the heads of the parts are read.
fn import_drawn<R: Host>(
    rt: &R,
    progress: &Progress<'_, R>,
    folder: &str,
    csvs: &[Source<'_>],
    form: CsvForm<'_>,
) -> Result<Done, Failure> {
    let heads = read_heads(rt, folder)?;
    let load = load_of(rt, progress, folder, csvs, &heads.schema, form)?;
    if let Err(refusal) = check_room(heads.batches.as_slice(), load.batches() as u32) {
        return Err(Failure::of_change(rt, CommandRefusal::from(refusal), folder));
    }
    let words = random_words(rt)?;
    let command = Command::Import {
        load,
        given: None,
        words: words.as_slice(),
    };
    put_alone(rt, folder, heads, command)
}

/// Puts the part of a command for which only the heads of the parts are read, if there is something to put.
fn put_alone<R: Host>(
    rt: &R,
    folder: &str,
    heads: PartHeads,
    command: Command<'_>,
) -> Result<Done, Failure> {
    let PartHeads {
        schema,
        permissions,
        ..
    } = heads;
    let mut writer = Counted::new(Vec::new(rt.alloc()));
    match part_alone(rt.alloc(), &schema, command, &mut writer) {
        Ok(answer) if !answer.is_changed() => Ok(Done::added(answer, Left::Kept)),
        Ok(answer) => {
            let bytes = writer.into_inner();
            let replaced = put_part(rt, folder, permissions, bytes.as_slice())?;
            Ok(Done::added(answer, Left::Changed(replaced)))
        }
        Err(refusal) => Err(unmade(rt, folder, refusal)),
    }
}

/// Puts the deletions of the rows for which a condition is true into a folder as one part.
pub fn delete<R: Host>(
    rt: &R,
    progress: &Progress<'_, R>,
    folder: &str,
    condition: &str,
) -> Result<Done, Failure> {
    let reliance = Reliance::Deletions;
    let (held, basis): (OpenFile, _) = open_to_add(&*rt, &*progress, folder, &reliance)?;
    let mut writer = Counted::new(Vec::new(rt.alloc()));
    let command = Command::Delete { condition };
    match part_of(rt.alloc(), held.store(), command, &mut writer) {
        Ok(answer) if !answer.is_changed() => Ok(Done::added(answer, basis.keep(rt.alloc()))),
        Ok(answer) => {
            let Basis { relied, system, .. } = basis;
            let bytes = writer.into_inner();
            let replaced = put_relying(&*rt, folder, system, relied.as_slice(), bytes.as_slice())?;
            Ok(Done::added(answer, Left::Changed(replaced)))
        }
        Err(refusal) if is_of_a_text(refusal) => {
            let schema = Some(held.schema());
            Err(Failure::of_condition(rt.alloc(), refusal, folder, "", condition, schema))
        }
        Err(refusal) => Err(unmade(rt, folder, refusal)),
    }
}

/// Puts the deletion of rows by their names into a folder as one part.
pub fn delete_rows<R: Host>(
    rt: &R,
    folder: &str,
    first: RowName,
    last: u16,
) -> Result<Done, Failure> {
    let heads = read_heads(rt, folder)?;
    let command = Command::DeleteRows { first, last };
    put_alone(rt, folder, heads, command)
}

/// Puts the deletion of rows by their names into a folder as one part, if a part of the folder holds their batch.
pub fn delete_held_rows<R: Host>(
    rt: &R,
    progress: &Progress<'_, R>,
    folder: &str,
    first: RowName,
    last: u16,
) -> Result<Done, Failure> {
    let (held, basis): (Store, _) = open_to_add(&*rt, &*progress, folder, &Reliance::Nothing)?;
    let mut writer = Counted::new(Vec::new(rt.alloc()));
    let command = Command::DeleteRows { first, last };
    if let Err(refusal) = part_alone(rt.alloc(), held.schema(), command, &mut writer) {
        return Err(unmade(rt, folder, refusal));
    }
    let is_held = held.holds(first.batch);
    let left = if is_held {
        let permissions = basis.system.permissions();
        let bytes = writer.into_inner();
        Left::Changed(put_part(rt, folder, permissions, bytes.as_slice())?)
    } else {
        Left::Kept
    };
    let answer = HeldRows {
        is_held,
        is_changed: is_held,
    };
    Ok(Done::new(Reply::DeletedHeldRows(answer), left))
}

/// Puts what offers bring into a folder as one part, all or none. Of two applies at once that have other rows under one name the second
/// is refused.
pub fn apply<R: Host>(
    rt: &R,
    progress: &Progress<'_, R>,
    folder: &str,
    sources: &[Source<'_>],
) -> Result<Done, Failure> {
    let read = read_offers(rt, progress, sources);
    let reliance = match &read {
        Ok(offers) => Reliance::Batches(batches_of(rt.alloc(), offers.as_slice())?),
        Err(_) => Reliance::Nothing,
    };
    let (held, basis): (Store, _) = open_to_add(&*rt, &*progress, folder, &reliance)?;
    let offers = read?;
    let tables = OfferTables::of(rt.alloc(), offers.as_slice())?;
    let mut writer = Counted::new(Vec::new(rt.alloc()));
    let command = Command::Apply { offers };
    match part_of(rt.alloc(), &held, command, &mut writer) {
        Ok(answer) => {
            let bytes = writer.into_inner();
            finish_judged(&*rt, folder, basis, answer, bytes.as_slice())
        }
        Err(Refusal::SchemaDiffers) => {
            let schema = held.schema();
            let found = tables.other_than(schema);
            Err(of_other_table(rt, folder, schema, found, sources))
        }
        Err(refusal) => Err(unmade(rt, folder, refusal)),
    }
}
