//! The commands that change a file: each takes its lock, reads it and replaces it whole.

use crate::change::Change;
use crate::schemas::{schema_ahead, schema_of};
use crate::watched_folder::WatchedFolder;
use command_line::{CsvForm, Source};
use file_protocol::{FileFolder, Place, SystemFileFolder};
use program_changes::{
    DRAWS, Done, Headed, Heads, OfferTables, load_of, random_words, read_offers,
};
use program_failures::{Failure, Unheld, not_written, of_other_table, unlocked};
use program_inputs::{Host, LazyFile, LockedReading, Progress, is_there, reader_of};
use refusal_sentences::{CommandRefusal, is_of_a_text};
use replica_changes::Command;
use std::fs::Files;
use table_model::{BatchName, ColType, Counted, Refusal, RowName, Schema};

/// Makes the file of an empty table.
pub fn create<R: Host>(
    rt: &R,
    progress: &Progress<'_, R>,
    file: &str,
    table: &str,
    columns: &[(&str, ColType)],
) -> Result<Done, Failure> {
    if is_there(rt, file) {
        return Err(Failure::of_file(rt, CommandRefusal::Exists, file));
    }
    change(
        rt,
        progress,
        file,
        Change::Create { table, columns },
        About::Table { table, columns },
    )
}

/// Inserts the rows of comma-separated values, of one text after another: all, or none. The file is judged under its lock; if a text is
/// at fault it is judged before that is reported, since its own faults come first.
pub fn import<R: Host>(
    rt: &R,
    progress: &Progress<'_, R>,
    file: &str,
    csvs: &[Source<'_>],
    first: Option<BatchName>,
    form: CsvForm<'_>,
) -> Result<Done, Failure> {
    let schema = schema_ahead(rt, file)?;
    let load = match load_of(rt, progress, file, csvs, &schema, form) {
        Ok(load) => load,
        Err(fault) => {
            let _schema = schema_of(rt, file)?;
            return Err(fault);
        }
    };
    let words = match first {
        Some(_) => [0; DRAWS],
        None => random_words(rt)?,
    };
    let words = words.as_slice();
    change(
        rt,
        progress,
        file,
        Change::Add(Command::Import {
            load,
            given: first,
            words,
        }),
        About::Nothing,
    )
}

/// Deletes the rows for which a condition is true.
pub fn delete<R: Host>(
    rt: &R,
    progress: &Progress<'_, R>,
    file: &str,
    condition: &str,
) -> Result<Done, Failure> {
    change(
        rt,
        progress,
        file,
        Change::Add(Command::Delete { condition }),
        About::Condition(condition),
    )
}

/// Deletes rows by their names, held or not, or only if their batch is held.
pub fn delete_rows<R: Host>(
    rt: &R,
    progress: &Progress<'_, R>,
    file: &str,
    first: RowName,
    last: u16,
    is_held: bool,
) -> Result<Done, Failure> {
    let asked = if is_held {
        Change::DeleteHeldRows { first, last }
    } else {
        Change::Add(Command::DeleteRows { first, last })
    };
    change(rt, progress, file, asked, About::Nothing)
}

/// Drops the batches of which every row is deleted.
pub fn forget<R: Host>(rt: &R, progress: &Progress<'_, R>, file: &str) -> Result<Done, Failure> {
    change(rt, progress, file, Change::Forget, About::Nothing)
}

/// Applies offers, all or none.
pub fn apply<R: Host>(
    rt: &R,
    progress: &Progress<'_, R>,
    file: &str,
    sources: &[Source<'_>],
) -> Result<Done, Failure> {
    let offers = match read_offers(rt, progress, sources) {
        Ok(offers) => offers,
        Err(failure) => {
            let _schema = schema_of(rt, file)?;
            return Err(failure);
        }
    };
    let tables = OfferTables::of(rt.alloc(), offers.as_slice())?;
    let tables = &tables;
    let about = About::Offers { tables, sources };
    let asked = Change::Add(Command::Apply { offers });
    change(rt, progress, file, asked, about)
}

/// What is known of a change, for the sentence of its refusal.
#[derive(Clone, Copy)]
enum About<'a> {
    /// Nothing.
    Nothing,
    /// It makes a table of this name and these columns.
    Table {
        table: &'a str,
        columns: &'a [(&'a str, ColType)],
    },
    /// It is for the rows for which this condition is true.
    Condition(&'a str),
    /// It applies offers of these tables, which were read from these sources.
    Offers {
        tables: &'a OfferTables,
        sources: &'a [Source<'a>],
    },
}

/// Changes a file under its lock. A symbolic link is followed once, at the beginning: what is locked is what is read and replaced.
fn change<R: Host>(
    rt: &R,
    progress: &Progress<'_, R>,
    file: &str,
    change: Change<'_>,
    about: About<'_>,
) -> Result<Done, Failure> {
    let place = Place::followed(rt, file)?;
    let watch = LockedReading::new(progress);
    let mut folder = WatchedFolder::new(SystemFileFolder::watched(rt, watch));
    if let Err(why) = folder.hold(rt, &place) {
        return Err(not_held(rt, file, &place, change, why, about));
    }
    match changed(rt, change, &mut folder, &place) {
        Ok(done) => Ok(done),
        Err(CommandRefusal::Named(Refusal::WriteFault)) => {
            Err(not_written(rt, file, folder.reason()))
        }
        Err(CommandRefusal::Named(Refusal::BadMagic)) => {
            Err(Failure::of_beginning(rt.alloc(), file, folder.beginning()))
        }
        Err(refusal) => Err(refused(rt, file, refusal, about, folder.table(rt.alloc()).as_ref())),
    }
}

/// Changes a file whose lock this process has, and gives the lock back.
fn changed<R: Files + AllocGlobal, F: FileFolder>(
    rt: &R,
    change: Change<'_>,
    folder: &mut F,
    place: &Place,
) -> Result<Done, CommandRefusal> {
    if change.is_creation() && is_there(rt, place.name()) {
        let _ = folder.remove(place.lock());
        return Err(CommandRefusal::Exists);
    }
    Ok(change.make(rt.alloc(), folder, place)?)
}

/// The refusal of a change that can't take the lock. That the lock can't be made comes after all that the change itself is
/// refused as.
fn not_held<R: Files + AllocGlobal>(
    rt: &R,
    file: &str,
    place: &Place,
    change: Change<'_>,
    why: Unheld,
    about: About<'_>,
) -> Failure {
    if why.is_busy() {
        let mut reader = reader_of(rt, place.name());
        return match change.fault_of_file(rt.alloc(), &mut reader) {
            Ok(()) => Failure::of_file(rt, CommandRefusal::Busy, file),
            Err(Refusal::BadMagic) => {
                let input = reader.into_inner();
                Failure::of_beginning(rt.alloc(), file, input.beginning())
            }
            Err(earlier) => Failure::of_change(rt, CommandRefusal::from(earlier), file),
        };
    }
    let heads = Heads::new(rt.alloc());
    let mut reader = Counted::new(Headed::new(&heads, LazyFile::new(rt, place.name())));
    match change.judge(rt.alloc(), &mut reader) {
        Ok(()) => unlocked(rt, file, place, why),
        Err(Refusal::BadMagic) => {
            Failure::of_beginning(rt.alloc(), file, heads.take_last().as_slice())
        }
        Err(earlier) => {
            let refusal = CommandRefusal::from(earlier);
            refused(rt, file, refusal, about, heads.last_table().as_ref())
        }
    }
}

/// A refusal of a change, with what it is said of: the file, which has this table if it is known, unless it is an argument or another
/// input that is refused.
fn refused<R: Files + AllocGlobal>(
    rt: &R,
    file: &str,
    refusal: CommandRefusal,
    about: About<'_>,
    schema: Option<&Schema>,
) -> Failure {
    match (refusal, about) {
        (CommandRefusal::Named(refusal), About::Condition(condition)) if is_of_a_text(refusal) => {
            Failure::of_condition(rt.alloc(), refusal, file, "", condition, schema)
        }
        (CommandRefusal::Named(Refusal::SchemaDiffers), About::Offers { tables, sources }) => {
            match schema {
                Some(wanted) => of_other_table(
                    rt,
                    file,
                    wanted,
                    tables.other_than(wanted),
                    sources,
                ),
                None => Failure::of_change(rt, refusal, file),
            }
        }
        (CommandRefusal::Named(Refusal::BadSchema), About::Table { table, columns }) => {
            Failure::of_names(rt.alloc(), file, table, columns)
        }
        _ => Failure::of_change(rt, refusal, file),
    }
}
