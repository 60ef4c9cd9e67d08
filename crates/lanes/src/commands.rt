//! The commands that change a table: each asks once whether it is in a file or in a folder, and says what came of it.

use command_line::{Apply, Create, Delete, DeleteRows, Forget, Import};
use program_changes::say;
use program_failures::Failure;
use program_folders::forget_folder;
use program_inputs::{Home, Host, Progress};

/// Makes an empty table: a file, or a folder if the name ends in `/`.
pub fn create<R: Host>(
    rt: &R,
    progress: &Progress<'_, R>,
    asked: &Create<'_>,
) -> Result<(), Failure> {
    let (table, columns) = (asked.table, asked.columns.as_slice());
    let home = Home::to_make(asked.file);
    let done = match home {
        Home::File(file) => program_files::create(rt, progress, file, table, columns)?,
        Home::Folder(folder) => program_folders::create(rt, folder, table, columns)?,
    };
    say(rt, home, &done, asked.is_quiet)
}

/// Inserts the rows of comma-separated values, of one text after another: all, or none.
pub fn import<R: Host>(
    rt: &R,
    progress: &Progress<'_, R>,
    asked: &Import<'_>,
) -> Result<(), Failure> {
    let (csvs, first, form) = (asked.csvs.as_slice(), asked.first, asked.form);
    let home = Home::of(rt, asked.file);
    let done = match home {
        Home::File(file) => program_files::import(rt, progress, file, csvs, first, form)?,
        Home::Folder(folder) => program_folders::import(rt, progress, folder, csvs, first, form)?,
    };
    say(rt, home, &done, asked.is_quiet)
}

/// Deletes the rows for which a condition is true.
pub fn delete<R: Host>(
    rt: &R,
    progress: &Progress<'_, R>,
    asked: &Delete<'_>,
) -> Result<(), Failure> {
    let home = Home::of(rt, asked.file);
    let done = match home {
        Home::File(file) => program_files::delete(rt, progress, file, asked.condition)?,
        Home::Folder(folder) => program_folders::delete(rt, progress, folder, asked.condition)?,
    };
    say(rt, home, &done, asked.is_quiet)
}

/// Deletes rows by their names, held or not, or only if their batch is held.
pub fn delete_rows<R: Host>(
    rt: &R,
    progress: &Progress<'_, R>,
    asked: &DeleteRows<'_>,
) -> Result<(), Failure> {
    let (first, last, is_held) = (asked.first, asked.last, asked.is_held);
    let home = Home::of(rt, asked.file);
    let done = match home {
        Home::File(file) => program_files::delete_rows(rt, progress, file, first, last, is_held)?,
        Home::Folder(folder) if is_held => {
            program_folders::delete_held_rows(rt, progress, folder, first, last)?
        }
        Home::Folder(folder) => program_folders::delete_rows(rt, folder, first, last)?,
    };
    say(rt, home, &done, asked.is_quiet)
}

/// Applies offers, all or none.
pub fn apply<R: Host>(
    rt: &R,
    progress: &Progress<'_, R>,
    asked: &Apply<'_>,
) -> Result<(), Failure> {
    let sources = asked.offers.as_slice();
    let home = Home::of(rt, asked.file);
    let done = match home {
        Home::File(file) => program_files::apply(rt, progress, file, sources)?,
        Home::Folder(folder) => program_folders::apply(rt, progress, folder, sources)?,
    };
    say(rt, home, &done, asked.is_quiet)
}

/// Drops the batches of which every row is deleted.
pub fn forget<R: Host>(
    rt: &R,
    progress: &Progress<'_, R>,
    asked: &Forget<'_>,
) -> Result<(), Failure> {
    let home = Home::of(rt, asked.file);
    let done = match home {
        Home::File(file) => program_files::forget(rt, progress, file)?,
        Home::Folder(folder) => forget_folder(rt, progress, folder)?,
    };
    say(rt, home, &done, asked.is_quiet)
}
