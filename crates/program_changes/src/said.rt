//! What a command says of what it changed.

use crate::done::Done;
use file_commands::Left;
use file_protocol::Replaced;
use program_failures::{Failure, write_line};
use program_inputs::Home;
use refusal_sentences::Printable;
use replica_changes::Imported;

/// What is said of a file or a folder that was changed, if the answer could not be written.
pub const CHANGED: &str = "has the change";

/// What is said of one that was not changed.
pub const UNCHANGED: &str = "is as it was";

/// Says what came of a change, unless that is to be quiet. If that can't be written, the change is made all the same, and the sentence
/// says so.
pub fn say<R: Print + Eprint + AllocGlobal>(
    rt: &R,
    home: Home<'_>,
    done: &Done,
    is_quiet: bool,
) -> Result<(), Failure> {
    let (name, left) = (home.name(), words_of(done.left()));
    let told = match format!(in rt.alloc(); "{done}\n") {
        Ok(line) => say_line(rt, name, left, line.as_str(), is_quiet),
        Err(_) if is_quiet => Ok(()),
        Err(lacking) => Err(Failure::from(lacking).after(rt.alloc(), name, left)),
    };
    if let Some(imported) = done.imported() {
        say_deleted(rt, imported);
    }
    say_left(rt, home, done.left());
    told
}

/// How a change leaves what it is about, for the sentence of an answer that can't be written.
fn words_of(left: Left) -> &'static str {
    match left {
        Left::Changed(_) => CHANGED,
        Left::Kept | Left::KeptUnsynced => UNCHANGED,
    }
}

/// Says a line of what was done, unless that is to be quiet. If it can't be written, these words say how what has this name is left.
pub fn say_line<R: Print + AllocGlobal>(
    rt: &R,
    name: &str,
    left: &str,
    line: &str,
    is_quiet: bool,
) -> Result<(), Failure> {
    if is_quiet {
        return Ok(());
    }
    match write_line(rt, line.as_bytes()) {
        Ok(()) => Ok(()),
        Err(failure) => Err(failure.after(rt.alloc(), name, left)),
    }
}

/// Says on standard error how many of the rows that an import brought were deleted already, if there are such.
fn say_deleted<R: Eprint>(rt: &R, imported: &Imported) {
    let rows = imported.rows;
    let _ = match imported.deleted {
        0 => return,
        1 => eprintln!(rt; "note: 1 of the {rows} rows is deleted already: it is not live"),
        deleted => {
            eprintln!(rt;
                "note: {deleted} of the {rows} rows are deleted already: they are not live"
            )
        }
    };
}

/// Says on standard error what could not be synced, if there is such.
pub fn say_left<R: Eprint>(rt: &R, home: Home<'_>, left: Left) {
    match left {
        Left::Changed(Replaced::Unsynced) => say_unsynced(rt, home),
        Left::KeptUnsynced => say_kept_unsynced(rt, home),
        Left::Changed(Replaced::Synced) | Left::Kept => {}
    }
}

/// Says that a file was replaced, or a part was added, and the folder that it is in could not be synced.
fn say_unsynced<R: Eprint>(rt: &R, home: Home<'_>) {
    let name = Printable(home.name());
    let _ = match home {
        Home::File(_) => eprintln!(rt;
            "{name}: this was replaced, but its folder could not be synced: a loss of power may bring the old file back"
        ),
        Home::Folder(_) => eprintln!(rt;
            "{name}: the part was added, but the folder could not be synced: a loss of power may take it away"
        ),
    };
}

/// Says that nothing changed, and a file, or the parts, or the folder that they are in could not be synced.
fn say_kept_unsynced<R: Eprint>(rt: &R, home: Home<'_>) {
    let name = Printable(home.name());
    let _ = match home {
        Home::File(_) => eprintln!(rt;
            "{name}: nothing changed, but this or its folder could not be synced: a loss of power may bring an older file back"
        ),
        Home::Folder(_) => eprintln!(rt;
            "{name}: nothing was added, but the parts or the folder could not be synced: a loss of power may take parts away"
        ),
    };
}
