//! What is to be done with a folder, as a value.
ghost use Rattle.std.specs.Prelude.{◌≡◌};
ghost use Rattle.folder_turns.specs.Orders.{EndSays, MayTake, matter_of, came, replaced, judged, listed, kept};

use crate::program::Program;
use crate::seen::Seen;
use folder_protocol::{
    Folder, Outcome, keep, keep_all, keep_and_put, keep_and_put_judged, list_names, put,
    put_judged, remove_joined, replace,
};
use std::alloc::Global;
use std::io;

/// Which call of `folder_protocol` a turn makes.
#[derive(Clone, Copy, Debug, PartialEq, Eq, Drop)]
pub enum Task {
    /// Put the part of this name and with these bytes.
    Put,
    /// Have the part of this name on the disk, if it is there with these bytes.
    Keep,
    /// Put it in the place of the parts of these names, which were read and which it covers.
    Replace,
    /// Remove the parts of these names, which were read and which it covers, if it is there.
    Remove,
    /// List the names in the folder.
    List,
    /// Have the parts of these names on the disk, if they are there.
    KeepAll,
    /// Put the part of this name and with these bytes, if the folder has no names but these, which were seen.
    PutJudged,
    /// As `Put`, once the parts on which it relies are on the disk, if they are there. If one of those can't be synced nothing is put.
    KeepAndPut,
    /// As `PutJudged`, once the parts on which it relies are on the disk, if they are there. If one of those can't be synced nothing is put.
    KeepAndPutJudged,
}

/// What is to be done, and with what. What a task has no use for is empty.
#[derive(Debug, Drop)]
pub struct Order {
    pub task: Task,
    /// The name of a new temporary.
    pub temporary: String,
    pub name: String,
    pub bytes: Vec<u8>,
    pub names: Vec<String>,
    /// The names of the parts on which the part relies.
    pub relied: Vec<String>,
}

/// What a task has come to.
#[derive(Debug, Drop)]
pub enum End {
    /// What came of the part.
    Came(Outcome),
    /// One of the parts in whose place it was to be put is gone: nothing was put or removed.
    Overtaken,
    /// The folder has a name that was not seen: nothing was put. Look at what came, and begin anew.
    Unseen,
    Listed(Vec<String>),
    /// The parts of these names are on the disk, or gone.
    Kept,
}

/// The end of a task that is about one part.
fn came(given: io::Result<Outcome>) -> io::Result<End>
    ensures { result ≡ came given }
{
    match given {
        Ok(outcome) => Ok(End::Came(outcome)),
        Err(error) => Err(error),
    }
}

/// The end of a replacement.
fn replaced(given: io::Result<Option<Outcome>>) -> io::Result<End>
    ensures { result ≡ replaced given }
{
    match given {
        Ok(Some(outcome)) => Ok(End::Came(outcome)),
        Ok(None) => Ok(End::Overtaken),
        Err(error) => Err(error),
    }
}

/// The end of a put of a part that is to go with all that are there.
fn judged(given: io::Result<Option<Outcome>>) -> io::Result<End>
    ensures { result ≡ judged given }
{
    match given {
        Ok(Some(outcome)) => Ok(End::Came(outcome)),
        Ok(None) => Ok(End::Unseen),
        Err(error) => Err(error),
    }
}

/// The end of a listing.
fn listed(given: io::Result<Vec<String>>) -> io::Result<End>
    ensures { result ≡ listed given }
{
    match given {
        Ok(names) => Ok(End::Listed(names)),
        Err(error) => Err(error),
    }
}

/// The end of a task that gives nothing.
fn kept(given: io::Result<()>) -> io::Result<End>
    ensures { result ≡ kept given }
{
    match given {
        Ok(()) => Ok(End::Kept),
        Err(error) => Err(error),
    }
}

impl Program for Order {
    type Outcome = io::Result<End>;

    ghost may_run = { λ order parts before. MayTake order.task (matter_of order) parts before };

    ghost says = { λ order result parts before calls. EndSays order.task (matter_of order) result parts before calls };

    fn run<F: Folder>(&self, alloc: Global, folder: &mut F) -> io::Result<End> {
        let (temporary, name) = (self.temporary.as_str(), self.name.as_str());
        let (bytes, names) = (self.bytes.as_slice(), self.names.as_slice());
        let relied = self.relied.as_slice();
        match self.task {
            Task::Put => came(put(alloc, folder, temporary, name, bytes)),
            Task::Keep => came(keep(alloc, folder, name, bytes)),
            Task::Replace => replaced(replace(alloc, folder, temporary, name, bytes, names)),
            Task::Remove => came(remove_joined(alloc, folder, name, bytes, names)),
            Task::List => listed(list_names(alloc, folder)),
            Task::KeepAll => kept(keep_all(alloc, folder, names)),
            Task::PutJudged => {
                let judge = Seen { names };
                judged(put_judged(alloc, folder, temporary, name, bytes, &judge))
            }
            Task::KeepAndPut => came(keep_and_put(alloc, folder, relied, temporary, name, bytes)),
            Task::KeepAndPutJudged => {
                let judge = Seen { names };
                judged(keep_and_put_judged(alloc, folder, relied, temporary, name, bytes, &judge))
            }
        }
    }
}
