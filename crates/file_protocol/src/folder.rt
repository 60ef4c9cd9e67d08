//! A folder, by the few calls that replace a file. A folder is asked for a record of its calls and their answers, and for nothing else.
ghost use Rattle.std.specs.Prelude.{◌≡◌, ◌≤◌, ◌∷◌, List, Some, None, false, length, is_ok, IfOk, MatchResult, option_map};
ghost use Rattle.file_protocol.specs.Event.{Event, Opened, Locked, Compared, Emptied, Wrote, Synced, Renamed, Removed, Settled, SyncedFile, Read};

use std::alloc::Global;
use std::io;

/// A folder with one open file. Each call is recorded with its answer.
pub trait FileFolder {
    /// Each call so far with its answer, the newest first.
    ghost history: { Self → List Event };

    /// Opens the regular file of a name, or makes it, and says whether it made it.
    fn open(&mut self, name: &str) -> io::Result<bool>
        ensures { MatchResult result
            (λ made. history self.new ≡ Opened name.now (Some made) ∷ history self.old)
            (λ _. history self.new ≡ Opened name.now None ∷ history self.old) };

    /// Whether this process has the open file's lock from now on.
    fn try_lock(&mut self) -> io::Result<bool>
        ensures { MatchResult result
            (λ got. history self.new ≡ Locked got ∷ history self.old)
            (λ _. history self.new ≡ Locked false ∷ history self.old) };

    /// Gives the open file the mode of the file of a name, if there is one. What has the name and is no regular file is refused.
    fn take_mode(&self, name: &str) -> io::Result<()>;

    /// Whether the open file is the one of the name, and no link to it.
    fn is_named(&mut self, name: &str) -> bool
        ensures { history self.new ≡ Compared name.now result ∷ history self.old };

    /// Cuts the open file to nothing.
    fn empty(&mut self) -> io::Result<()>
        ensures { history self.new ≡ Emptied (is_ok result) ∷ history self.old };

    /// Writes some of the bytes.
    fn write(&mut self, bytes: &[u8]) -> io::Result<usize>
        ensures bound { IfOk result (λ n. n ≤ length bytes.now) }
        ensures noted { MatchResult result
            (λ n. history self.new ≡ Wrote bytes.now (Some n) ∷ history self.old)
            (λ _. history self.new ≡ Wrote bytes.now None ∷ history self.old) };

    /// Syncs the open file.
    fn sync(&mut self) -> io::Result<()>
        ensures { history self.new ≡ Synced (is_ok result) ∷ history self.old };

    /// Opens the folder of a name, to sync it later.
    fn open_folder(&mut self, name: &str) -> io::Result<()>
        ensures { MatchResult result
            (λ _. history self.new ≡ history self.old)
            (λ _. history self.new ≡ Settled false ∷ history self.old) };

    /// Gives the file of one name the other name, in place of the file that had it.
    fn rename(&mut self, from: &str, to: &str) -> io::Result<()>
        ensures { history self.new ≡ Renamed from.now to.now (is_ok result) ∷ history self.old };

    /// Removes a name.
    fn remove(&mut self, name: &str) -> io::Result<()>
        ensures { history self.new ≡ Removed name.now (is_ok result) ∷ history self.old };

    /// Syncs the folder that was opened.
    fn settle(&mut self) -> io::Result<()>
        ensures { history self.new ≡ Settled (is_ok result) ∷ history self.old };

    /// Syncs the file of a name, which need not be the open one.
    fn sync_file(&mut self, name: &str) -> io::Result<()>
        ensures { history self.new ≡ SyncedFile name.now (is_ok result) ∷ history self.old };

    /// The bytes of the file of a name, if there is one.
    fn read(&mut self, alloc: Global, name: &str) -> io::Result<Option<Vec<u8>>>
        ensures { MatchResult result
            (λ answer. history self.new ≡ Read name.now (Some (option_map (λ bytes. bytes.items) answer)) ∷ history self.old)
            (λ _. history self.new ≡ Read name.now None ∷ history self.old) };
}
