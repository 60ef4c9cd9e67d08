//! A file that is open: what it holds, read and judged once.
ghost use Rattle.std.specs.Prelude.{◌≡◌};
ghost use Rattle.column_file.specs.FirstVersion.{opened_from_1, KeepsFirst};
ghost use Rattle.column_file.specs.Files.{AreCanonicalOf};
ghost use Rattle.column_file.specs.Input.{Judges, ReadsWhole, is_refusal_of_reading};
ghost use Rattle.replica_reports.specs.Held.{held_in};

use column_file::open;
use query_eval::HashKey;
use replica_store::Store;
use std::alloc::Global;
use std::io::Read;
use std::marker::Model;
use table_model::{Counted, Origin, Refusal, Schema};

/// What a canonical file holds, read and judged once, to be asked as often as one likes. Contracts see the store that it is: the
/// replica, and the segments of its batches, which are canonical. Whose replica it is does not matter, and neither does the key of the
/// hashes by which queries find groups.
#[derive(Drop)]
pub struct OpenFile {
    store: Store,
    hash_key: HashKey,
}

impl Model for OpenFile {
    ghost use Rattle.column_file.specs.Files.{AreCanonicalOf};
    ghost use Rattle.replica_store.specs.Segments.{StoreForm, coded_store};

    ghost Value = { StoreForm };

    ghost coded = { coded_store };

    ghost view = { λ f. f.store };

    ghost invariant = { λ f. AreCanonicalOf f.store.replica.schema f.store.replica.state.batches f.store.segments };
}

impl OpenFile {
    /// Opens a file. The reader is read to its end first.
    ///
    /// Refused are `ReadFault` if a read fails or more than 2^48 bytes come; the first fault of the bytes; and last `NotCanonical` with
    /// the first byte that differs from the canonical file of what they hold. It grows as it reads, so `Memory` may come in the place
    /// of any of them.
    pub fn read<R: Read>(alloc: Global, reader: &mut Counted<R>) -> Result<OpenFile, Refusal>
        ensures read { Judges (λ file. file.replica) result (R.remaining reader.old.0) held_in }

        // What version 1 opened is opened to the same replica.
        ensures first { KeepsFirst (λ file. file.replica) result (R.remaining reader.old.0) (opened_from_1 (record { 0 = 1 })) }
        ensures reads { ReadsWhole R.remaining is_refusal_of_reading reader.old reader.new result }
    {
        let store = open(alloc, reader, Origin(1))?;
        Ok(OpenFile::from_store(store))
    }

    /// What a file holds, as a store whose segments are canonical. Queries find groups by the fixed key. It takes no memory.
    pub fn from_store(store: Store) -> OpenFile
        requires { AreCanonicalOf store.replica.schema store.replica.state.batches store.segments }
        ensures { result ≡ store }
    {
        OpenFile {
            store,
            hash_key: HashKey::fixed(),
        }
    }

    /// This open file with another key of the hashes by which its queries find groups. No answer depends on the key.
    pub fn with_hash_key(self, hash_key: HashKey) -> OpenFile
        ensures { result ≡ self }
    {
        OpenFile {
            store: self.store,
            hash_key,
        }
    }

    /// The key of the hashes by which queries find groups. It is the fixed one unless another was given.
    pub fn hash_key(&self) -> HashKey {
        self.hash_key
    }

    /// The store that the file holds.
    pub fn store(&self) -> &Store
        ensures value { result.now ≡ self.now }
        ensures canonical { AreCanonicalOf self.now.replica.schema self.now.replica.state.batches self.now.segments }
    {
        &self.store
    }

    /// The schema of the file's table.
    pub fn schema(&self) -> &Schema
        ensures { result.now ≡ self.now.replica.schema }
    {
        self.store.schema()
    }
}
