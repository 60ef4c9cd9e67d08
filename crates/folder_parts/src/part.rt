//! A part of a folder.
ghost use Rattle.std.specs.Prelude.{◌≡◌, List, ℕ, Some, IfOk, IfErr, string_bytes};
ghost use Rattle.sha2.specs.Sha512.{sha512};
ghost use Rattle.column_file.specs.Input.{IsUnread, ReadsWhole, is_unread};

use crate::comparing::digest_of;
use std::alloc::Global;
use std::io::Read;
use std::marker::Model;
use table_model::{Counted, Refusal};

/// A part of a folder: its name, and a reader of its bytes. Contracts see the name's bytes, and the reader with its count of failures.
#[derive(Drop)]
pub struct Part<R> {
    name: String,
    reader: Counted<R>,
}

impl<R> Model for Part<R> {
    ghost use Rattle.std.specs.Prelude.{ℕ, List};
    ghost use Rattle.std.specs.String.{string_bytes};

    ghost Value = { List ℕ × (R × ℕ) };

    ghost view = { λ p. (string_bytes p.name, p.reader) };
}

impl<R> Part<R> {
    /// The part of this name, whose bytes this reader has.
    pub fn new(name: String, reader: Counted<R>) -> Part<R>
        ensures { result ≡ (string_bytes name, reader) }
    {
        Part { name, reader }
    }

    /// The name.
    pub fn name(&self) -> &str
        ensures { result.now ≡ self.now.0 }
    {
        self.name.as_str()
    }

    /// The reader.
    pub fn into_reader(self) -> Counted<R>
        ensures { result ≡ self.1 }
    {
        let Part { reader, .. } = self;
        reader
    }
}

impl<R: Read> Part<R> {
    /// The SHA-512 of the bytes, read to the end of the reader. `ReadFault` if a read fails or more than 2^48 bytes come, and `Memory`
    /// if there is no memory for a buffer.
    pub(crate) fn digest(&mut self, alloc: Global) -> Result<[u8; 64], Refusal>
        ensures name { self.new.0 ≡ self.old.0 }
        ensures digest { IfOk result (λ digest. (input : List ℕ) → R.remaining self.old.1.0 ≡ Some input → digest ≡ sha512 input) }
        ensures refused { IfErr result IsUnread }
        ensures reads { ReadsWhole R.remaining is_unread self.old.1 self.new.1 result }
    {
        digest_of(alloc, &mut self.reader)
    }
}
