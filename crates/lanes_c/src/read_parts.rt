//! Parts of a folder that were read, one after another.
ghost use Rattle.std.specs.Prelude.{◌≡◌, ◌==◌, ◌++◌, [], ◌∷◌, not, true, Ok, IfOk, MatchOption, map, string_bytes};
ghost use Rattle.table_model.specs.Outcome.{Gives};
ghost use Rattle.folder_turns.specs.Orders.{matter_of};
ghost use Rattle.folder_turns.specs.declared.order.Task.TheVariants.{Replace};
ghost use Rattle.folder_parts.specs.Parts.{OpensPart, JoinsPart};
ghost use Rattle.replica_store.specs.Replica.{Replica};
ghost use Rattle.replica_reports.specs.Held.{held_in};
ghost use Rattle.replica_changes.specs.Commands.{as_held, file_of};
ghost use Rattle.replica_changes.specs.Forgetting.{forgetting};
ghost use Rattle.lanes_c.specs.PartsOrders.{Forgets, MayFollow, Replaces, matter_replacing};

use folder_commands::{file_of, left_of, names_for};
use folder_parts::{Join, PartFault};
use folder_protocol::Record;
use folder_turns::{Order, Task};
use replica_store::{Forgotten, Store};
use std::alloc::{AllocError, Global};
use std::marker::Model;
use table_model::Refusal;

/// The join of the parts that were read so far, and their names. Their bytes are not kept. Contracts see the replica that has what they
/// hold together, and their bytes, the newest first.
#[derive(Drop)]
pub struct ReadParts {
    join: Join,
    names: Vec<String>,
    calls: Record,
}

impl Model for ReadParts {
    ghost use Rattle.std.specs.Prelude.{◌≡◌, List, ℕ, map};
    ghost use Rattle.std.specs.String.{string_bytes};
    ghost use Rattle.std.specs.Coded.{coded×, coded_list, coded_ℕ};
    ghost use Rattle.folder_protocol.specs.Note.{calls_of};
    ghost use Rattle.folder_protocol.specs.Taking.{bytes_read};
    ghost use Rattle.replica_store.specs.Replica.{Replica, coded_replica};
    ghost use Rattle.lanes_c.specs.PartsJoined.{IsJoinOf};
    ghost use Rattle.lanes_c.specs.PartsOrders.{names_of};

    ghost Value = { Replica × List (List ℕ) };

    ghost coded = { coded× coded_replica (coded_list (coded_list coded_ℕ)) };

    ghost view = { λ p. (p.join, bytes_read (calls_of p.calls.noted)) };

    ghost invariant = { λ p. IsJoinOf p.join (bytes_read (calls_of p.calls.noted)) × (map string_bytes p.names.items ≡ names_of (bytes_read (calls_of p.calls.noted))) };
}

/// What a forget of parts comes to.
#[derive(Drop)]
pub struct Forget {
    /// How many batches are dropped, and how many rows they have.
    pub dropped: Forgotten,
    /// The order to follow. None if no batch is dropped.
    pub order: Option<Order>,
}

/// These names and one more.
fn with_name(alloc: Global, names: Vec<String>, name: &str) -> Result<Vec<String>, AllocError>
    ensures { IfOk result (λ more. map string_bytes more.items ≡ map string_bytes names.items ++ name.now ∷ []) }
{
    let mut more = names;
    more.push(String::from_str(alloc, name)?)?;
    Ok(more)
}

/// The file of what parts hold together.
fn packed(alloc: Global, join: Join) -> Result<Vec<u8>, Refusal>
    ensures file { IfOk result (λ bytes. bytes.items ≡ file_of join) }
    ensures read { IfOk result (λ bytes. held_in (file_of join) ≡ Ok (as_held join)) }
{
    let store = join.into_store(alloc)?;
    file_of(alloc, store)
}

/// How much a forget drops of what parts hold together; and the file of what is left, if that is anything.
fn left(alloc: Global, join: Join) -> Result<(Forgotten, Vec<u8>), Refusal>
    ensures { IfOk result (λ both. (left : Replica) × (forgetting join ≡ Ok ((both.0.batches, both.0.rows), left)) × (not (both.0.batches == 0) ≡ true → (both.1.items ≡ file_of left) × (held_in (file_of left) ≡ Ok (as_held left)))) }
{
    let store = join.into_store(alloc)?;
    left_of(alloc, store)
}

/// The order to put these bytes in the place of the parts of these names, by a temporary of a new name.
fn replacing(
    alloc: Global,
    temporary: String,
    names: &[String],
    bytes: Vec<u8>,
) -> Result<Order, AllocError>
    ensures { IfOk result (λ order. (order.task ≡ Replace) × (matter_of order ≡ matter_replacing (string_bytes temporary) (map string_bytes names.now) bytes.items)) }
{
    let (name, gone) = names_for(alloc, &[], names, bytes.as_slice())?;
    Ok(Order {
        task: Task::Replace,
        temporary,
        name,
        bytes,
        names: gone,
        relied: Vec::new(alloc),
    })
}

impl ReadParts {
    /// One part was read.
    ///
    /// Refused is what [`Join::new`] refuses.
    pub fn new(alloc: Global, name: &str, bytes: &[u8]) -> Result<ReadParts, PartFault>
        ensures opened { OpensPart (λ parts. parts.0) result (record { name = name.now; bytes = bytes.now }) }
        ensures read { IfOk result (λ parts. parts.1 ≡ bytes.now ∷ []) }
    {
        let join = Join::new(alloc, name, bytes)?;
        let names = with_name(alloc, Vec::new(alloc), name)?;
        let mut calls = Record::new();
        calls.read(name, bytes);
        Ok(ReadParts { join, names, calls })
    }

    /// A further part was read.
    ///
    /// Refused is what [`Join::with_part`] refuses.
    pub fn with_part(self, alloc: Global, name: &str, bytes: &[u8]) -> Result<ReadParts, PartFault>
        ensures joined { JoinsPart (λ parts. parts.0) result self.0 (record { name = name.now; bytes = bytes.now }) }
        ensures read { IfOk result (λ parts. parts.1 ≡ bytes.now ∷ self.1) }
    {
        let ReadParts { join, names, calls } = self;
        let next = join.with_part(alloc, name, bytes)?;
        let more = with_name(alloc, names, name)?;
        let mut noted = calls;
        noted.read(name, bytes);
        Ok(ReadParts {
            join: next,
            names: more,
            calls: noted,
        })
    }

    /// What they hold together. `Memory` is answered if there is no memory for it.
    pub fn into_store(self, alloc: Global) -> Result<Store, Refusal>
        ensures { Gives (λ store. store.replica) result (Ok self.0) }
    {
        let ReadParts { join, .. } = self;
        join.into_store(alloc)
    }

    /// The order of a pack: the file of what they hold together is put in their place, by a temporary of a new name. Those go that were
    /// read, but for the file itself.
    pub fn pack(self, alloc: Global, temporary: String) -> Result<Order, AllocError>
        ensures order { IfOk result (λ order. Replaces order (string_bytes temporary) self.0 self.1) }
        // After every history in which they were read its calls are in turn.
        ensures in_turn { IfOk result (λ order. MayFollow order.task (matter_of order) self.1) }
    {
        let ReadParts { join, names, .. } = self;
        let bytes = match packed(alloc, join) {
            Ok(bytes) => bytes,
            Err(_) => return Err(AllocError),
        };
        replacing(alloc, temporary, names.as_slice(), bytes)
    }

    /// The order of a forget: the file of what they hold together without the batches of which every row is deleted is put in their place,
    /// by a temporary of a new name. There is no order if there is no such batch.
    pub fn forget(self, alloc: Global, temporary: String) -> Result<Forget, AllocError>
        ensures forgot { IfOk result (λ f. Forgets f (string_bytes temporary) self.0 self.1) }
        // After every history in which they were read its calls are in turn.
        ensures in_turn { IfOk result (λ f. MatchOption f.order (Unit {0}) (λ order. MayFollow order.task (matter_of order) self.1)) }
    {
        let ReadParts { join, names, .. } = self;
        let (dropped, bytes) = match left(alloc, join) {
            Ok(both) => both,
            Err(_) => return Err(AllocError),
        };
        if dropped.batches == 0 {
            return Ok(Forget {
                dropped,
                order: None,
            });
        }
        let order = replacing(alloc, temporary, names.as_slice(), bytes)?;
        Ok(Forget {
            dropped,
            order: Some(order),
        })
    }
}
