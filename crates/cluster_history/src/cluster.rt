//! Clusters: a table at replicas and the messages between them, both numbered from 1.
ghost use Rattle.std.specs.Prelude.{◌≡◌, ◌≢◌, ◌<◌, ◌≤◌, length, IfSome, IfOk, IfErr, IsOk, OnOk, OnErr, Some, None, Ok};
ghost use Rattle.std.specs.FinMap as map;
ghost use Rattle.table_model.specs.Outcome.{Acts, Gives};
ghost use Rattle.cluster_history.specs.Cluster.{replica_limit, new_cluster, new_replicas, replicas_in, empty_replica, place_of, with_message, merged_in, message_limit};
ghost use Rattle.cluster_history.specs.Message.{carried, messages_in};
ghost use Rattle.cluster_history.specs.ChangedStores.{MergesAt, RecodesAt};
ghost use Rattle.cluster_history.specs.Run.{ActsOn, CodedStepTo};
ghost use Rattle.cluster_history.specs.Segments.{brought_by, new_segments, segments_in, segments_brought};
ghost use Rattle.cluster_history.specs.Codings.{IsSent};

use crate::files::{exported, opened};
use crate::message::{Message, offer_at, summary_at};
use crate::reply::Reply;
use crate::step::Step;
use query_eval::HashKey;
use replica_store::Store;
use segment_core::Coding;
use std::alloc::Global;
use std::marker::Model;
use store_view::{ask, names_where};
use table_model::{BatchName, Origin, Refusal, RowName, Rows, Schema};

/// How many replicas a cluster has at most.
pub const REPLICA_LIMIT: usize = 64;

/// How many messages a cluster has at most.
const MESSAGE_LIMIT: usize = 65_536;

/// A table at replicas and the messages between them, both numbered from 1. Contracts see it as the schema, the list of replicas
/// and the list of what the messages bring, and in addition the segments of the batches of both, with their codings. The key of the
/// hashes by which queries find groups does not matter to them.
///
/// A step that is refused leaves the cluster as it was, codings included.
#[derive(Drop)]
pub struct Cluster {
    schema: Schema,
    stores: Vec<Store>,
    messages: Vec<Message>,
    hash_key: HashKey,
}

impl Model for Cluster {
    ghost use Rattle.cluster_history.specs.Segments.{ClusterForm, coded_cluster, cluster_form};

    ghost Value = { ClusterForm };

    ghost coded = { coded_cluster };

    ghost view = { λ c. cluster_form c.schema c.stores.items c.messages.items };
}

impl Cluster {
    /// New replicas of a table, from 1 to 64 of them; replica i has own origin i. Queries go by the fixed key. `Memory` is the only
    /// refusal.
    #[tactic(auto, unfolding(crate::specs::Cluster::new_cluster))]
    pub fn new(alloc: Global, schema: &Schema, replicas: usize) -> Result<Cluster, Refusal>
        requires some { 1 ≤ replicas }
        requires limit { replicas ≤ replica_limit }
        ensures parts { Gives (λ cluster. cluster.parts) result (Ok (new_cluster schema.now replicas)) }
        ensures segments { IfOk result (λ cluster. cluster.segments ≡ new_segments replicas) }
    {
        let stores = new_stores(alloc, schema, replicas)?;
        let schema = schema.copy(alloc)?;
        Ok(Cluster {
            schema,
            stores,
            messages: Vec::new(alloc),
            hash_key: HashKey::fixed(),
        })
    }

    /// Has the cluster's queries find groups by hashes of this key.
    pub fn with_hash_key(self, hash_key: HashKey) -> Cluster
        ensures { result ≡ self }
    {
        Cluster {
            schema: self.schema,
            stores: self.stores,
            messages: self.messages,
            hash_key,
        }
    }

    /// The table's schema.
    pub fn schema(&self) -> &Schema
        ensures { result.now ≡ self.now.parts.schema }
    {
        &self.schema
    }

    /// The replicas; number 1 is the first.
    pub fn stores(&self) -> &[Store]
        ensures replicas { replicas_in result.now ≡ self.now.parts.stores }
        ensures segments { segments_in result.now ≡ self.now.segments.stores }
    {
        self.stores.as_slice()
    }

    /// The messages; number 1 is the first.
    pub fn messages(&self) -> &[Message]
        ensures messages { messages_in result.now ≡ self.now.parts.messages }
        ensures segments { segments_brought result.now ≡ self.now.segments.messages }
    {
        self.messages.as_slice()
    }

    /// The place of the replica with this number, or `NoSuchReplica`.
    fn place(&self, replica: u32) -> Result<usize, Refusal>
        ensures place { IfOk result (λ place. Some place ≡ place_of (length self.now.parts.stores) replica) }
        ensures bound { IfOk result (λ place. place < length self.now.parts.stores) }
        ensures missing { IfErr result (λ e. (e ≡ Refusal.NoSuchReplica) × (None ≡ place_of (length self.now.parts.stores) replica)) }
    {
        match place_of(self.stores.len(), replica) {
            Some(place) => Ok(place),
            None => Err(Refusal::NoSuchReplica),
        }
    }

    /// Appends the rows at a replica.
    fn append(&mut self, alloc: Global, replica: u32, rows: &Rows) -> Result<Reply, Refusal>
        ensures { ActsOn self.old (Step.Append replica rows.now) result self.new }
    {
        let place = self.place(replica)?;
        self.stores[place].shows_its_segments();
        let name = self.stores[place].append(alloc, rows)?;
        Ok(Reply::Named(name))
    }

    /// Inserts the rows at a replica; a batch that is held with these rows stays, and that takes no memory.
    fn insert(
        &mut self,
        alloc: Global,
        replica: u32,
        name: BatchName,
        rows: &Rows,
    ) -> Result<Reply, Refusal>
        ensures { ActsOn self.old (Step.Insert replica name rows.now) result self.new }
    {
        let place = self.place(replica)?;
        self.stores[place].shows_its_segments();
        let inserted = self.stores[place].insert(alloc, name, rows)?;
        Ok(Reply::Put(inserted))
    }

    /// Deletes rows of a batch at a replica. If all of them are deleted already it takes no memory.
    fn delete(
        &mut self,
        alloc: Global,
        replica: u32,
        first: RowName,
        last: u16,
    ) -> Result<Reply, Refusal>
        ensures { ActsOn self.old (Step.Delete replica first last) result self.new }
    {
        let place = self.place(replica)?;
        self.stores[place].delete(alloc, first, last)?;
        Ok(Reply::Done)
    }

    /// Deletes a replica's rows at which a condition, given as a text, is true. That there is no such replica is reported before
    /// the text is read.
    fn delete_where(
        &mut self,
        alloc: Global,
        replica: u32,
        condition: &str,
    ) -> Result<Reply, Refusal>
        ensures { ActsOn self.old (Step.DeleteWhere replica condition.now) result self.new }
    {
        let place = self.place(replica)?;
        let names = names_where(alloc, &self.stores[place], condition)?;
        self.stores[place].delete_all(alloc, names.as_slice())?;
        Ok(Reply::Deleted(names.len() as u64))
    }

    /// Merges the other replica into a replica; with itself nothing changes. If nothing changes it takes no memory.
    fn merge(&mut self, alloc: Global, replica: u32, other: u32) -> Result<Reply, Refusal>
        ensures { ActsOn self.old (Step.Merge replica other) result self.new }
    {
        let place = self.place(replica)?;
        let from = self.place(other)?;
        if place == from {
            return Ok(Reply::Done);
        }
        merge_apart(alloc, self.stores.as_mut_slice(), place, from)?;
        Ok(Reply::Done)
    }

    /// Makes a message of a replica's summary.
    fn ask(&mut self, alloc: Global, replica: u32) -> Result<Reply, Refusal>
        ensures { ActsOn self.old (Step.Ask replica) result self.new }
    {
        let place = self.place(replica)?;
        if self.messages.len() >= MESSAGE_LIMIT {
            return Err(Refusal::Full);
        }
        let summary = self.stores[place].summary(alloc)?;
        self.send(Message::Summary(summary))
    }

    /// Makes a message of a replica's offer to the summary that a message is.
    fn serve(&mut self, alloc: Global, replica: u32, message: u32) -> Result<Reply, Refusal>
        ensures { ActsOn self.old (Step.Serve replica message) result self.new }
    {
        let place = self.place(replica)?;
        let Some(summary) = summary_at(self.messages.as_slice(), message) else {
            return Err(Refusal::NoSuchMessage);
        };
        if self.messages.len() >= MESSAGE_LIMIT {
            return Err(Refusal::Full);
        }
        let offer = self.stores[place].offer(alloc, summary)?;
        self.send(Message::Offer(offer))
    }

    /// Keeps one more message; the reply is its number.
    fn send(&mut self, message: Message) -> Result<Reply, Refusal>
        requires room { length self.old.parts.messages < message_limit }
        ensures acts { Acts (λ reply. reply) self.old.parts result self.new.parts (Ok (with_message self.old.parts (carried message))) }
        ensures segments { OnOk result (IsSent self.old.segments (brought_by message) self.new.segments) }
        ensures refused { OnErr result (self.new ≡ self.old) }
    {
        let number = self.messages.len() as u32 + 1;
        self.messages.push(message)?;
        Ok(Reply::Sent(number))
    }

    /// Applies the offer that a message is at a replica. If nothing changes it takes no memory.
    fn take(&mut self, alloc: Global, replica: u32, message: u32) -> Result<Reply, Refusal>
        ensures { ActsOn self.old (Step.Take replica message) result self.new }
    {
        let place = self.place(replica)?;
        let Some(offer) = offer_at(self.messages.as_slice(), message) else {
            return Err(Refusal::NoSuchMessage);
        };
        self.stores[place].apply(alloc, offer)?;
        Ok(Reply::Done)
    }

    /// Puts a vector of a batch at a replica into another coding.
    fn recode(
        &mut self,
        alloc: Global,
        replica: u32,
        name: BatchName,
        column: u32,
        vector: u32,
        coding: Coding,
    ) -> Result<Reply, Refusal>
        ensures { ActsOn self.old (Step.Recode replica name column vector coding) result self.new }
    {
        let place = self.place(replica)?;
        recode_at(
            alloc,
            self.stores.as_mut_slice(),
            place,
            name,
            column,
            vector,
            coding,
        )?;
        Ok(Reply::Done)
    }

    /// Merges the content of a canonical file into a replica. That there is no such replica is reported before the file is read.
    fn open(&mut self, alloc: Global, replica: u32, file: &[u8]) -> Result<Reply, Refusal>
        ensures { ActsOn self.old (Step.Open replica file.now) result self.new }
    {
        let place = self.place(replica)?;
        let opened = opened(alloc, file, self.stores[place].own())?;
        self.stores[place].merge(alloc, &opened)?;
        Ok(Reply::Done)
    }

    /// The canonical file of a replica.
    fn export(&self, alloc: Global, replica: u32) -> Result<Reply, Refusal>
        ensures { ActsOn self.now (Step.Export replica) result self.now }
    {
        let place = self.place(replica)?;
        let file = exported(alloc, &self.stores[place])?;
        Ok(Reply::File(file))
    }

    /// The answer of a query at a replica. That there is no such replica is reported before the text is read.
    fn query(&self, alloc: Global, replica: u32, sql: &str) -> Result<Reply, Refusal>
        ensures { ActsOn self.now (Step.Query replica sql.now) result self.now }
    {
        let place = self.place(replica)?;
        let answer = ask(alloc, &self.stores[place], self.hash_key, sql)?;
        Ok(Reply::Answered(answer))
    }

    /// The reply to a step, or its refusal; a refused step leaves the cluster as it was. `Memory` may come in the place of a
    /// refusal of an open, a query or a delete by a condition, but never of `NoSuchReplica`.
    pub fn act(&mut self, alloc: Global, step: &Step) -> Result<Reply, Refusal>
        ensures { ActsOn self.old step.now result self.new }
    {
        match step {
            Step::Append { replica, rows } => self.append(alloc, *replica, rows),
            Step::Insert {
                replica,
                name,
                rows,
            } => self.insert(alloc, *replica, *name, rows),
            Step::Delete {
                replica,
                first,
                last,
            } => self.delete(alloc, *replica, *first, *last),
            Step::DeleteWhere { replica, condition } => {
                self.delete_where(alloc, *replica, condition.as_str())
            }
            Step::Merge { replica, other } => self.merge(alloc, *replica, *other),
            Step::Ask { replica } => self.ask(alloc, *replica),
            Step::Serve { replica, message } => self.serve(alloc, *replica, *message),
            Step::Take { replica, message } => self.take(alloc, *replica, *message),
            Step::Recode {
                replica,
                name,
                column,
                vector,
                coding,
            } => self.recode(alloc, *replica, *name, *column, *vector, *coding),
            Step::Open { replica, file } => self.open(alloc, *replica, file.as_slice()),
            Step::Export { replica } => self.export(alloc, *replica),
            Step::Query { replica, sql } => self.query(alloc, *replica, sql.as_str()),
        }
    }

    /// The reply to a step; a refusal is a reply too.
    pub fn step(&mut self, alloc: Global, step: &Step) -> Reply
        ensures { CodedStepTo self.old step.now result self.new }
    {
        match self.act(alloc, step) {
            Ok(reply) => reply,
            Err(refusal) => Reply::Refused(refusal),
        }
    }
}

/// The place of a number among this many, counted from 1.
pub fn place_of(count: usize, number: u32) -> Option<usize>
    ensures place { result ≡ place_of count number }
    ensures bound { IfSome result (λ place. place < count) }
{
    let number = number as usize;
    if 1 <= number && number <= count {
        Some(number - 1)
    } else {
        None
    }
}

/// This many new replicas; replica i has own origin i.
fn new_stores(alloc: Global, schema: &Schema, count: usize) -> Result<Vec<Store>, Refusal>
    requires { count ≤ replica_limit }
    ensures replicas { Gives (λ stores. replicas_in stores.items) result (Ok (new_replicas schema.now 1 count)) }
    ensures segments { IfOk result (λ stores. segments_in stores.items ≡ (new_segments count).stores) }
{
    let mut stores = Vec::with_capacity(alloc, count)?;
    for i in 0..count {
        stores.push(new_store(alloc, schema, i as u32 + 1)?)?;
    }
    Ok(stores)
}

/// A new replica with this own origin.
fn new_store(alloc: Global, schema: &Schema, own: u32) -> Result<Store, Refusal>
    requires { 1 ≤ own }
    ensures replica { Gives (λ store. store.replica) result (Ok (empty_replica schema.now own)) }
    ensures segments { IfOk result (λ store. store.segments ≡ map.empty) }
{
    Store::new(alloc, schema, Origin(own))
}

/// Merges the replica at one place into the one at another, and answers as `Store::merge` does.
fn merge_apart(
    alloc: Global,
    stores: &mut [Store],
    place: usize,
    from: usize,
) -> Result<bool, Refusal>
    requires place { place < length stores.old }
    requires from { from < length stores.old }
    requires apart { place ≢ from }
    ensures acts { Acts (λ changed. tt) (replicas_in stores.old) result (replicas_in stores.new) (merged_in (replicas_in stores.old) place from) }
    ensures idle { merged_in (replicas_in stores.old) place from ≡ Ok (tt, replicas_in stores.old) → IsOk result }
    ensures segments { OnOk result (MergesAt stores.old place from stores.new) }
    ensures refused { OnErr result (stores.new ≡ stores.old) }
    ensures count { length stores.new ≡ length stores.old }
{
    if place < from {
        let (front, back) = stores.split_at_mut(from);
        front[place].merge(alloc, &back[0])
    } else {
        let (front, back) = stores.split_at_mut(place);
        back[0].merge(alloc, &front[from])
    }
}

/// Puts a vector of a batch of the replica at a place into another coding. The other replicas stay as they are, codings included,
/// and so does that one if it is refused.
fn recode_at(
    alloc: Global,
    stores: &mut [Store],
    place: usize,
    name: BatchName,
    column: u32,
    vector: u32,
    coding: Coding,
) -> Result<(), Refusal>
    requires { place < length stores.old }
    ensures { RecodesAt stores.old result stores.new place name column vector coding }
{
    stores[place].recode(alloc, name, column, vector, coding)
}
