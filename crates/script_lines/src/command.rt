//! Commands: what a line of a script asks for.

use cluster_history::Step;
use std::marker::Model;
use table_model::ColType;

/// What a line asks for that makes a table: how many replicas, the table's name, and its columns' names and types.
#[derive(Drop)]
pub struct TableCommand<'a> {
    replicas: usize,
    table: &'a str,
    columns: Vec<(&'a str, ColType)>,
}

impl<'a> Model for TableCommand<'a> {
    ghost use Rattle.std.specs.Prelude.{map, ◌≤◌};
    ghost use Rattle.cluster_history.specs.Cluster.{replica_limit};
    ghost use Rattle.script_lines.specs.TableWords.{TableWords};

    ghost Value = { TableWords };

    ghost view = { λ c. record { replicas = c.replicas; table = c.table.now; columns = map (λ column. (column.0.now, column.1)) c.columns.items } };

    ghost invariant = { λ c. (1 ≤ c.replicas) × (c.replicas ≤ replica_limit) };
}

impl<'a> TableCommand<'a> {
    ghost use Rattle.std.specs.Prelude.{◌≡◌, ◌≤◌, map};
    ghost use Rattle.cluster_history.specs.Cluster.{replica_limit};

    /// The command with these words, for 1 to 64 replicas. It takes no memory.
    pub fn new(
        replicas: usize,
        table: &'a str,
        columns: Vec<(&'a str, ColType)>,
    ) -> TableCommand<'a>
        requires some { 1 ≤ replicas }
        requires limit { replicas ≤ replica_limit }
        ensures replicas { result.replicas ≡ replicas }
        ensures table { result.table ≡ table.now }
        ensures columns { result.columns ≡ map (λ column. (column.0.now, column.1)) columns.entry.items }
    {
        TableCommand {
            replicas,
            table,
            columns,
        }
    }

    /// How many replicas: from 1 to 64.
    pub fn replicas(&self) -> usize
        ensures count { result ≡ self.now.replicas }
        ensures some { 1 ≤ result }
        ensures limit { result ≤ replica_limit }
    {
        self.replicas
    }

    /// The table's name as it was written.
    pub fn table(&self) -> &str
        ensures { result.now ≡ self.now.table }
    {
        self.table
    }

    /// The columns' names as they were written, and their types.
    pub fn columns(&self) -> &[(&'a str, ColType)]
        ensures { map (λ column. (column.0.now, column.1)) result.now ≡ self.now.columns }
    {
        self.columns.as_slice()
    }
}

/// What a line of a script asks for.
#[derive(Drop)]
pub enum Command<'a> {
    /// To make a table at replicas.
    Table(TableCommand<'a>),
    /// A step.
    Act(Step),
}
