//! Held batches: a set of batch names, kept as runs of numbers.
ghost use Rattle.std.specs.Prelude.{◌≡◌, ◌<◌, OnOk, OnErr, IfOk, IsTrue, filter, ◌++◌};
ghost use Rattle.std.specs.FinSet as set;
ghost use Rattle.table_model.specs.Name.{is_proper_name};
ghost use Rattle.catalogue_join.specs.Held.{IsFront, IsListOf, IsNameAt, lacks};
ghost use Rattle.catalogue_join.specs.Run.{names_in, names_of, names_listed, run_shape};
ghost use Rattle.catalogue_join.specs.Span.{Rises};

use crate::ranges::Ranges;
use crate::run::Run;
use std::alloc::{AllocError, Global};
use std::marker::Model;
use table_model::{BatchName, Number, Origin};

/// The names of held batches: a set of batch names. It takes memory by gaps in the numbers of an origin, and not by
/// batches.
#[derive(Drop)]
pub struct Held {
    runs: Ranges<Run>,
}

impl Model for Held {
    ghost use Rattle.std.specs.FinSet as set;
    ghost use Rattle.table_model.specs.Name.{name_cmp, coded_name};
    ghost use Rattle.catalogue_join.specs.Span.{Rises};
    ghost use Rattle.catalogue_join.specs.Run.{names_in, run_shape};

    ghost Value = { set.FinSet name_cmp };

    ghost coded = { set.code coded_name };

    ghost view = { λ h. names_in h.runs };

    ghost invariant = { λ h. Rises run_shape 0 h.runs };
}

impl Held {
    /// The set without names. It takes no memory, and keeps the allocator for its own methods.
    pub fn new(alloc: Global) -> Self
        ensures { result ≡ set.empty }
    {
        Held {
            runs: Ranges::new(alloc),
        }
    }

    /// The set of maximal runs in ascending order. It takes no memory, however many names the runs have.
    pub fn from_runs(runs: Vec<Run>) -> Self
        requires { Rises run_shape 0 runs.items }
        ensures { result ≡ names_in runs.items }
    {
        Held {
            runs: Ranges::from_rising(runs),
        }
    }

    /// Whether the name is in the set.
    pub fn holds(&self, name: BatchName) -> bool
        ensures { result ≡ set.contains self.now name }
    {
        self.runs.find(run_of(name)).is_some()
    }

    /// Adds a name. If memory is refused the set is as before.
    pub fn insert(&mut self, name: BatchName) -> Result<(), AllocError>
        requires { IsTrue (is_proper_name name) }
        ensures ok { OnOk result (self.new ≡ set.insert self.old name) }
        ensures err { OnErr result (self.new ≡ self.old) }
    {
        self.runs.insert(run_of(name))
    }

    /// A copy of the set in memory of its own. If memory is refused, an `AllocError`.
    pub fn copy(&self, alloc: Global) -> Result<Held, AllocError>
        ensures { IfOk result (λ copied. copied ≡ self.now) }
    {
        Ok(Held {
            runs: self.runs.copy(alloc)?,
        })
    }

    /// The names of both sets.
    pub fn joined(&self, other: &Held) -> Result<Held, AllocError>
        ensures { IfOk result (λ both. both ≡ set.union self.now other.now) }
    {
        Ok(Held {
            runs: self.runs.joined(&other.runs)?,
        })
    }

    /// Adds the names of another set. If memory is refused the set is as before.
    pub fn join(&mut self, other: &Held) -> Result<(), AllocError>
        ensures ok { OnOk result (self.new ≡ set.union self.old other.now) }
        ensures err { OnErr result (self.new ≡ self.old) }
    {
        *self = self.joined(other)?;
        Ok(())
    }

    /// The number up to which all numbers of an origin are held, from 1 on; 0 if number 1 is not.
    pub fn front(&self, origin: Origin) -> u32
        ensures { IsFront self.now origin result }
    {
        let first = BatchName {
            origin,
            number: Number(1),
        };
        match self.runs.find(run_of(first)) {
            Some(from_one) => from_one.last.0,
            None => 0,
        }
    }

    /// How many names the set has.
    pub fn len(&self) -> usize
        ensures { result ≡ set.len self.now }
    {
        let mut count = 0;
        for run in self.runs.as_slice() {
            count += run.len();
        }
        count
    }

    /// The set's maximal runs, ascending: their names, in order, are those of the set.
    pub fn runs(&self) -> &[Run]
        ensures names { IsListOf (names_listed result.now) self.now }
        ensures maximal { Rises run_shape 0 result.now }
    {
        self.runs.as_slice()
    }

    /// The name with this index, from 0 on, in ascending order.
    pub fn name(&self, index: usize) -> BatchName
        requires { index < set.len self.now }
        ensures { IsNameAt self.now index result }
    {
        let mut left = index;
        for run in self.runs.as_slice() {
            let count = run.len();
            if left < count {
                return BatchName {
                    origin: run.first.origin,
                    number: Number(run.first.number.0 + left as u32),
                };
            }
            left -= count;
        }
        unreachable!()
    }

    /// The names of this set that `other` does not have, in ascending order.
    pub fn missing_from(&self, other: &Held) -> Result<Vec<BatchName>, AllocError>
        ensures { IfOk result (λ names. IsListOf names.items (set.difference self.now other.now)) }
    {
        let mut missing = Vec::new(self.runs.allocator());
        for run in self.runs.as_slice() {
            other.push_lacking(*run, &mut missing)?;
        }
        Ok(missing)
    }

    // Appends the names of a run that this set does not have, by a binary search for each of them and for each run of this set that
    // has a name of the run.
    fn push_lacking(&self, run: Run, names: &mut Vec<BatchName>) -> Result<(), AllocError>
        ensures { OnOk result (names.new.items ≡ names.old.items ++ filter (lacks self.now) (names_of run)) }
    {
        let mut number = u64::from(run.first.number.0);
        while number <= u64::from(run.last.0) {
            let name = BatchName {
                origin: run.first.origin,
                number: Number(number as u32),
            };
            match self.runs.find(run_of(name)) {
                Some(held) => number = u64::from(held.last.0) + 1,
                None => {
                    names.push(name)?;
                    number += 1;
                }
            }
        }
        Ok(())
    }
}

// The run of one name.
fn run_of(name: BatchName) -> Run
    ensures { result ≡ record { first = name; last = name.number } }
{
    Run {
        first: name,
        last: name.number,
    }
}
