//! Whether partial answers may be combined: no batch is counted twice, and none is counted of which the other deletes rows.
ghost use Rattle.std.specs.Prelude.{◌≡◌, filter};
ghost use Rattle.std.specs.FinSet as set;
ghost use Rattle.catalogue_join.specs.Run.{names_of};
ghost use Rattle.partial_answers.specs.Between.{first_of, lesser_name, IsFirstShared};

use catalogue_join::{Held, Run};
use table_model::{BatchName, Number};

/// The first name of a run that a set has.
fn first_in(run: Run, held: &Held) -> Option<BatchName>
    ensures { result ≡ first_of (filter (set.contains held.now) (names_of run)) }
{
    let mut number = u64::from(run.first.number.0);
    while number <= u64::from(run.last.0) {
        let name = BatchName {
            origin: run.first.origin,
            number: Number(number as u32),
        };
        if held.holds(name) {
            return Some(name);
        }
        number += 1;
    }
    None
}

/// The least name that two sets have, if there is one.
pub fn first_shared(one: &Held, other: &Held) -> Option<BatchName>
    ensures { IsFirstShared one.now other.now result }
{
    for run in one.runs() {
        if let Some(name) = first_in(*run, other) {
            return Some(name);
        }
    }
    None
}

/// The lesser of two names. `None` is no name.
pub fn lesser_name(a: Option<BatchName>, b: Option<BatchName>) -> Option<BatchName>
    ensures { result ≡ lesser_name a b }
{
    match (a, b) {
        (None, b) => b,
        (Some(x), None) => Some(x),
        (Some(x), Some(y)) => { if y < x { Some(y) } else { Some(x) } }
    }
}
