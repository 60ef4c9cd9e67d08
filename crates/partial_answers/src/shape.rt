//! The shape of a group: how many cells its key has, and what is kept of it.
ghost use Rattle.std.specs.Prelude.{◌≡◌, false, length, map, true};
ghost use Rattle.partial_answers.specs.Refusing.{kept_kind};
ghost use Rattle.partial_answers.specs.Shape.{IsOfShape, measure_kind};

use crate::kept::Kept;
use query_eval::{Aggregate, Key};
use table_model::Fold;

/// Which of the five a measure keeps, as a number from 0 on.
fn measure_kind(measure: Aggregate) -> u8
    ensures { result ≡ measure_kind measure }
{
    match measure {
        Aggregate::Rows => 0,
        Aggregate::Folded { distinct: true, .. } => 4,
        Aggregate::Folded {
            fold,
            distinct: false,
            ..
        } => match fold {
            Fold::Count => 0,
            Fold::Sum | Fold::Avg => 1,
            Fold::Min => 2,
            Fold::Max => 3,
        },
    }
}

/// Whether what is kept is what some measures keep, one for each.
fn are_kept_of(kept: &[Kept], measures: &[Aggregate]) -> bool
    ensures yes { result ≡ true → map kept_kind kept.now ≡ map measure_kind measures.now }
    ensures no { result ≡ false → map kept_kind kept.now ≡ map measure_kind measures.now → ⊥ }
{
    if kept.len() != measures.len() {
        return false;
    }
    for i in 0..kept.len() {
        if kept[i].kind() != measure_kind(measures[i]) {
            return false;
        }
    }
    true
}

/// Whether a group has a cell for each of some columns, and keeps what some measures keep.
pub fn is_of_shape(key: &Key, kept: &[Kept], columns: usize, measures: &[Aggregate]) -> bool
    ensures yes { result ≡ true → IsOfShape columns measures.now key.now kept.now }
    ensures no { result ≡ false → IsOfShape columns measures.now key.now kept.now → ⊥ }
{
    key.cells().len() == columns && are_kept_of(kept, measures)
}
