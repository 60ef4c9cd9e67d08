//! The join of two sets: their ranges in one pass, with those that touch as one.
ghost use Rattle.std.specs.Prelude.{◌≡◌, List, [], ◌∷◌, IfOk, MatchOption};
ghost use Rattle.catalogue_join.specs.Span.{merge, bridged};

use crate::span::Span;
use std::alloc::{AllocError, Global};
use std::marker::Model;

// What is left of two ascending lists of ranges, seen as one list in the order in which the ranges begin.
#[derive(Drop)]
struct Merge<'a, S: Span> {
    ours: &'a [S],
    others: &'a [S],
}

impl<'a, S: Span> Model for Merge<'a, S> {
    ghost use Rattle.std.specs.Prelude.{List};
    ghost use Rattle.catalogue_join.specs.Span.{merge};

    ghost Value = { List S };

    ghost view = { λ m. merge S.shape m.ours.now m.others.now };
}

impl<'a, S: Span> Merge<'a, S> {
    fn next(&mut self) -> Option<S>
        ensures { MatchOption result (self.old ≡ []) (λ range. self.old ≡ range ∷ self.new) }
    {
        match (self.ours, self.others) {
            ([ours, our_rest @ ..], [others, other_rest @ ..]) => {
                if ours.begins_by(*others) {
                    self.ours = our_rest;
                    Some(*ours)
                } else {
                    self.others = other_rest;
                    Some(*others)
                }
            }
            ([ours, our_rest @ ..], []) => {
                self.ours = our_rest;
                Some(*ours)
            }
            ([], [others, other_rest @ ..]) => {
                self.others = other_rest;
                Some(*others)
            }
            ([], []) => None,
        }
    }
}

/// The ranges of two ascending lists in one list, in which ranges that touch are joined; it takes one step for each range.
pub(crate) fn joined<S: Span>(alloc: Global, ours: &[S], others: &[S]) -> Result<Vec<S>, AllocError>
    ensures { IfOk result (λ v. v.items ≡ bridged S.shape (merge S.shape ours.now others.now)) }
{
    let mut rest = Merge { ours, others };
    let mut joined = Vec::new(alloc);
    let Some(mut last) = rest.next() else {
        return Ok(joined);
    };
    while let Some(next) = rest.next() {
        if last.ends_before(next) {
            joined.push(last)?;
            last = next;
        } else {
            last = last.hull(next);
        }
    }
    joined.push(last)?;
    Ok(joined)
}
