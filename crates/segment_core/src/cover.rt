//! Which rows a vector covers, and which of them are null.
ghost use Rattle.std.specs.Prelude.{◌≡◌, ◌<◌, ◌↔◌, IsTrue, IfOk};
ghost use Rattle.std.specs.Option.{option_copied};
ghost use Rattle.segment_core.specs.CodedVector.{is_null};

use crate::boxed::Boxed;
use crate::same_form::same_mask;
use std::alloc::{AllocError, Global};
use std::marker::Model;
use transpose_order::Mask;

/// How many rows a vector covers, and the mask of those that are null, if one is.
#[derive(Drop)]
pub(crate) struct Cover {
    kept: Kept,
}

/// The number of rows lies next to the tag, and there it takes no bytes that the tag doesn't take.
#[derive(Drop)]
enum Kept {
    Full(u16),
    Holed(u16, Boxed<Mask>),
}

impl Model for Cover {
    ghost use Rattle.segment_core.specs.Cover.{Cover};

    ghost Value = { Cover };

    ghost use Rattle.segment_core.specs.KeptCover.{cover_of};

    ghost view = { λ cover. cover_of cover.kept };
}

impl Cover {
    /// A number of rows, and a mask of those that are null, if there is one.
    pub(crate) fn new(rows: u16, nulls: Option<Boxed<Mask>>) -> Cover
        ensures { result ≡ record { rows = rows; nulls = nulls } }
    {
        match nulls {
            None => Cover {
                kept: Kept::Full(rows),
            },
            Some(mask) => Cover {
                kept: Kept::Holed(rows, mask),
            },
        }
    }

    /// How many rows there are.
    pub(crate) fn rows(&self) -> u16
        ensures { result ≡ self.now.rows }
    {
        match &self.kept {
            Kept::Full(rows) => *rows,
            Kept::Holed(rows, _) => *rows,
        }
    }

    /// The rows that are null, if there is one.
    pub(crate) fn nulls(&self) -> Option<&Mask>
        ensures { option_copied result ≡ self.now.nulls }
    {
        match &self.kept {
            Kept::Full(_) => None,
            Kept::Holed(_, mask) => Some(mask.get()),
        }
    }

    /// Whether a row, 0 to 1023, is null.
    pub(crate) fn is_null(&self, row: usize) -> bool
        requires { row < 1024 }
        ensures { result ≡ is_null self.now.nulls row }
    {
        match &self.kept {
            Kept::Full(_) => false,
            Kept::Holed(_, mask) => mask.get().get(row),
        }
    }

    /// Whether two null masks are the same, or neither is there.
    pub(crate) fn same_nulls(&self, other: &Cover) -> bool
        ensures { IsTrue result ↔ (self.now.nulls ≡ other.now.nulls) }
    {
        match (&self.kept, &other.kept) {
            (Kept::Full(_), Kept::Full(_)) => true,
            (Kept::Holed(_, mask), Kept::Holed(_, other)) => same_mask(mask.get(), other.get()),
            _ => false,
        }
    }

    /// A copy of the rows, with a mask in memory of its own. If memory is refused, an `AllocError`.
    pub(crate) fn copy(&self, alloc: Global) -> Result<Cover, AllocError>
        ensures { IfOk result (λ cover. cover ≡ self.now) }
    {
        match &self.kept {
            Kept::Full(rows) => Ok(Cover {
                kept: Kept::Full(*rows),
            }),
            Kept::Holed(rows, mask) => Ok(Cover {
                kept: Kept::Holed(*rows, Boxed::new(alloc, *mask.get())?),
            }),
        }
    }
}
