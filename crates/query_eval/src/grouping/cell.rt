//! Cells of keys.
ghost use Rattle.std.specs.Prelude.{◌≡◌, None, Some, refl, FitsSigned, IfOk, IfSome, IsSome};
ghost use Rattle.std.specs.Cmp.{partial_order_from_own_ties, partial_order_from_total};
ghost use Rattle.std.specs.Cmp.Lexicographic.{options_total};
ghost use Rattle.std.specs.Cmp.Rules.{comparing};
ghost use Rattle.std.specs.Int.{w64};
ghost use Rattle.std.specs.Option.{option_cmp, option_eq};
ghost use Rattle.std.specs.Ordering.{int_cmp, int_eq};
ghost use Rattle.std.proofs.Common.{rules};
ghost use Rattle.std.proofs.lemmas.Cmp.{int_cmp_total};
ghost use Rattle.query_eval.specs.Cell.{cell_fed, cells_fed};
ghost use Rattle.query_eval.specs.Tied.{cells_tied};

use std::alloc::{AllocError, Global};
use std::cmp::Ordering;
use std::hash::{Hash, Hasher};
use std::marker::Model;

/// What a cell is kept as: null, a number of 64 bits, or a longer one, on the heap.
#[derive(Drop)]
enum Content {
    Null,
    Short(i64),
    Long(Box<i128>),
}

/// A cell of a key: null, or a whole number. A number of 64 bits, as each cell of a table has, is in place; only the file of a
/// partial answer can have a longer one. Contracts see the cell as that number, if there is one.
#[derive(Drop)]
pub struct Cell {
    content: Content,
}

impl Model for Cell {
    ghost use Rattle.std.specs.Prelude.{Option, ℤ};

    ghost Value = { Option ℤ };

    ghost use Rattle.query_eval.specs.Cell.{number_in};

    ghost view = { λ cell. number_in cell.content };
}

/// A number as one of 64 bits, or `None` if it takes more.
#[inline]
fn narrow(value: i128) -> Option<i64>
    ensures { IfSome result (λ narrow. narrow ≡ value) }
{
    match i64::try_from(value) {
        Ok(narrow) => Some(narrow),
        Err(_) => None,
    }
}

impl Cell {
    /// The cell with a number, or with none. It takes memory only if the number takes more than 64 bits.
    #[inline]
    pub fn new(alloc: Global, number: Option<i128>) -> Result<Cell, AllocError>
        ensures { IfOk result (λ cell. cell ≡ number) }
    {
        let content = match number {
            None => Content::Null,
            Some(value) => match narrow(value) {
                Some(short) => Content::Short(short),
                None => Content::Long(Box::new(alloc, value)?),
            },
        };
        Ok(Cell { content })
    }

    /// The number, if there is one.
    #[inline]
    pub fn number(&self) -> Option<i128>
        ensures { result ≡ self.now }
    {
        match &self.content {
            Content::Null => None,
            Content::Short(short) => Some(i128::from(*short)),
            Content::Long(long) => Some(**long),
        }
    }
}

/// The cell without a number, which takes no memory.
impl Default for Cell {
    ghost is_default = { λ cell. cell ≡ None };

    fn default() -> Cell {
        Cell {
            content: Content::Null,
        }
    }
}

/// Cells are the same if their numbers are. Null equals null.
impl PartialEq for Cell {
    ghost eq = { option_eq int_eq };

    ghost laws = { Prim.search (comparing, rules) };

    fn eq(&self, other: &Cell) -> bool {
        self.number() == other.number()
    }
}

impl Eq for Cell {
    ghost laws = { Prim.search (comparing, rules) };
}

/// Cells are hashed by their numbers.
impl Hash for Cell {
    ghost hash_input = { cell_fed };

    ghost respects_eq = { cells_fed };

    fn hash<H: Hasher>(&self, state: &mut H) {
        match self.number() {
            None => state.write_u8(0),
            Some(number) => state.write_i128(number),
        }
    }
}

/// Cells are compared by their numbers, null before every number.
impl PartialOrd for Cell {
    ghost partial_cmp = { λ a b. Some (option_cmp int_cmp a b) };

    ghost laws = { partial_order_from_own_ties (partial_order_from_total (options_total int_cmp_total)) cells_tied };

    fn partial_cmp(&self, other: &Cell) -> Option<Ordering> {
        Some(self.cmp(other))
    }
}

impl Ord for Cell {
    ghost cmp = { option_cmp int_cmp };

    ghost total = { options_total int_cmp_total };

    ghost matches_partial_cmp = { λ _ _. refl };

    ghost matches_eq = { cells_tied };

    fn cmp(&self, other: &Cell) -> Ordering {
        self.number().cmp(&other.number())
    }
}
