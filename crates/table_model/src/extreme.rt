//! An extreme: the least or the greatest of some values.
ghost use Rattle.std.specs.Prelude.{◌≡◌};
ghost use Rattle.table_model.specs.Extreme.{extreme_of, further, is_least, turned};

/// The end of some values that is asked for, as MIN and MAX ask for one (ISO/IEC 9075:1992, clause 6.5).
#[derive(Clone, Copy, Debug, PartialEq, Eq)]
pub enum Extreme {
    /// The least value, as of MIN.
    Least,
    /// The greatest value, as of MAX.
    Greatest,
}

impl Extreme {
    /// Whether the least is asked for.
    #[inline(always)]
    pub fn is_least(self) -> bool
        ensures { result ≡ is_least self }
    {
        match self {
            Extreme::Least => true,
            Extreme::Greatest => false,
        }
    }

    /// A value, with its bits flipped if the least is asked for. The greatest of such values is that of the extreme, and a value
    /// turned twice is itself.
    #[inline(always)]
    pub fn turned(self, value: i64) -> i64
        ensures { result ≡ turned self value }
    {
        match self {
            Extreme::Least => -1 - value,
            Extreme::Greatest => value,
        }
    }

    /// The lesser of two values for the least, and the greater for the greatest; `None` is no value.
    pub fn further(self, a: Option<i64>, b: Option<i64>) -> Option<i64>
        ensures { result ≡ further self a b }
    {
        match (a, b) {
            (None, b) => b,
            (Some(x), None) => Some(x),
            (Some(x), Some(y)) => match self {
                Extreme::Least => Some(x.min(y)),
                Extreme::Greatest => Some(x.max(y)),
            },
        }
    }

    /// The extreme of some values, `None` over none.
    pub fn of(self, values: &[i64]) -> Option<i64>
        ensures { result ≡ extreme_of self values.now }
    {
        let mut furthest = None;
        for value in values {
            furthest = self.further(furthest, Some(*value));
        }
        furthest
    }
}
