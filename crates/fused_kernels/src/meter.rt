//! The meter of passes over the payloads of vectors.
ghost use Rattle.std.specs.Prelude.{◌≡◌};
ghost use Rattle.table_model.specs.Passes.{raised};

use std::marker::Model;

/// How many passes over a vector's payload were made. At its greatest value it stays.
#[derive(Drop)]
pub struct Meter {
    passes: u128,
}

impl Model for Meter {
    ghost use Rattle.std.specs.Prelude.{ℕ};

    ghost Value = { ℕ };

    ghost view = { λ meter. meter.passes };
}

impl Meter {
    /// A meter of no pass.
    pub fn new() -> Meter
        ensures { result ≡ 0 }
    {
        Meter { passes: 0 }
    }

    /// How many passes were made, or the greatest number if there were more.
    pub fn count(&self) -> u128
        ensures { result ≡ self.now }
    {
        self.passes
    }

    /// Counts one more pass.
    pub(crate) fn add_pass(&mut self)
        ensures { self.new ≡ raised 1 self.old }
    {
        self.passes = self.passes.saturating_add(1);
    }
}
