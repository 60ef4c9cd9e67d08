//! What a run goes by: the calls before it, and those that were told of it.
use std::marker::Brand;

/// What one run goes by. Each run picks it.
pub trait Script {
    ghost use Rattle.std.specs.Prelude.{ℕ, List};
    ghost use Rattle.folder_model.specs.Call.{Call};

    /// The calls before the run.
    ghost before: { List Call };

    /// The bytes that are put.
    ghost whole: { List ℕ };

    /// The calls before it, and then those that were told.
    ghost calls: { List Call };
}

impl Script for Brand {
    ghost use Rattle.std.specs.Prelude.{[]};

    ghost before = { [] };

    ghost whole = { [] };

    ghost calls = { [] };
}
