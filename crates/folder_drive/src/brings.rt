//! What a command makes of the parts that are told to it.

ghost use Rattle.std.specs.Prelude.{◌∷◌, List, ℕ, IfOk};
ghost use Rattle.folder_turns.specs.Orders.{Matter, matter_of};
ghost use Rattle.folder_turns.specs.declared.order.Task.{Task};

use folder_turns::Order;
use std::alloc::Global;

/// What a command puts, and what it answers then.
#[derive(Drop)]
pub struct Decided<M> {
    /// The order to follow: that of a put, or of a keep if there is nothing to put.
    pub order: Order,
    pub made: M,
}

/// What a command makes of parts that come one after another.
pub trait Brings: Drop {
    /// Why a part or the command is refused.
    type Refusal: Drop;

    /// What the command answers.
    type Made: Drop;

    /// What is so of what was made, and of the bytes of the parts that it was made of, the newest first.
    ghost made_of: { Self → List (List ℕ) → Type 0 };

    /// What is so of an answer and of what is put, and of the bytes of all parts.
    ghost answers: { Self.Made → Task → Matter → List (List ℕ) → Type 0 };

    /// What is brought once the part of this name and with these bytes is taken, too; or why that is refused.
    fn take(self, alloc: Global, name: &str, bytes: &[u8]) -> Result<Self, Self::Refusal>
        ensures { IfOk result (λ next. (parts : List (List ℕ)) → made_of self parts → made_of next (bytes.now ∷ parts)) };

    /// What is put after all parts of these names were taken.
    fn decide(self, alloc: Global, names: Vec<String>) -> Result<Decided<Self::Made>, Self::Refusal>
        ensures { IfOk result (λ d. (parts : List (List ℕ)) → made_of self parts → answers d.made d.order.task (matter_of d.order) parts) };
}
