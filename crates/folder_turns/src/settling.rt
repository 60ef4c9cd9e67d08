//! Whether the folder may still be synced.
ghost use Rattle.std.specs.Prelude.{◌≡◌, ℕ, List, true, false, take};
ghost use Rattle.folder_model.specs.Call.{Call, can_settle};
ghost use Rattle.folder_turns.specs.Calls.{calls_after, fails_to_settle};

use crate::request::{Request, Told};

/// Whether none of the first so many calls that were told is a sync of the folder that failed. After one a further sync proves nothing.
pub fn may_settle(told: &[Told], count: usize) -> bool
    ensures may { result ≡ true → (whole : List ℕ) (before : List Call) → can_settle before ≡ true → can_settle (calls_after whole (take count told.now) before) ≡ true }
    ensures not { result ≡ false → (whole : List ℕ) (before : List Call) → can_settle (calls_after whole (take count told.now) before) ≡ false }
{
    let mut at = 0;
    while at < count {
        let Some(call) = told.get(at) else {
            return true;
        };
        if fails_to_settle(call) {
            return false;
        }
        at += 1;
    }
    true
}

/// Whether this is a sync of the folder that failed.
fn fails_to_settle(told: &Told) -> bool
    ensures { result ≡ fails_to_settle told.now.request told.now.answer }
{
    match &told.request {
        Request::Settle => !told.answer.is_done(),
        _ => false,
    }
}
