//! Merging files into one.
ghost use Rattle.std.specs.Prelude.{◌≡◌, map, List, ℕ, Some};
ghost use Rattle.std.specs.Result.{result_map_both};
ghost use Rattle.file_commands.specs.CrashLaws.{IsMerged};

use crate::under_lock::refusal_in_memory;
use std::alloc::Global;
use std::io::Read;
use table_model::{Counted, Refusal};

/// The canonical file of what all of some files hold, under the refusals of [`replica_changes::merge`] but `WriteFault`.
pub fn merged<R: Read>(
    alloc: Global,
    first: &mut Counted<R>,
    others: &mut [Counted<R>],
) -> Result<Vec<u8>, Refusal>
    ensures { (input : List ℕ) (inputs : List (List ℕ)) → R.remaining first.old.0 ≡ Some input → map (λ reader. R.remaining reader.0) others.old ≡ map Some inputs →
        IsMerged (result_map_both (λ v. v.items) (λ e. e) result) input inputs }
{
    let mut writer = Counted::new(Vec::new(alloc));
    match replica_changes::merge(alloc, first, others, &mut writer) {
        Ok(()) => Ok(writer.into_inner()),
        Err(refusal) => Err(refusal_in_memory(refusal)),
    }
}
