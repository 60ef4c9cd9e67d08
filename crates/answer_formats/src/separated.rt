//! Texts with a separator between each two.
ghost use Rattle.std.specs.Prelude.{◌≡◌, ◌==◌, ◌++◌, cond, [], OnOk};

use std::alloc::AllocError;

/// Puts a separator behind a text, unless what comes next is the first piece.
pub(crate) fn separate(out: &mut Vec<u8>, between: &[u8], index: usize) -> Result<(), AllocError>
    ensures { OnOk result (out.new.items ≡ out.old.items ++ cond (index == 0) [] between.now) }
{
    if index == 0 {
        return Ok(());
    }
    out.extend_from_slice(between)
}
