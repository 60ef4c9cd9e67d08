//! Which parts are packed.
ghost use Rattle.std.specs.Prelude.{◌≡◌, ◌+◌, ◌*◌, ◌<◌, cond, nat_le};
ghost use Rattle.folder_parts.specs.Packing.{IsPackedPrefix};

/// How many times the bytes of a part that is packed go into those of the parts before it.
const TIMES: u128 = 7;

/// How many parts are packed up to the place `at` whose part has this size, if a number of bytes and `count` packed parts are before it.
fn packed_up_to(at: usize, size: u64, before: u128, count: usize) -> usize
    requires { at < 9223372036854775808 }
    ensures { result ≡ cond (nat_le (7 * size) before) (at + 1) count }
{
    if TIMES * u128::from(size) <= before {
        at + 1
    } else {
        count
    }
}

/// How many of a folder's parts are packed, by their sizes in ascending order: the first ones, up to the greatest that has at most a
/// seventh of the bytes of those before it together. If it is fewer than two, nothing is to be packed.
pub fn packed_prefix(sizes: &[u64]) -> usize
    ensures { IsPackedPrefix sizes.now result }
{
    let mut before: u128 = 0;
    let mut count = 0;
    for index in 0..sizes.len() {
        count = packed_up_to(index, sizes[index], before, count);
        before += u128::from(sizes[index]);
    }
    count
}
