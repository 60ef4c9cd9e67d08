//! Room for batches: how many a folder may have.
ghost use Rattle.std.specs.Prelude.{◌≡◌, ◌≤◌, ◌*◌, length};
ghost use Rattle.std.specs.List.{sum};
ghost use Rattle.folder_parts.specs.Heads.{room_for};

use replica_store::MAX_BATCHES;
use table_model::Refusal;

/// The sum of numbers.
fn sum_of(numbers: &[u32]) -> u128
    ensures value { result ≡ sum numbers.now }
    ensures bound { result ≤ length numbers.now * 4294967295 }
{
    let mut total: u128 = 0;
    for index in 0..numbers.len() {
        total += u128::from(numbers[index]);
    }
    total
}

/// Whether parts with these numbers of batches have room for a number of new ones: all of them together are at most 1,048,576. Otherwise `Full`.
/// A batch that lies in two parts counts twice. There is always room for no batch.
pub fn check_room(batches: &[u32], new: u32) -> Result<(), Refusal>
    ensures { result ≡ room_for batches.now new }
{
    if new == 0 || u128::from(new) + sum_of(batches) <= MAX_BATCHES as u128 {
        Ok(())
    } else {
        Err(Refusal::Full)
    }
}
