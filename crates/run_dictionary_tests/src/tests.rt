//! Runs and dictionaries at values worked out by hand from the definitions of the codings.
ghost use Rattle.std.specs.Prelude.{◌<◌};

use run_dictionary::{Dict, Runs};
use std::test::Fail;
use test_support::{Pattern, agree, column};

/// The runs at 16 bits have 0 up to row 499, and 32767 from row 500 on, which is bit 4 of byte 62, so bit 52 of word 7.
fn two_runs_part_at_500(runs: &Runs) -> Result<(), Fail> {
    let mut words = [0; 16];
    words[7] = 1 << 52;
    agree(runs.starts().words(), &words)?;
    agree(runs.values().in_room(&mut [0; 1024]), [0, 32767].as_slice())?;
    agree(
        (runs.lane_width(), runs.value(499), runs.value(500)),
        (16, 0, 32767),
    )?;
    agree((runs.run_at(499), runs.run_at(500)), (0, 1))
}

#[test]
fn two_runs_take_a_mask_with_one_start(rt: HostRuntime) -> Result<(), Fail> {
    let values = column(16, Pattern::ChangedAt(500, 0, 32767));
    let runs = Runs::encode(rt.alloc(), &values, 16)?;
    two_runs_part_at_500(&runs)
}

/// The dictionary has 0 at even rows and 32767 at odd ones.
fn has_alternating_values(dict: &Dict) -> Result<(), Fail> {
    agree(dict.values().in_room(&mut [0; 1024]), [0, 32767].as_slice())?;
    agree((dict.value(0), dict.value(1023)), (0, 32767))?;
    agree(dict.piece(1).to_array(), [32767; 16])?;
    agree(dict.places_between(1, 32767), (1, 2))
}

/// The dictionary's codes have one bit, and each word of codes has its odd bits set, as a lane has sixteen neighbouring rows.
fn has_alternating_codes(dict: &Dict) -> Result<(), Fail> {
    let width = dict.width();
    agree((dict.lane_width(), width), (16, 1))?;
    agree(dict.codes().words_16(), [0xAAAA; 64].as_slice())?;
    agree(
        (
            Dict::codes_fit(width, dict.codes(), 2),
            Dict::codes_fit(width, dict.codes(), 1),
        ),
        (true, false),
    )
}

/// Both of the above.
fn alternates(dict: &Dict) -> Result<(), Fail> {
    has_alternating_values(dict)?;
    has_alternating_codes(dict)
}

#[test]
fn alternating_values_take_codes_of_one_bit(rt: HostRuntime) -> Result<(), Fail> {
    let values = column(16, Pattern::Alternating(0, 32767));
    let dict = Dict::encode(rt.alloc(), &values, 16)?;
    alternates(&dict)
}
