//! Places and masks at values worked out by hand from the order 0 4 2 6 1 5 3 7 and the bits of words.
use std::test::Fail;
use test_support::agree;
use transpose_order::{Mask, place, place_in_word, position, row_at};

// Row 16 has part 16 of word 0, which is quarter 1 at 16 bits, and 1 in two bits reversed is 2: lane 16 * 2. Row 8 is
// eighth 1 at 8 bits, and 1 in three bits reversed is 4: lane 16 * 4. Row 64 begins word 1.
#[test]
fn rows_stand_at_their_places() -> Result<(), Fail> {
    agree(
        [
            place(16, 16),
            place(16, 64),
            place(32, 1023),
            place(8, 8),
            place(64, 127),
        ],
        [(32, 0), (1, 0), (31, 31), (64, 0), (1, 63)],
    )?;
    agree(
        [
            row_at(16, 32, 0),
            row_at(8, 127, 7),
            position(16),
            position(1023),
            position(1),
            place_in_word(16, 16),
            place_in_word(64, 17),
        ],
        [16, 1023, 32, 1023, 128, 32, 17],
    )
}

// Rows 60 to 69 are the four high bits of word 0 and the six low bits of word 1.
#[test]
fn a_range_of_rows_crosses_words() -> Result<(), Fail> {
    let mut mask = Mask::none();
    mask.set_range(60, 70, true);
    let words = mask.words();
    agree(
        [words[0], words[1], words[2]],
        [0xF000_0000_0000_0000, 0x3F, 0],
    )?;
    agree(
        (mask.count(), mask.count_below(64), mask.count_below(69)),
        (10, 4, 9),
    )?;
    agree(
        (mask.get(59), mask.get(60), mask.get(69), mask.get(70)),
        (false, true, true, false),
    )
}
