//! The first bytes of an input, read into a room that is there.

use std::io::{self, Read};

/// What came of reading an input's first bytes.
#[derive(Drop)]
pub struct Front {
    /// How many bytes came.
    pub length: usize,
    /// The failed read that ended them, if one did.
    pub fault: Option<io::Error>,
}

/// Reads the first bytes of an input, as many as there are and fit. A failed read ends them.
pub fn read_front<D: Read>(input: &mut D, room: &mut [u8]) -> Front {
    let mut length = 0usize;
    for _ in 0..room.len() {
        let Some(rest) = room.get_mut(length..) else {
            break;
        };
        if rest.is_empty() {
            break;
        }
        match input.read(rest) {
            Ok(0) => break,
            Ok(count) => length = length.saturating_add(count),
            Err(error) => {
                let fault = Some(error);
                return Front { length, fault };
            }
        }
    }
    let fault = None;
    Front { length, fault }
}
