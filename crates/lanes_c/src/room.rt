//! Handing bytes out into a room that a caller owns.
ghost use Rattle.std.specs.Prelude.{◌≡◌, Ok};
ghost use Rattle.lanes_c.specs.Rooms.{filled, given_by, number_told, room_left, length_told, place_told};

use crate::fault::{Fault, Place};

/// Puts bytes or numbers at a room's front if they fit, and else leaves the room as it is.
pub(crate) fn fill<T: Copy>(items: &[T], room: &mut [T])
    ensures { room.new ≡ filled items.now room.old }
{
    if items.len() <= room.len() {
        let (front, _) = room.split_at_mut(items.len());
        front.copy_from_slice(items);
    }
}

/// Tells a caller that a call gave these bytes.
pub(crate) fn hand_over(bytes: &[u8], room: &mut [u8], length: &mut usize, place: &mut Place) -> u8
    ensures number { result ≡ number_told (Ok bytes.now) }
    ensures room { room.new ≡ room_left (Ok bytes.now) room.old }
    ensures length { length.new ≡ length_told (Ok bytes.now) }
    ensures place { place.new ≡ place_told (Ok bytes.now) }
{
    fill(bytes, room);
    *length = bytes.len();
    *place = Place::nowhere();
    0
}

/// Tells a caller what a call gave: bytes, which are put into the room if they fit, with their length and 0; or a fault's number
/// and place, with the length 0 and the room as it was.
pub(crate) fn hand_out(
    given: Result<Vec<u8>, Fault>,
    room: &mut [u8],
    length: &mut usize,
    place: &mut Place,
) -> u8
    ensures number { result ≡ number_told (given_by given) }
    ensures room { room.new ≡ room_left (given_by given) room.old }
    ensures length { length.new ≡ length_told (given_by given) }
    ensures place { place.new ≡ place_told (given_by given) }
{
    match given {
        Ok(bytes) => hand_over(bytes.as_slice(), room, length, place),
        Err(fault) => {
            *length = 0;
            *place = fault.place();
            fault.number()
        }
    }
}
