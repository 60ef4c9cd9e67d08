//! Files and offers in bytes, at bytes and places worked out by hand from the formats.
use column_file::{open, read_offer};
use replica_store::{Offer, Store};
use std::alloc::{AllocError, Global};
use table_model::{Counted, Origin, Refusal};

/// The canonical file of T(A SMALLINT) with the one row 7 in batch 1.1: 42 bytes, of which 13 are the head, 4 say how many batches
/// there are, 17 are the batch, and 8 say how many ranges there are.
pub(crate) const ONE_ROW: &[u8] =
    b"FLCF\x01\0\x01\0\x01T\x02\x01A\x01\0\0\0\x01\0\0\0\x01\0\0\0\0\0\0\0\0\0\0\x07\0\0\0\0\0\0\0\0\0";

/// What stands in the place of the bytes of that file from the first offset to before the second: pieces, each of them some bytes
/// and then so many, up to 256, that are 0.
pub(crate) type Change = (usize, usize, &'static [(&'static [u8], usize)]);

pub(crate) const ZEROS: &[u8] = &[0; 256];

/// Adds these pieces, and then what stands after them.
fn extend(bytes: &mut Vec<u8>, pieces: &[(&[u8], usize)], back: &[u8]) -> Result<(), AllocError> {
    for (piece, zeros) in pieces {
        bytes.extend_from_slice(piece)?;
        bytes.extend_from_slice(ZEROS.split_at((*zeros).min(ZEROS.len())).0)?;
    }
    bytes.extend_from_slice(back)
}

/// That file with a change.
pub(crate) fn changed(alloc: Global, change: &Change) -> Result<Vec<u8>, AllocError> {
    let (front, _) = ONE_ROW.split_at(change.0.min(ONE_ROW.len()));
    let (_, back) = ONE_ROW.split_at(change.1.min(ONE_ROW.len()));
    let mut bytes = Vec::from_slice(alloc, front)?;
    extend(&mut bytes, change.2, back)?;
    Ok(bytes)
}

/// The store of origin 2 that a file opens to.
pub(crate) fn opened(alloc: Global, bytes: &[u8]) -> Result<Store, Refusal> {
    open(alloc, &mut Counted::new(bytes), Origin(2))
}

/// The offer that bytes are.
pub(crate) fn offer_from(alloc: Global, bytes: &[u8]) -> Result<Offer, Refusal> {
    read_offer(alloc, &mut Counted::new(bytes))
}

/// One row 1, 2, 3 of batch 2.1 and the deleted rows 2.1.0 and 2.1.9: 198 bytes. The three values are runs.
pub(crate) const THREE_ROWS: Change = (
    13,
    42,
    &[
        (
            b"\x01\0\0\0\x02\0\0\0\x01\0\0\0\x02\0\0\x02\x01\x03\0\x06",
            127,
        ),
        (b"\x01\0\x02\0\x03\0\x02", 7),
        (
            b"\x02\0\0\0\x01\0\0\0\0\0\0\0\x02\0\0\0\x01\0\0\0\x09\0\x09\0",
            0,
        ),
    ],
);
