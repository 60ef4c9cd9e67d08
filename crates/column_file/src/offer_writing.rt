//! Writing an offer to bytes.
ghost use Rattle.std.specs.Prelude.{◌≡◌, OnOk, Ok};
ghost use Rattle.segment_core.specs.Format.{Writes};
ghost use Rattle.column_file.specs.Files.{HasOfferBytes, offer_bytes, offer_read};

use crate::container_writing::write_container;
use replica_store::Offer;
use std::io::Write;
use table_model::{Counted, Refusal};

/// Writes an offer: its batches in ascending order of name, each vector in its present coding, and its deletions as maximal ranges.
/// Refused is only a write that fails (`WriteFault`); a front of the bytes was written then. It takes no memory.
#[tactic(auto, unfolding(crate::specs::Files::file_of))]
pub fn write_offer<W: Write>(offer: &Offer, writer: &mut Counted<W>) -> Result<(), Refusal>
    ensures written { Writes result (W.contents writer.old.0) (W.contents writer.new.0) writer.old.1 writer.new.1 (offer_bytes offer.now) }
    ensures bytes { OnOk result (HasOfferBytes offer.now) }

    // What was written is read as the same offer, codings included.
    ensures again { OnOk result (offer_read (offer_bytes offer.now) ≡ Ok offer.now) }
{
    write_container(
        writer,
        offer.schema(),
        offer.entries(),
        offer.tombs().ranges(),
    )
}
