//! The laws of packing.
ghost use Rattle.bit_interleave.specs.Packing.{UnpackingUndoesPacking, PackingUndoesUnpacking};
ghost use Rattle.bit_interleave.specs.PackedBytes.{WordsComeBackFromBytes, BytesComeBackFromWords, PackedVectorsTakeBlocks, BlocksArePackedVectors};

/// The law that unpacking gives back the 1024 values that were packed, at each lane width and each width that they fit.
pub fn unpacking_undoes_packing()
    ensures { UnpackingUndoesPacking }
{}

/// The law that packing gives back the `width * (1024 / lane_width)` words that were unpacked, so that every bit of
/// every word is some value's.
pub fn packing_undoes_unpacking()
    ensures { PackingUndoesUnpacking }
{}

/// The law that packed words and their bytes give each other back.
pub fn words_and_bytes_come_back()
    ensures words { WordsComeBackFromBytes }
    ensures bytes { BytesComeBackFromWords }
{}

/// The law that 1024 values of `width` bits are `128 * width` bytes at every lane width.
pub fn packed_vectors_are_blocks_of_bytes()
    ensures bytes { PackedVectorsTakeBlocks }
    ensures words { BlocksArePackedVectors }
{}
