//! Whether two vectors are one, part for part: then they have the same cells, and nothing needs to be decoded.
ghost use Rattle.std.specs.Prelude.{◌≡◌, ◌↔◌, IsTrue};

use crate::coded::Coded;
use bit_interleave::Words;
use frame_delta::{Delta, For};
use run_dictionary::{Dict, Runs};
use transpose_order::Mask;

/// Whether two lists of words are the same.
fn same_words(words: &Words, others: &Words) -> bool
    ensures { IsTrue result ↔ (words.now ≡ others.now) }
{
    let lane_width = words.lane_width();
    if lane_width != others.lane_width() {
        return false;
    }
    match lane_width {
        8 => words.words_8() == others.words_8(),
        16 => words.words_16() == others.words_16(),
        32 => words.words_32() == others.words_32(),
        _ => words.words_64() == others.words_64(),
    }
}

/// Whether two masks have the same rows.
pub(crate) fn same_mask(mask: &Mask, other: &Mask) -> bool
    ensures { IsTrue result ↔ (mask.now ≡ other.now) }
{
    *mask == *other
}

/// Whether two forms of FOR are the same.
fn same_frame(form: &For, other: &For) -> bool
    ensures { IsTrue result ↔ (form.now ≡ other.now) }
{
    form.lane_width() == other.lane_width()
        && form.width() == other.width()
        && form.reference() == other.reference()
        && same_words(form.words(), other.words())
}

/// Whether two forms of DELTA are the same.
fn same_deltas(form: &Delta, other: &Delta) -> bool
    ensures { IsTrue result ↔ (form.now ≡ other.now) }
{
    form.lane_width() == other.lane_width()
        && form.width() == other.width()
        && form.least() == other.least()
        && form.bases().is_same(other.bases())
        && same_words(form.words(), other.words())
}

/// Whether two forms of RLE are the same.
fn same_runs(form: &Runs, other: &Runs) -> bool
    ensures { IsTrue result ↔ (form.now ≡ other.now) }
{
    form.lane_width() == other.lane_width()
        && same_mask(form.starts(), other.starts())
        && form.values().is_same(other.values())
}

/// Whether two forms of DICT are the same.
fn same_dictionary(form: &Dict, other: &Dict) -> bool
    ensures { IsTrue result ↔ (form.now ≡ other.now) }
{
    form.lane_width() == other.lane_width()
        && form.width() == other.width()
        && form.values().is_same(other.values())
        && same_words(form.codes(), other.codes())
}

/// Whether two vectors' values are coded alike, part for part.
pub(crate) fn same_form(coded: &Coded, other: &Coded) -> bool
    ensures { IsTrue result ↔ (coded.now ≡ other.now) }
{
    match (coded, other) {
        (Coded::For(form), Coded::For(other)) => same_frame(form.get(), other.get()),
        (Coded::Delta(form), Coded::Delta(other)) => same_deltas(form.get(), other.get()),
        (Coded::Runs(form), Coded::Runs(other)) => same_runs(form.get(), other.get()),
        (Coded::Dict(form), Coded::Dict(other)) => same_dictionary(form.get(), other.get()),
        _ => false,
    }
}
