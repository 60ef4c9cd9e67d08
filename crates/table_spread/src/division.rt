//! The places at which shares of about equal bytes begin.
ghost use Rattle.std.specs.Prelude.{◌≡◌, ◌≤◌, ◌<◌, ◌-◌, true};
ghost use Rattle.std.specs.FinMap as map;

use column_file::Length;
use replica_store::Store;
use segment_core::Segment;
use table_model::Counted;

/// How the batches of a table are divided: how many shares there are, how many batches, and how many bytes these have.
#[derive(Clone, Copy, Debug)]
pub(crate) struct Division {
    shares: usize,
    batches: usize,
    bytes: u64,
}

impl Division {
    /// The division of a store's batches into so many shares.
    pub fn of(store: &Store, shares: usize) -> Division
        ensures shares { result.shares ≡ shares }
        ensures batches { result.batches ≡ map.len store.now.replica.state.batches }
    {
        let mut bytes = 0u64;
        for place in 0..store.batches() {
            let (_, segment) = store.batch(place);
            bytes = bytes.saturating_add(bytes_of(segment));
        }
        Division {
            shares,
            batches: store.batches(),
            bytes,
        }
    }

    /// Whether the batch at a place, before which there are so many bytes, begins the next share, when so many have begun: if these
    /// have their part of all bytes, or if each batch that is left has to begin one.
    pub fn begins(&self, begun: usize, place: usize, before: u64) -> bool
        ensures more { result ≡ true → begun < self.now.shares }
        ensures last { 1 ≤ place → begun < self.now.shares → self.now.batches - place ≤ self.now.shares - begun → result ≡ true }
    {
        if place == 0 || begun >= self.shares {
            return false;
        }
        let has_few = self.batches.saturating_sub(place) <= self.shares - begun;
        let part = u128::from(self.bytes).saturating_mul(begun as u128);
        has_few || u128::from(before).saturating_mul(self.shares as u128) >= part
    }
}

/// How many bytes the vectors of a batch have in a file.
pub(crate) fn bytes_of(segment: &Segment) -> u64 {
    let mut writer = Counted::new(Length::new());
    // A writer that counts never fails.
    let _ = segment.write_bytes(&mut writer);
    writer.into_inner().bytes()
}
