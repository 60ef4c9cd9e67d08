//! Messages between the replicas of a cluster.
ghost use Rattle.std.specs.Prelude.{◌≡◌, IfSome, Some, option_map};
ghost use Rattle.cluster_history.specs.Cluster.{numbered};
ghost use Rattle.cluster_history.specs.Message.{messages_in, listing_in, offering_in};
ghost use Rattle.cluster_history.specs.Segments.{segments_brought};

use crate::cluster::place_of;
use replica_store::{Offer, Summary};

/// What one replica of a cluster sends another.
#[derive(Drop)]
pub enum Message {
    /// The names of the batches that a replica had when it was asked.
    Summary(Summary),
    /// What a replica had, when it served such a summary, in addition to the batches that the summary names, with the codings that it
    /// had, and all its deletions.
    Offer(Offer),
}

/// The summary that the message with this number is, if it is one.
pub fn summary_at(messages: &[Message], number: u32) -> Option<&Summary>
    ensures { option_map (λ summary. summary.now) result ≡ listing_in (numbered (messages_in messages.now) number) }
{
    let place = place_of(messages.len(), number)?;
    match &messages[place] {
        Message::Summary(summary) => Some(summary),
        Message::Offer(_) => None,
    }
}

/// The offer that the message with this number is, if it is one.
pub fn offer_at(messages: &[Message], number: u32) -> Option<&Offer>
    ensures offer { option_map (λ offer. (offer.now.schema, offer.now.state)) result ≡ offering_in (numbered (messages_in messages.now) number) }
    ensures segments { IfSome result (λ offer. numbered (segments_brought messages.now) number ≡ Some offer.now.segments) }
{
    let place = place_of(messages.len(), number)?;
    match &messages[place] {
        Message::Summary(_) => None,
        Message::Offer(offer) => Some(offer),
    }
}
