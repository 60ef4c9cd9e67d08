//! Runs: the steps of a history, one after another.
ghost use Rattle.std.specs.Prelude.{◌≡◌, IfOk, OnErr};
ghost use Rattle.cluster_history.specs.Run.{Run, CodedRun};

use crate::cluster::Cluster;
use crate::reply::Reply;
use crate::step::Step;
use std::alloc::{AllocError, Global};

/// The reply to each step, in order; each step finds what the earlier ones left.
///
/// A refusal is a reply too, `Memory` included, and its step changes nothing. An error is answered only if the list of replies
/// couldn't be made, and then no step is done.
pub fn run(alloc: Global, cluster: &mut Cluster, steps: &[Step]) -> Result<Vec<Reply>, AllocError>
    ensures run { IfOk result (λ replies. Run cluster.old.parts steps.now replies.items cluster.new.parts) }
    ensures coded { IfOk result (λ replies. CodedRun cluster.old steps.now replies.items cluster.new) }
    ensures err { OnErr result (cluster.new ≡ cluster.old) }
{
    let mut replies = Vec::with_capacity(alloc, steps.len())?;
    for step in steps {
        replies.push(cluster.step(alloc, step))?;
    }
    Ok(replies)
}
