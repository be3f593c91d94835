// The order of the replies of a play.
ghost use Rattle.std.specs.Prelude.{◌≡◌, ℕ, ◌<◌, ◌^◌, All, IfOk, map};
ghost use Rattle.std.specs.List.Sorted.{IsPermutation, IsSortedByKey};
ghost use Rattle.ix_pcap.specs.Written.{IsWritable};
ghost use Rattle.ix_playdef.specs.Replies.{IsShort};
ghost use Rattle.ix_playdef.specs.Order.{key_cmp, key_of, sent_of, tick_in};

use crate::clock::clocks_of;
use ix_base::{Bytes, GroupId, NoMemory, WireNo};
use ix_pcap::Sent;
use ix_wire::Entry;
use std::alloc::Global;

/// When in a cycle of its group a reply is given.
#[derive(Clone, Copy, Debug, PartialEq, Eq, PartialOrd, Ord)]
pub enum Phase {
    /// Before all cycles, by a connect.
    Connect,
    /// As a frame is taken, by a connection or as the answer to a stray.
    Taken,
    /// As the timer expires.
    Timer,
    /// At the flush.
    Flush,
}

/// Where a reply stands among all replies: keys are compared field by field. The last three fields and the group name a reply.
#[derive(Clone, Copy, Debug, PartialEq, Eq, PartialOrd, Ord)]
pub struct ReplyKey {
    /// The entry of the frame that it answers, or the last entry of the cycle of its timer or flush; a connect has none and comes first.
    pub entry: Option<WireNo>,
    pub group: GroupId,
    pub phase: Phase,
    /// Where its connection stands among those of the group that give something in this phase of this cycle, as whoever makes the report
    /// chose it; 0 for the answer to a stray.
    pub place: usize,
    /// 0 for the answer to a stray, else one more than the place of its connection among those of its group, in opening order.
    pub opening: usize,
    /// The place in the connection's journal of the input that gave it; for the answer to a stray that of the stray among those of the group.
    pub input: usize,
    /// Its place among all that the input gave.
    pub output: usize,
}

/// A frame that a play sends, with its place in the order of the replies.
#[derive(Debug, Drop)]
pub struct Reply {
    pub key: ReplyKey,
    pub frame: Bytes,
}

/// The replies of a play in their order.
pub fn in_order(replies: Vec<Reply>) -> Result<Vec<Reply>, NoMemory>
    ensures same { IfOk result (λ sorted. IsPermutation replies.items sorted.items) }
    ensures order { IfOk result (λ sorted. IsSortedByKey key_of key_cmp sorted.items) }
{
    let mut sorted = replies;
    sorted.sort_by_key(|reply| reply.key)?;
    Ok(sorted)
}

// The clock of an entry, by the clocks of all.
fn tick_in(clocks: &[u64], entry: Option<WireNo>) -> u64
    requires { All (λ (clock : ℕ). clock < 2 ^ 32) clocks.now }
    ensures tick { result ≡ tick_in clocks.now entry }
    ensures below { result < 2 ^ 32 }
{
    match entry {
        Some(w) => match clocks.get(w.0 as usize) {
            Some(clock) => *clock,
            None => 0,
        },
        None => 0,
    }
}

/// The replies as they are sent, each at its tick: the clock of its entry, or 0 for a connect.
#[tactic(auto, using(crate::proofs::Ticks::for_sent))]
pub fn sent_at(alloc: Global, entries: &[Entry], replies: Vec<Reply>) -> Result<Vec<Sent>, NoMemory>
    ensures sent { IfOk result (λ sent. sent.items ≡ map (sent_of entries.now) replies.items) }

    // A capture can be written of them where no frame is too long.
    ensures writable { All IsShort replies.items → IfOk result (λ sent. All IsWritable sent.items) }
{
    let clocks = clocks_of(alloc, entries)?;
    let mut sent = Vec::with_capacity(alloc, replies.len())?;
    for reply in replies {
        let Reply { key, frame } = reply;
        let at = tick_in(&clocks, key.entry);
        sent.push(Sent { at, frame })?;
    }
    Ok(sent)
}
