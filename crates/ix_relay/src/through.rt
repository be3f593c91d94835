// The epoch of the two, and what it leaves for the caller's thread.
ghost use Rattle.std.specs.Prelude.{◌≡◌, ◌≤◌, [], IfOk, OnOk};
ghost use Rattle.ix_ring.specs.Ends.{put_list, taken, IsRing};
ghost use Rattle.ix_relay.specs.Parties.{to_put, SenderBecame, ReceiverBecame};

use crate::party::{Party, Receiver, Sender};
use ix_base::NoMemory;
use ix_ring::{meet, ring};
use ix_run::{Gate, Turn, epoch};
use std::alloc::Global;
use std::sync::Wait;
use std::thread::Threads;

/// Sends a list through a ring of so many places, from one worker to another. Whatever the gate lets the workers do, what comes out is
/// what went in, in order, with nothing lost and nothing twice: the ends are met after the epoch, and the rest is done by turns.
pub fn relay<R: Threads + Wait + Sync, G: Gate + Sync>(
    rt: &R,
    alloc: Global,
    places: usize,
    items: Vec<u32>,
    gate: &G,
) -> Result<Vec<u32>, NoMemory>
    requires { 1 ≤ places }
    ensures { IfOk result (λ v. v.items ≡ items.items) }
{
    let (put, take) = ring(alloc, places)?;
    let sender = Sender {
        put,
        items,
        next: 0,
    };
    let receiver = Receiver {
        take,
        got: Vec::new(alloc),
        failed: false,
    };
    let (mut sender, mut receiver) = in_workers(rt, sender, receiver, gate)?;
    finish(rt, &mut sender, &mut receiver)?;
    Ok(receiver.got)
}

// One epoch.
fn in_workers<R: Threads + Sync, G: Gate + Sync>(
    rt: &R,
    sender: Sender,
    receiver: Receiver,
    gate: &G,
) -> Result<(Sender, Receiver), NoMemory>
    ensures { IfOk result (λ r. SenderBecame sender r.0 × ReceiverBecame receiver r.1) }
{
    let mut actors = [Party::Sender(sender), Party::Receiver(receiver)];
    epoch(rt, &(), &mut actors, gate)?;
    let [first, second] = actors;
    match (first, second) {
        (Party::Sender(sender), Party::Receiver(receiver)) => Ok((sender, receiver)),
        _ => unreachable!(),
    }
}

// The rest of the epoch, by turns. It is done where a round that began after the sender had ended found the receiver idle.
fn finish<R: Wait>(rt: &R, sender: &mut Sender, receiver: &mut Receiver) -> Result<(), NoMemory>
    requires { IsRing sender.old.put receiver.old.take }
    ensures sender { SenderBecame sender.old sender.new }
    ensures receiver { ReceiverBecame receiver.old receiver.new }
    ensures done { OnOk result ((to_put sender.new ≡ []) × (taken receiver.new.take ≡ put_list sender.new.put)) }
{
    let mut ended = false;
    for _ in rt.forever() {
        meet(&mut sender.put, &mut receiver.take);
        let turn = receiver.turn()?;
        if ended && turn == Turn::Idle {
            return Ok(());
        }
        ended = matches!(sender.turn(), Turn::Ended { frames: _ });
    }
    unreachable!()
}
