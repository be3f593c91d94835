// The rounds of a generated play.
ghost use Rattle.std.specs.Prelude.{◌≡◌, ◌≤◌, ◌++◌, IfOk, OnOk};
ghost use Rattle.ix_gen.specs.Clients.{openings};
ghost use Rattle.ix_gen.specs.Rounds.{acks_of, behind_data, data_of, drawn_for, frames_of, rounds_of, syns_of};

use crate::client::{Client, openings};
use crate::draw::{drawn, next};
use crate::recording::Recording;
use ix_base::NoMemory;
use std::alloc::Global;

/// The SYN of each client.
fn syns(alloc: Global, clients: &[Client], recording: &mut Recording) -> Result<(), NoMemory>
    ensures { OnOk result (recording.new ≡ recording.old ++ syns_of clients.now) }
{
    for client in clients {
        recording.add(client.syn_frame(alloc)?)?;
    }
    Ok(())
}

/// An ACK of each client.
fn acks(alloc: Global, clients: &[Client], recording: &mut Recording) -> Result<(), NoMemory>
    ensures { OnOk result (recording.new ≡ recording.old ++ acks_of clients.now) }
{
    for client in clients {
        recording.add(client.ack_frame(alloc)?)?;
    }
    Ok(())
}

/// What a round of data leaves: the state of the draws, and the clients behind their bytes.
#[derive(Drop)]
struct Ahead {
    state: u32,
    clients: Vec<Client>,
}

/// A round of data, for each client one draw.
fn data(
    alloc: Global,
    state: u32,
    clients: &[Client],
    recording: &mut Recording,
) -> Result<Ahead, NoMemory>
    ensures frames { OnOk result (recording.new ≡ recording.old ++ data_of state clients.now) }
    ensures state { IfOk result (λ ahead. ahead.state ≡ drawn_for state clients.now) }
    ensures clients { IfOk result (λ ahead. ahead.clients.items ≡ behind_data state clients.now) }
{
    let mut ahead = Ahead {
        state,
        clients: Vec::new(alloc),
    };
    for client in clients {
        ahead.state = next(ahead.state);
        let len = drawn(ahead.state);
        recording.add(client.data_frame(alloc, len)?)?;
        ahead.clients.push(client.behind(len))?;
    }
    Ok(ahead)
}

/// So many rounds of data, and the ACKs behind them.
fn rounds(
    alloc: Global,
    count: u8,
    state: u32,
    clients: &[Client],
    recording: &mut Recording,
) -> Result<(), NoMemory>
    ensures { OnOk result (recording.new ≡ recording.old ++ rounds_of count state clients.now) }
{
    if count == 0 {
        return acks(alloc, clients, recording);
    }
    let ahead = data(alloc, state, clients, recording)?;
    rounds(
        alloc,
        count - 1,
        ahead.state,
        ahead.clients.as_slice(),
        recording,
    )
}

/// All frames of the play of a number.
#[tactic(auto, unfolding(crate::specs::Rounds::frames_of))]
pub fn recorded(alloc: Global, number: u32, conns: u16) -> Result<Recording, NoMemory>
    requires { conns ≤ 512 }
    ensures { IfOk result (λ recording. recording ≡ frames_of number conns) }
{
    let clients = openings(alloc, conns)?;
    let mut recording = Recording::new(alloc);
    syns(alloc, &clients, &mut recording)?;
    acks(alloc, &clients, &mut recording)?;
    rounds(alloc, 4, number, &clients, &mut recording)?;
    Ok(recording)
}
