// The clients of a generated play, and the frames that they send.
ghost use Rattle.std.specs.Prelude.{◌≡◌, ◌≤◌, ◌<◌, length, IfOk};
ghost use Rattle.ix_gen.specs.Clients.{ack_frame, behind, data_frame, flow_of, frame_of, opening, openings, stream_from, syn_frame};

use ix_base::{ACK, Bytes, Flow, Local, NoMemory, PSH, SYN, SegHead};
use ix_hash::flow_hash;
use ix_seg::write_frame;
use std::alloc::Global;

/// The hardware address of the server, which is played.
const SERVER_MAC: [u8; 6] = [2, 0, 0, 0, 0, 1];

/// The hardware address of all clients.
const CLIENT_MAC: [u8; 6] = [2, 0, 0, 0, 0, 2];

/// The IPv4 address of the server.
const SERVER_IP: u32 = 0xa18e_6450;

const SERVER_PORT: u16 = 1766;

/// The initial sequence number of each client.
const INITIAL: u32 = 4096;

const WINDOW: u16 = 65535;

const MSS: u16 = 1460;

/// A client between two of its frames.
#[derive(Clone, Copy, Debug, PartialEq, Eq)]
pub struct Client {
    /// Its flow, as it sends.
    pub flow: Flow,
    /// The sequence number of its next byte.
    pub seq: u32,
    /// The sequence number of the byte that it expects.
    pub ack: u32,
    /// The next byte of its stream.
    pub byte: u8,
}

/// The flow of a client by its number.
#[tactic(auto, unfolding(crate::specs::Clients::flow_of))]
fn flow_of(client: u16) -> Flow
    requires { client < 512 }
    ensures { result ≡ flow_of client }
{
    Flow {
        remote: SERVER_IP,
        local: 0x0a00_0000 + client as u32,
        remote_port: SERVER_PORT,
        local_port: 2000 + client,
    }
}

/// The first so many clients, before their SYNs.
#[tactic(auto, unfolding(crate::specs::Clients::openings))]
pub fn openings(alloc: Global, conns: u16) -> Result<Vec<Client>, NoMemory>
    requires { conns ≤ 512 }
    ensures { IfOk result (λ clients. clients.items ≡ openings conns) }
{
    let mut clients = Vec::new(alloc);
    for client in 0..conns {
        clients.push(Client::opening(client))?;
    }
    Ok(clients)
}

/// Bytes of a stream, from one on: each is the number of its place modulo 251.
fn stream_from(alloc: Global, byte: u8, len: u16) -> Result<Bytes, NoMemory>
    ensures is { IfOk result (λ bytes. bytes ≡ stream_from byte len) }
    ensures len { IfOk result (λ bytes. length bytes ≡ len) }
{
    let mut bytes = Bytes::new(alloc);
    let mut next = byte;
    for _ in 0..len {
        bytes.push(next)?;
        next = ((next as u16 + 1) % 251) as u8;
    }
    Ok(bytes)
}

impl Client {
    ghost use Rattle.std.specs.Prelude.{◌≡◌, ◌≤◌, ◌<◌, length, IfOk};
    ghost use Rattle.ix_gen.specs.Clients.{ack_frame, behind, data_frame, frame_of, opening, syn_frame};

    #[tactic(auto, unfolding(crate::specs::Clients::opening))]
    fn opening(client: u16) -> Client
        requires { client < 512 }
        ensures { result ≡ opening client }
    {
        let flow = flow_of(client);
        let seen = Flow {
            remote: flow.local,
            local: flow.remote,
            remote_port: flow.local_port,
            local_port: flow.remote_port,
        };
        Client {
            flow,
            seq: INITIAL + 1,
            ack: flow_hash(&seen).wrapping_add(1),
            byte: 0,
        }
    }

    /// The client behind so many bytes, which the server echoes.
    #[tactic(auto, unfolding(crate::specs::Clients::behind))]
    pub fn behind(&self, len: u16) -> Client
        ensures { result ≡ behind len self.now }
    {
        Client {
            flow: self.flow,
            seq: self.seq.wrapping_add(len as u32),
            ack: self.ack.wrapping_add(len as u32),
            byte: ((self.byte as u32 + len as u32) % 251) as u8,
        }
    }

    /// A frame of this client to the server.
    fn frame(
        &self,
        alloc: Global,
        seq: u32,
        ack: u32,
        flags: u8,
        mss: Option<u16>,
        body: &[u8],
    ) -> Result<Bytes, NoMemory>
        requires { length body.now ≤ 1460 }
        ensures is { IfOk result (λ frame. frame ≡ frame_of self.now.flow seq ack flags mss body.now) }
        ensures short { IfOk result (λ frame. length frame ≤ 1518) }
    {
        let head = SegHead {
            flow: self.flow,
            peer_mac: SERVER_MAC,
            seq,
            ack,
            flags,
            window: WINDOW,
            mss,
            len: body.len() as u16,
            at: 0,
        };
        let side = Local {
            mac: CLIENT_MAC,
            ip: self.flow.local,
            port: self.flow.local_port,
        };
        let mut out = [0; 1518];
        let len = write_frame(&head, body, &side, &mut out);
        Bytes::from_slice(alloc, &out[..len])
    }

    #[tactic(auto, unfolding(crate::specs::Clients::syn_frame))]
    pub fn syn_frame(&self, alloc: Global) -> Result<Bytes, NoMemory>
        ensures is { IfOk result (λ frame. frame ≡ syn_frame self.now) }
        ensures short { IfOk result (λ frame. length frame ≤ 1518) }
    {
        self.frame(alloc, INITIAL, 0, SYN, Some(MSS), &[])
    }

    /// An ACK of all that was echoed.
    #[tactic(auto, unfolding(crate::specs::Clients::ack_frame))]
    pub fn ack_frame(&self, alloc: Global) -> Result<Bytes, NoMemory>
        ensures is { IfOk result (λ frame. frame ≡ ack_frame self.now) }
        ensures short { IfOk result (λ frame. length frame ≤ 1518) }
    {
        self.frame(alloc, self.seq, self.ack, ACK, None, &[])
    }

    /// So many further bytes of the stream.
    #[tactic(auto, unfolding(crate::specs::Clients::data_frame))]
    pub fn data_frame(&self, alloc: Global, len: u16) -> Result<Bytes, NoMemory>
        requires { len ≤ 1460 }
        ensures is { IfOk result (λ frame. frame ≡ data_frame self.now len) }
        ensures short { IfOk result (λ frame. length frame ≤ 1518) }
    {
        let body = stream_from(alloc, self.byte, len)?;
        self.frame(alloc, self.seq, self.ack, PSH | ACK, None, body.as_slice())
    }
}
