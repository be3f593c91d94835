// One connection, what happens to it, and what it gives.

use arrayvec::ArrayVec;
use ix_base::{Bytes, Flow, List, Ret, Seg, WireNo};

/// The place in a frame at which a body begins, in octets, behind a TCP header with the maximum segment size option (RFC 9293, section 3.2).
pub const BEHIND_SYN: u16 = 58;

/// The place in a frame at which a body begins, in octets, behind a TCP header without options.
pub const BEHIND_HEADER: u16 = 54;

/// The numbers of a configuration that a connection obeys. Times are in ticks, sizes in bytes.
#[derive(Clone, Copy, Debug, PartialEq, Eq)]
pub struct Cfg {
    /// The receive buffer: how many unread bytes a connection takes, 64 to 65,535.
    pub window: u16,
    /// The largest body that is sent, 64 to 1,460.
    pub mss: u16,
    /// The first retransmission timeout, 1 to 60,000.
    pub rto: u32,
    /// How many expiries in a row end a connection, 1 to 8.
    pub retries: u8,
    /// How long a connection stays in TIME-WAIT, 1 to 60,000.
    pub time_wait: u32,
}

/// The states of RFC 9293, section 3.3.2.
#[derive(Clone, Copy, Debug, PartialEq, Eq)]
pub enum State {
    Listen,
    SynSent,
    SynReceived,
    Established,
    FinWait1,
    FinWait2,
    CloseWait,
    Closing,
    LastAck,
    TimeWait,
    Closed,
}

/// A part of the peer's stream that was delivered.
#[derive(Drop)]
pub struct Piece {
    /// The wire number of the segment that carried it.
    pub w: WireNo,
    /// Its first place in that segment's frame.
    pub from: u16,
    /// The bytes of the part.
    pub bytes: Bytes,
    /// Whether the application was told of it.
    pub told: bool,
}

/// A segment that waits until the hole before it is filled.
#[derive(Drop)]
pub struct HeldSegment {
    /// The position of its first octet.
    pub at: u64,
    /// Its wire number.
    pub w: WireNo,
    /// Its first place in its frame.
    pub from: u16,
    /// Its octets, as far as they lie in the window.
    pub bytes: Bytes,
    /// Whether a FIN stands behind its octets.
    pub fin: bool,
}

/// One connection with whole byte lists. Positions are counted from the initial sequence numbers, which are position 0, so that byte i
/// of a stream stands at position i + 1 and nothing wraps.
#[derive(Drop)]
pub struct Connection {
    /// Its two ends.
    pub flow: Flow,
    /// The hardware address that its frames go to.
    pub peer_mac: [u8; 6],
    /// Its state.
    pub state: State,
    /// The initial send sequence number.
    pub iss: u32,
    /// The initial receive sequence number, 0 until it is known.
    pub irs: u32,
    /// The largest body that is sent to this peer.
    pub mss: u16,
    /// All bytes that calls ever gave it to send.
    pub sent: Bytes,
    /// SND.UNA: the first position that is not acknowledged.
    pub una: u64,
    /// SND.NXT: the first position that was never sent.
    pub nxt: u64,
    /// RCV.NXT: the position that is expected next.
    pub rcv: u64,
    /// SND.WND: the peer's window, in bytes.
    pub wnd: u32,
    /// SND.WL1 and SND.WL2: the sequence and the acknowledgement number of the segment from which that window was taken.
    pub wl1: u32,
    pub wl2: u32,
    /// All parts that were ever delivered, in order.
    pub pieces: List<Piece>,
    /// What waits for a hole to be filled, by rising position.
    pub held: List<HeldSegment>,
    /// How many delivered bytes are not given back.
    pub unread: u32,
    /// When the timer of this connection expires.
    pub deadline: Option<u64>,
    /// How often it expired in a row.
    pub expiries: u8,
    /// The congestion window, in bytes (RFC 5681).
    pub cwnd: u32,
    /// The slow start threshold, in bytes (RFC 5681).
    pub ssthresh: u32,
    /// How many duplicate acknowledgements came in a row.
    pub dups: u8,
    /// Whether it is in fast recovery.
    pub recovering: bool,
    /// Whether the first unacknowledged segment is to be sent again at the next flush.
    pub resend: bool,
    /// Whether its stream is closed, so that a FIN is to follow its bytes.
    pub fin_wanted: bool,
    /// Whether the FIN was sent.
    pub fin_sent: bool,
    /// Whether the application is to be told when there is room to send.
    pub wants: bool,
    /// Whether the next flush has to send an acknowledgement.
    pub ack_owed: bool,
    /// Whether a knock was told.
    pub knocked: bool,
    /// Whether the application accepted it, or the connection that it asked for stands.
    pub accepted: bool,
    /// Whether the application closed it.
    pub shut: bool,
}

/// A call of the application, without its handle and with its chunks joined.
#[derive(Drop)]
pub enum Ask {
    /// Opens a connection to the peer.
    Connect,
    /// Takes the connection of which a knock was told.
    Accept,
    /// Gives bytes to be sent.
    Sendv { bytes: Bytes },
    /// Gives back so many bytes of those that came.
    RecvDone { bytes: u32 },
    /// Ends this side's stream; nothing more is read.
    Close,
}

/// What happens to a connection.
#[derive(Drop)]
pub enum Input {
    /// A segment of its flow arrives, with its wire number.
    Segment { w: WireNo, seg: Seg },
    /// Its timer expires.
    Timer,
    /// The application calls.
    Call(Ask),
    /// A cycle ends: what is due is sent.
    Flush,
}

/// What an application is told.
#[derive(Clone, Copy, Debug, Default, PartialEq, Eq)]
pub enum Told {
    /// A peer opened this connection.
    #[default]
    Knock,
    /// The connection that the application asked for stands.
    ConnectedUp,
    /// The peer refused it.
    ConnectedRefused,
    /// The peer did not answer.
    ConnectedTimeout,
    /// Bytes came: the wire number of their segment, their first place in its frame, and how many.
    Recv { w: WireNo, from: u16, len: u16 },
    /// The peer's stream has ended.
    RecvEnd,
    /// So many bytes were acknowledged, and so many more may be given.
    Sent { bytes: u32, window: u32 },
    /// The peer reset the connection.
    DeadReset,
    /// The peer acknowledged nothing for too long.
    DeadTimeout,
}

/// What a connection gives.
#[derive(Drop)]
pub enum Output {
    /// A segment that is sent.
    Frame(Seg),
    /// An event for the application.
    Told(Told),
    /// What a call of the application came to.
    Ret(Ret),
}

pub type Outputs = List<Output>;

/// How a connection was left, in positions.
#[derive(Clone, Copy, Debug, PartialEq, Eq)]
pub struct Left {
    /// Its state.
    pub state: State,
    /// SND.UNA, SND.NXT and RCV.NXT.
    pub una: u64,
    pub nxt: u64,
    pub rcv: u64,
    /// The congestion window and the slow start threshold, in bytes.
    pub cwnd: u32,
    pub ssthresh: u32,
}

/// What a held segment is among numbers: where it begins, how long it is, and whether a FIN stands behind it.
#[derive(Clone, Copy, Debug, Default, PartialEq, Eq)]
pub struct HeldHead {
    /// The sequence number of its first octet.
    pub at: u32,
    /// How many octets it has.
    pub len: u16,
    /// Whether a FIN stands behind them.
    pub fin: bool,
}

/// The numbers of one connection modulo 2^32, without its bytes. What a field means is said at the field of that name of `Connection`, but
/// that each position is a sequence number here (RFC 9293, section 3.4).
#[derive(Drop)]
pub struct Tcb {
    pub flow: Flow,
    pub peer_mac: [u8; 6],
    pub state: State,
    pub iss: u32,
    pub irs: u32,
    /// SND.UNA and SND.NXT.
    pub una: u32,
    pub nxt: u32,
    pub wnd: u32,
    pub wl1: u32,
    pub wl2: u32,
    /// RCV.NXT.
    pub rcv_nxt: u32,
    pub unread: u32,
    pub mss: u16,
    /// How many bytes of the send queue stand from SND.UNA on.
    pub queued: u32,
    pub expiries: u8,
    pub deadline: Option<u64>,
    /// What waits behind a hole, by rising position: at most as many as a connection holds.
    pub held: ArrayVec<HeldHead, 8>,
    pub cwnd: u32,
    pub ssthresh: u32,
    pub dups: u8,
    pub recovering: bool,
    pub resend: bool,
    pub fin_wanted: bool,
    pub fin_sent: bool,
    pub wants: bool,
    pub ack_owed: bool,
    pub knocked: bool,
    pub accepted: bool,
    pub shut: bool,
}

/// A step that is under way: the connection so far, and what it gave so far.
#[derive(Drop)]
pub struct Job {
    /// The connection so far.
    pub connection: Connection,
    /// What it gave so far.
    pub outputs: Outputs,
}

/// The octets of a body that lie in the window.
#[derive(Drop)]
pub struct Octets {
    /// The position of the first.
    pub at: u64,
    /// Its place in the frame.
    pub from: u16,
    /// The octets themselves.
    pub bytes: Bytes,
    /// Whether none was cut off behind them.
    pub whole: bool,
}
