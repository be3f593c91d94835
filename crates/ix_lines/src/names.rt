// The words that stand for a state, a disposition, an answer.
ghost use Rattle.std.specs.Prelude.{◌≡◌};
ghost use Rattle.ix_words.specs.Parts.{join};
ghost use Rattle.ix_words.specs.Fields.{with_rest};
ghost use Rattle.ix_lines.specs.Names.{state_word, state_of, connect_word, connect_answer_of, kind_words, kind_word, plain_kind_of, ip_fault_of, tcp_fault_of, kind_of, reply_number_of, ret_word, refusal_of, outcome_word, connected_of, dead_of};

use crate::types::{ConnectLine, OutputLine, RetLine};
use ix_base::Disposition;
use ix_tcpdef::State;
use ix_words::{Parts, number_of};

const STATES: [State; 11] = [
    State::Listen,
    State::SynSent,
    State::SynReceived,
    State::Established,
    State::FinWait1,
    State::FinWait2,
    State::CloseWait,
    State::Closing,
    State::LastAck,
    State::TimeWait,
    State::Closed,
];

/// The name of a state, as RFC 9293, section 3.3.2, writes it.
pub fn state_word(state: State) -> &'static str
    ensures { result.now ≡ state_word state }
{
    match state {
        State::Listen => "LISTEN",
        State::SynSent => "SYN-SENT",
        State::SynReceived => "SYN-RECEIVED",
        State::Established => "ESTABLISHED",
        State::FinWait1 => "FIN-WAIT-1",
        State::FinWait2 => "FIN-WAIT-2",
        State::CloseWait => "CLOSE-WAIT",
        State::Closing => "CLOSING",
        State::LastAck => "LAST-ACK",
        State::TimeWait => "TIME-WAIT",
        State::Closed => "CLOSED",
    }
}

/// The state with this name.
#[tactic(auto, unfolding(crate::specs::Names::state_of))]
pub fn state_of(word: &[u8]) -> Option<State>
    ensures { result ≡ state_of word.now }
{
    STATES
        .iter()
        .copied()
        .find(|state| word == state_word(*state).as_bytes())
}

const CONNECT_ANSWERS: [ConnectLine; 4] = [
    ConnectLine::Done,
    ConnectLine::NoNeighbour,
    ConnectLine::NoPort,
    ConnectLine::TableFull,
];

/// The word for what became of a connect.
pub fn connect_word(answer: ConnectLine) -> &'static str
    ensures { result.now ≡ connect_word answer }
{
    match answer {
        ConnectLine::Done => "done",
        ConnectLine::NoNeighbour => "no-neighbour",
        ConnectLine::NoPort => "no-port",
        ConnectLine::TableFull => "table-full",
    }
}

/// What became of a connect, by its word.
#[tactic(auto, unfolding(crate::specs::Names::connect_answer_of))]
pub fn connect_answer_of(word: &[u8]) -> Option<ConnectLine>
    ensures { result ≡ connect_answer_of word.now }
{
    CONNECT_ANSWERS
        .iter()
        .copied()
        .find(|answer| word == connect_word(*answer).as_bytes())
}

const PLAIN_KINDS: [Disposition; 8] = [
    Disposition::NotIp,
    Disposition::NotOurs,
    Disposition::Arp,
    Disposition::NotTcp,
    Disposition::Closed,
    Disposition::Full,
    Disposition::IcmpEcho,
    Disposition::UdpEcho,
];

const IP_FAULTS: [Disposition; 5] = [
    Disposition::BadIpShort,
    Disposition::BadIpVersion,
    Disposition::BadIpLength,
    Disposition::BadIpSum,
    Disposition::BadIpFragment,
];

const TCP_FAULTS: [Disposition; 3] = [
    Disposition::BadTcpShort,
    Disposition::BadTcpOffset,
    Disposition::BadTcpSum,
];

/// The words for a disposition, with a blank between where they are two.
pub fn kind_text(kind: Disposition) -> &'static str
    ensures { result.now ≡ join 32 (kind_words kind) }
{
    match kind {
        Disposition::NotIp => "not-ip",
        Disposition::NotOurs => "not-ours",
        Disposition::Arp => "arp",
        Disposition::BadIpShort => "bad-ip short",
        Disposition::BadIpVersion => "bad-ip version",
        Disposition::BadIpLength => "bad-ip length",
        Disposition::BadIpSum => "bad-ip sum",
        Disposition::BadIpFragment => "bad-ip fragment",
        Disposition::NotTcp => "not-tcp",
        Disposition::BadTcpShort => "bad-tcp short",
        Disposition::BadTcpOffset => "bad-tcp offset",
        Disposition::BadTcpSum => "bad-tcp sum",
        Disposition::Closed => "closed",
        Disposition::Full => "full",
        Disposition::IcmpEcho => "icmp-echo",
        Disposition::UdpEcho => "udp-echo",
    }
}

// The last of the words for a disposition, which names it among its like.
fn kind_word(kind: Disposition) -> &'static str
    ensures { result.now ≡ kind_word kind }
{
    match kind {
        Disposition::BadIpShort | Disposition::BadTcpShort => "short",
        Disposition::BadIpVersion => "version",
        Disposition::BadIpLength => "length",
        Disposition::BadIpSum | Disposition::BadTcpSum => "sum",
        Disposition::BadIpFragment => "fragment",
        Disposition::BadTcpOffset => "offset",
        _ => kind_text(kind),
    }
}

#[tactic(auto, unfolding(crate::specs::Names::plain_kind_of))]
fn plain_kind_of(word: &[u8]) -> Option<Disposition>
    ensures { result ≡ plain_kind_of word.now }
{
    PLAIN_KINDS
        .iter()
        .copied()
        .find(|kind| word == kind_word(*kind).as_bytes())
}

#[tactic(auto, unfolding(crate::specs::Names::ip_fault_of))]
fn ip_fault_of(word: &[u8]) -> Option<Disposition>
    ensures { result ≡ ip_fault_of word.now }
{
    IP_FAULTS
        .iter()
        .copied()
        .find(|kind| word == kind_word(*kind).as_bytes())
}

#[tactic(auto, unfolding(crate::specs::Names::tcp_fault_of))]
fn tcp_fault_of(word: &[u8]) -> Option<Disposition>
    ensures { result ≡ tcp_fault_of word.now }
{
    TCP_FAULTS
        .iter()
        .copied()
        .find(|kind| word == kind_word(*kind).as_bytes())
}

/// Takes a disposition, which is one word or two.
#[tactic(auto, unfolding(crate::specs::Names::kind_of))]
pub fn next_kind(words: &mut Parts<'_>) -> Option<Disposition>
    ensures { with_rest words.new result ≡ kind_of words.old }
{
    let word = words.next_part()?;
    if word == b"bad-ip".as_slice() {
        ip_fault_of(words.next_part()?)
    } else if word == b"bad-tcp".as_slice() {
        tcp_fault_of(words.next_part()?)
    } else {
        plain_kind_of(word)
    }
}

/// The number of a reply, or None for a dash.
#[tactic(auto, unfolding(crate::specs::Names::reply_number_of))]
pub fn reply_number_of(word: &[u8]) -> Option<Option<u32>>
    ensures { result ≡ reply_number_of word.now }
{
    if word == b"-".as_slice() {
        Some(None)
    } else {
        let n = number_of(word, 4_294_967_295)?;
        Some(Some(n as u32))
    }
}

const REFUSALS: [RetLine; 4] = [
    RetLine::BadHandle,
    RetLine::NotKnocked,
    RetLine::NotOpen,
    RetLine::TooMuch,
];

/// The word for what a call answered, in front of the number where there is one.
pub fn ret_word(ret: RetLine) -> &'static str
    ensures { result.now ≡ ret_word ret }
{
    match ret {
        RetLine::Done(_) => "done",
        RetLine::BadHandle => "bad-handle",
        RetLine::NotKnocked => "not-knocked",
        RetLine::NotOpen => "not-open",
        RetLine::TooMuch => "too-much",
    }
}

/// Why a call was refused, by its word.
#[tactic(auto, unfolding(crate::specs::Names::refusal_of))]
pub fn refusal_of(word: &[u8]) -> Option<RetLine>
    ensures { result ≡ refusal_of word.now }
{
    REFUSALS
        .iter()
        .copied()
        .find(|ret| word == ret_word(*ret).as_bytes())
}

const CONNECTED: [OutputLine; 3] = [
    OutputLine::ConnectedUp,
    OutputLine::ConnectedRefused,
    OutputLine::ConnectedTimeout,
];

const DEAD: [OutputLine; 2] = [OutputLine::DeadReset, OutputLine::DeadTimeout];

// The word for how a connect or a connection ended; no word for another output.
fn outcome_word(outcome: OutputLine) -> &'static str
    ensures { result.now ≡ outcome_word outcome }
{
    match outcome {
        OutputLine::ConnectedUp => "up",
        OutputLine::ConnectedRefused => "refused",
        OutputLine::ConnectedTimeout | OutputLine::DeadTimeout => "timeout",
        OutputLine::DeadReset => "reset",
        _ => "",
    }
}

/// How a connect of the application ended, by its word.
#[tactic(auto, unfolding(crate::specs::Names::connected_of))]
pub fn connected_of(word: &[u8]) -> Option<OutputLine>
    ensures { result ≡ connected_of word.now }
{
    CONNECTED
        .iter()
        .copied()
        .find(|outcome| word == outcome_word(*outcome).as_bytes())
}

/// Why a connection died, by its word.
#[tactic(auto, unfolding(crate::specs::Names::dead_of))]
pub fn dead_of(word: &[u8]) -> Option<OutputLine>
    ensures { result ≡ dead_of word.now }
{
    DEAD.iter()
        .copied()
        .find(|outcome| word == outcome_word(*outcome).as_bytes())
}
