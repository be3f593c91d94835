// What an application is told of a connection.
ghost use Rattle.std.specs.Prelude.{◌≡◌, ℕ};
ghost use Rattle.ix_mbuf.specs.declared.name.Name.{Name};
ghost use Rattle.ix_mbuf.specs.Owners.{maybe, weigh};
ghost use Rattle.ix_call.specs.Events.{event_part, event_weight, event_names};

use ix_base::Handle;
use ix_mbuf::Part;

/// An event.
#[derive(Drop)]
pub enum Event {
    /// A peer asks for a connection from this address and port.
    Knock {
        handle: Handle,
        ip: u32,
        port: u16,
    },
    /// A connection that was opened from here came up, or did not.
    Connected {
        cookie: u64,
        outcome: Outcome,
    },
    /// The next bytes of the peer, in a part of the buffer in which they came; without a part the peer's stream has ended.
    Recv {
        cookie: u64,
        part: Option<Part>,
    },
    /// So many bytes were acknowledged, and there is room for `window` more.
    Sent {
        cookie: u64,
        bytes: u32,
        window: u32,
    },
    /// The connection is gone.
    Dead {
        cookie: u64,
        reason: Reason,
    },
}

/// How an opening ended.
#[derive(Clone, Copy, Debug, PartialEq, Eq)]
pub enum Outcome {
    /// The connection is up, and is called by this handle.
    Up(Handle),
    /// The peer refused it.
    Refused,
    /// The peer did not answer in time.
    Timeout,
}

/// Why a connection is gone.
#[derive(Clone, Copy, Debug, PartialEq, Eq)]
pub enum Reason {
    /// The peer reset the connection.
    Reset,
    /// The peer did not answer in time.
    Timeout,
}

impl Event {
    /// The part that the event tells. Its buffer is the only one in it.
    pub fn into_part(self) -> Option<Part>
        ensures part { result ≡ event_part self }
        ensures weight { (f : Name → ℕ) → maybe (λ p. f p.buf.name) result ≡ event_weight f self }
        ensures names { (f : Name → ℕ) → weigh f (event_names self) ≡ event_weight f self }
    {
        match self {
            Event::Recv { cookie: _, part } => part,
            Event::Knock {
                handle: _,
                ip: _,
                port: _,
            } => None,
            Event::Connected {
                cookie: _,
                outcome: _,
            } => None,
            Event::Sent {
                cookie: _,
                bytes: _,
                window: _,
            } => None,
            Event::Dead {
                cookie: _,
                reason: _,
            } => None,
        }
    }
}
