// What a call gives: heads with ranges of the send queue, and at most one event.
ghost use Rattle.std.specs.Prelude.{◌≡◌, [], ◌∷◌, Option, None, false, true};
ghost use Rattle.ix_tcpdef.specs.declared.types.Told.{Told as AnEvent};

use arrayvec::ArrayVec;
use ix_base::{Flow, SegHead};
use ix_tcpdef::Told;

/// A segment that is to be sent: its head, and the range of the send queue that it carries, counted in bytes from SND.UNA.
#[derive(Clone, Copy, Debug, PartialEq, Eq)]
pub struct OutSeg {
    pub head: SegHead,
    pub from: u32,
    pub to: u32,
}

impl Default for OutSeg {
    fn default() -> OutSeg {
        OutSeg {
            head: SegHead {
                flow: Flow {
                    remote: 0,
                    local: 0,
                    remote_port: 0,
                    local_port: 0,
                },
                peer_mac: [0; 6],
                seq: 0,
                ack: 0,
                flags: 0,
                window: 0,
                mss: None,
                len: 0,
                at: 0,
            },
            from: 0,
            to: 0,
        }
    }
}

/// A window of 65,535 bytes takes 1,024 segments of at least 64 bytes; before them one may be sent again, and a FIN may follow.
pub type Entries = ArrayVec<OutSeg, 1026>;

/// What a connection gives on its own: the segments in order, then the event, and whether the connection ended.
#[derive(Drop)]
pub struct Outs {
    pub entries: Entries,
    pub told: Option<Told>,
    pub ended: bool,
}

impl Outs {
    /// Nothing.
    pub fn nothing() -> Outs
        ensures { result ≡ record { entries = record { items = [] }; told = None; ended = false } }
    {
        Outs {
            entries: ArrayVec::new(),
            told: None,
            ended: false,
        }
    }

    /// Whatever there was, there is nothing afterwards.
    pub fn clear(&mut self)
        ensures { self.new ≡ record { entries = record { items = [] }; told = None; ended = false } }
    {
        self.entries.clear();
        self.told = None;
        self.ended = false;
    }

    /// Whatever there was, there is one segment afterwards.
    pub fn send(&mut self, entry: OutSeg)
        ensures { self.new ≡ record { entries = record { items = entry ∷ [] }; told = None; ended = false } }
    {
        self.clear();
        self.entries.push(entry);
    }

    /// Whatever there was, there is the end of the connection afterwards, with the event that tells of it.
    pub fn end(&mut self, told: Option<Told>)
        ensures { self.new ≡ record { entries = record { items = [] }; told = told; ended = true } }
    {
        self.clear();
        self.told = told;
        self.ended = true;
    }
}
