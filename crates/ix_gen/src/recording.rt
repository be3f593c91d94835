// The frames of a capture while it is made, all of them at tick 0.
use ix_base::{Bytes, NoMemory};
use ix_pcap::{Sent, write_capture};
use std::alloc::Global;
use std::marker::Model;

/// Frames that a capture can hold, in the order in which they are sent.
#[derive(Drop)]
pub struct Recording {
    frames: Vec<Sent>,
}

impl Model for Recording {
    ghost use Rattle.std.specs.Prelude.{List, All};
    ghost use Rattle.ix_pcap.specs.declared.writing.Sent.{Sent};
    ghost use Rattle.ix_pcap.specs.Written.{IsWritable};

    ghost Value = { List Sent };

    ghost view = { λ r. r.frames.items };

    ghost invariant = { λ r. All IsWritable r.frames.items };
}

impl Recording {
    ghost use Rattle.std.specs.Prelude.{◌≡◌, ◌≤◌, ◌<◌, ◌^◌, ◌++◌, ◌∷◌, [], length, IfOk, OnOk};
    ghost use Rattle.ix_pcap.specs.Written.{ReadsBack, capture_bytes};
    ghost use Rattle.ix_gen.specs.Rounds.{at_start};

    pub fn new(alloc: Global) -> Recording
        ensures { result ≡ [] }
    {
        Recording {
            frames: Vec::new(alloc),
        }
    }

    /// One frame more.
    pub fn add(&mut self, frame: Bytes) -> Result<(), NoMemory>
        requires { length frame ≤ 1518 }
        ensures { OnOk result (self.new ≡ self.old ++ at_start frame ∷ []) }
    {
        self.frames.push(Sent { at: 0, frame })?;
        Ok(())
    }

    /// The capture file.
    pub fn written(&self, alloc: Global) -> Result<Bytes, NoMemory>
        ensures is { IfOk result (λ bytes. bytes ≡ capture_bytes self.now) }
        ensures reads_back { IfOk result (λ bytes. length self.now ≤ 262144 → ReadsBack self.now bytes) }
    {
        write_capture(alloc, &self.frames)
    }
}
