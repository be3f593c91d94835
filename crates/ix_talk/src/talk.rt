// A conversation that goes on.
ghost use Rattle.std.specs.Prelude.{◌≡◌, IfOk, OnOk, IfSome};
ghost use Rattle.ix_tcpdef.specs.Sound.{IsInRange, IsStanding, IsWritten};

use crate::line::{Line, MAC, flow, input_of, is_output};
use ix_base::{List, NoMemory};
use ix_tcpdef::{Cfg, Input, Outputs, World1, step_plain};
use std::alloc::Global;

/// The connection, and what it gave at its last input.
#[derive(Drop)]
struct Talk {
    world: World1,
    outputs: Outputs,
    /// How many of the outputs were named.
    seen: usize,
    now: u64,
    /// The wire number of the next segment.
    next: u32,
}

impl Talk {
    fn begin(alloc: Global, cfg: &Cfg, iss: u32) -> Talk
        ensures { IsStanding cfg.now result.world }
    {
        Talk {
            world: World1::listen(alloc, flow(), MAC, iss),
            outputs: List::new(alloc),
            seen: 0,
            now: 0,
            next: 0,
        }
    }

    /// Whether every output of the last input was named.
    fn is_done(&self) -> bool {
        self.seen == self.outputs.len()
    }

    fn take(&mut self, alloc: Global, cfg: &Cfg, input: &Input) -> Result<(), NoMemory>
        requires cfg { IsInRange cfg.now }
        requires standing { IsStanding cfg.now self.old.world }
        requires written { IsWritten input.now }
        ensures { OnOk result (IsStanding cfg.now self.new.world) }
    {
        let (world, outputs) = step_plain(alloc, cfg, &self.world, input, self.now)?;
        self.world = world;
        self.outputs = outputs;
        self.seen = 0;
        if let Input::Segment { .. } = input {
            self.next = self.next.wrapping_add(1);
        }
        Ok(())
    }

    /// Whether what a line says of the connection, or of its next output, holds.
    fn holds(&mut self, line: Line) -> bool
        ensures { self.new.world ≡ self.old.world }
    {
        match line {
            Line::Left(state, una, nxt, rcv, cwnd, ssthresh) => {
                let left = self.world.left();
                left.state == state
                    && left.una == una
                    && left.nxt == nxt
                    && left.rcv == rcv
                    && left.cwnd == cwnd
                    && left.ssthresh == ssthresh
            }
            Line::Deadline(at) => self.world.deadline() == at,
            Line::Held(place, number) => self.world.held(place) == number,
            _ => self.gives(line),
        }
    }

    fn gives(&mut self, line: Line) -> bool
        ensures { self.new.world ≡ self.old.world }
    {
        let Some(output) = self.outputs.get(self.seen) else {
            return false;
        };
        self.seen = self.seen.wrapping_add(1);
        is_output(output, line)
    }

    /// Lets a line happen, or answers whether it holds.
    fn hear(&mut self, alloc: Global, cfg: &Cfg, line: Line) -> Result<bool, NoMemory>
        requires cfg { IsInRange cfg.now }
        requires standing { IsStanding cfg.now self.old.world }
        ensures { OnOk result (IsStanding cfg.now self.new.world) }
    {
        if let Line::At(tick) = line {
            self.now = tick;
            return Ok(true);
        }
        let Some(input) = input_of(alloc, line, self.next)? else {
            return Ok(self.holds(line));
        };
        if !self.is_done() {
            return Ok(false);
        }
        self.take(alloc, cfg, &input)?;
        Ok(true)
    }
}

/// Plays a conversation from the opening on. Answers the place of the first line that doesn't hold, or that comes before every output of
/// the last input was named; the number of lines where only an output is left over; and None where all holds.
pub fn first_wrong(
    alloc: Global,
    cfg: &Cfg,
    iss: u32,
    lines: &[Line],
) -> Result<Option<usize>, NoMemory>
    requires { IsInRange cfg.now }
{
    let mut talk = Talk::begin(alloc, cfg, iss);
    for (i, line) in lines.iter().enumerate() {
        if !talk.hear(alloc, cfg, *line)? {
            return Ok(Some(i));
        }
    }
    if talk.is_done() {
        Ok(None)
    } else {
        Ok(Some(lines.len()))
    }
}
