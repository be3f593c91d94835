// The card of a play between two settles, as the entries of a report tell it.
ghost use Rattle.std.specs.Prelude.{◌≡◌, ◌&&◌, Some, slice_get};
ghost use Rattle.ix_conf.specs.Settings.{settings_of};
ghost use Rattle.ix_fits.specs.Behind.{card_of};
ghost use Rattle.ix_fits.specs.Card.{fit_rings, fits_bytes, fits_entry, fits_fate, fits_frame_line, fits_long, fits_ring, fits_settle, fits_short, is_move_line, is_tag_line, is_time_line};

use crate::behind::{accepted_on, core_behind, posted_in, put_on};
use ix_base::{BUFFER_BYTES, CoreId, GroupId};
use ix_conf::Conf;
use ix_lines::{EntryLine, Fate, RingLine, SettleLine};
use ix_pcap::{Capture, Span};
use ix_steer::frame_group;
use ix_wire::Entry;
use std::marker::Model;

/// The places of a receive ring. No more buffers are posted to one.
pub const RING_PLACES: u32 = 512;

/// The records of a capture in its bytes. A contract sees the list of their frames.
#[derive(Drop)]
pub struct Records<'a> {
    bytes: &'a [u8],
    spans: &'a [Span],
}

impl<'a> Model for Records<'a> {
    ghost use Rattle.std.specs.Prelude.{ℕ, List as Sequence, All};
    ghost use Rattle.ix_pcap.specs.Capture.{IsSpanOf, frames_of};

    ghost Value = { Sequence (Sequence ℕ) };

    ghost view = { λ r. frames_of r.bytes.now r.spans.now };

    ghost invariant = { λ r. All (IsSpanOf r.bytes.now) r.spans.now };
}

impl<'a> Records<'a> {
    ghost use Rattle.std.specs.Prelude.{◌≡◌, All};
    ghost use Rattle.ix_pcap.specs.Capture.{IsSpanOf, frames_of};

    /// The records that a capture has in these bytes.
    pub fn new(bytes: &'a [u8], capture: &'a Capture) -> Records<'a>
        requires { All (IsSpanOf bytes.now) capture.now }
        ensures { result ≡ frames_of bytes.now capture.now }
    {
        Records {
            bytes,
            spans: capture.spans(),
        }
    }
}

/// The card behind the entries of a report that are carried out, of which the last settle is the one before a place. A contract sees what
/// stands on each ring since then.
#[derive(Drop)]
pub struct CardView<'a> {
    /// How many cores were live at the opening.
    pub live: u8,
    /// The entries that are carried out.
    pub done: &'a [EntryLine],
    /// How many of them stand before the last settle, and that settle itself.
    pub from: usize,
    /// What that settle told of the rings.
    pub rings: &'a [RingLine],
}

impl<'a> Model for CardView<'a> {
    ghost use Rattle.std.specs.Prelude.{◌<◌, ◌≤◌, length};
    ghost use Rattle.ix_fits.specs.Behind.{Behind};

    ghost Value = { Behind };

    ghost view = { λ v. record { live = v.live; done = v.done.now; from = v.from; rings = v.rings.now } };

    ghost invariant = { λ v. (0 < v.live) × (v.from ≤ length v.done.now) };
}

impl<'a> CardView<'a> {
    // The core of a group.
    #[tactic(auto, using(crate::proofs::BehindLaws::behind_core))]
    fn core(&self, group: GroupId) -> CoreId
        ensures { result.0 ≡ ((card_of self.now).table group.0).core }
    {
        core_behind(self.live, self.done, group)
    }

    // How many frames a ring accepted since the last settle, ..
    #[tactic(auto, using(crate::proofs::BehindLaws::behind_frames))]
    fn frames(&self, ring: usize) -> usize
        ensures { result ≡ (card_of self.now).frames ring }
    {
        accepted_on(ring, self.done, self.from)
    }

    // .. how many entries put an item on it since then, ..
    #[tactic(auto, using(crate::proofs::BehindLaws::behind_items))]
    fn items(&self, ring: usize) -> usize
        ensures { result ≡ (card_of self.now).items ring }
    {
        put_on(ring, self.live, self.done, self.from)
    }

    // .. and how many buffers were posted to it then.
    #[tactic(auto, using(crate::proofs::BehindLaws::behind_posted))]
    fn posted(&self, ring: usize) -> u32
        ensures { result ≡ (card_of self.now).posted ring }
    {
        posted_in(ring, self.rings)
    }

    // Whether a frame that no buffer holds has its fate, ..
    fn fits_short(&self, buffers: u32, ring: CoreId, fate: Fate) -> bool
        ensures { result ≡ fits_short buffers (card_of self.now) ring.0 fate }
    {
        let place = ring.0 as usize;
        match fate {
            Fate::Buf(buf) => buf.home.0 == ring.0 && buf.slot < buffers,
            Fate::RingFull(n) => n as usize == self.items(place) && RING_PLACES <= n,
            Fate::NoBuffer(n) => n as usize == self.frames(place) && self.posted(place) <= n,
            Fate::TooLong(_) => false,
        }
    }

    // .. and whether one of so many bytes has.
    fn fits_fate(&self, buffers: u32, ring: CoreId, len: usize, fate: Fate) -> bool
        ensures { result ≡ fits_fate buffers (card_of self.now) ring.0 len fate }
    {
        if BUFFER_BYTES < len {
            fits_long(len, fate)
        } else {
            self.fits_short(buffers, ring, fate)
        }
    }

    // Whether a frame has its group, its ring and its fate.
    fn fits_bytes(
        &self,
        buffers: u32,
        group: GroupId,
        ring: CoreId,
        fate: Fate,
        frame: &[u8],
    ) -> bool
        ensures { result ≡ fits_bytes buffers (card_of self.now) group.0 ring.0 fate (Some frame.now) }
    {
        (group.0 == frame_group(frame).0 && ring.0 == self.core(group).0)
            && self.fits_fate(buffers, ring, frame.len(), fate)
    }

    // The same of the frame of a record.
    fn fits_record(
        &self,
        buffers: u32,
        records: &Records<'_>,
        rec: u32,
        group: GroupId,
        ring: CoreId,
        fate: Fate,
    ) -> bool
        ensures { result ≡ fits_bytes buffers (card_of self.now) group.0 ring.0 fate (slice_get records.now rec) }
    {
        match records.spans.get(rec as usize) {
            Some(span) => {
                let frame = &records.bytes[span.from..span.to];
                self.fits_bytes(buffers, group, ring, fate, frame)
            }
            None => false,
        }
    }

    // Whether a line is that of the frame of a record, at this clock.
    fn fits_frame(
        &self,
        conf: &Conf,
        records: &Records<'_>,
        clock: u64,
        rec: u32,
        line: EntryLine,
    ) -> bool
        ensures { result ≡ fits_frame_line (settings_of conf.now) records.now (card_of self.now) clock rec line }
    {
        match line {
            EntryLine::Frame {
                rec: shown,
                at,
                group,
                ring,
                fate,
            } => {
                (shown == rec && at as u64 == clock)
                    && self.fits_record(conf.buffers, records, shown, group, ring, fate)
            }
            _ => false,
        }
    }

    // Whether a line is that of an entry of the wire list, at this clock.
    fn fits_entry(
        &self,
        conf: &Conf,
        records: &Records<'_>,
        clock: u64,
        entry: Entry,
        line: EntryLine,
    ) -> bool
        ensures { result ≡ fits_entry (settings_of conf.now) records.now (card_of self.now) clock entry line }
    {
        match entry {
            Entry::Frame { rec } => self.fits_frame(conf, records, clock, rec, line),
            Entry::Time { t } => is_time_line(t, line),
            Entry::Tag { group } => is_tag_line(group, line),
            Entry::Move { group, to } => is_move_line(group, to, line),
            Entry::Settle => matches!(line, EntryLine::Settle),
        }
    }

    // Whether a line is that of an entry, and the settle that it may be tells what was put.
    pub fn fits_here(
        &self,
        conf: &Conf,
        records: &Records<'_>,
        clock: u64,
        entry: Entry,
        line: EntryLine,
        settles: &[SettleLine],
    ) -> bool
        ensures { result ≡ (fits_entry (settings_of conf.now) records.now (card_of self.now) clock entry line && fits_settle (card_of self.now) line settles.now) }
    {
        self.fits_entry(conf, records, clock, entry, line) && self.fits_settle(line, settles)
    }

    // Whether a settle that is printed next tells what was put.
    fn fits_settle(&self, line: EntryLine, settles: &[SettleLine]) -> bool
        ensures { result ≡ fits_settle (card_of self.now) line settles.now }
    {
        match line {
            EntryLine::Settle => match settles.first() {
                Some(settle) => self.fit_rings(settle.rings.as_slice()),
                None => false,
            },
            _ => true,
        }
    }

    fn fits_ring(&self, ring: usize, line: &RingLine) -> bool
        ensures { result ≡ fits_ring (card_of self.now) ring line.now }
    {
        line.frames as usize == self.frames(ring) && line.items as usize == self.items(ring)
    }

    // Whether the rings of a settle tell what was put since the last one.
    pub fn fit_rings(&self, rings: &[RingLine]) -> bool
        ensures { result ≡ fit_rings (card_of self.now) rings.now }
    {
        rings
            .iter()
            .enumerate()
            .all(|(ring, line)| self.fits_ring(ring, line))
    }
}

fn is_time_line(t: u32, line: EntryLine) -> bool
    ensures { result ≡ is_time_line t line }
{
    match line {
        EntryLine::Time { t: u } => u == t,
        _ => false,
    }
}

fn is_tag_line(group: GroupId, line: EntryLine) -> bool
    ensures { result ≡ is_tag_line group line }
{
    match line {
        EntryLine::Tag { group: tagged } => tagged.0 == group.0,
        _ => false,
    }
}

fn is_move_line(group: GroupId, to: CoreId, line: EntryLine) -> bool
    ensures { result ≡ is_move_line group to line }
{
    match line {
        EntryLine::Move {
            group: moved,
            to: target,
        } => moved.0 == group.0 && target.0 == to.0,
        _ => false,
    }
}

fn fits_long(len: usize, fate: Fate) -> bool
    ensures { result ≡ fits_long len fate }
{
    match fate {
        Fate::TooLong(n) => n as usize == len,
        _ => false,
    }
}
