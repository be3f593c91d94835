// One turn of the card.
ghost use Rattle.std.specs.Prelude.{◌≡◌, if◌then◌else◌, true};
ghost use Rattle.ix_feed.specs.Feeding.{CanBeTold, fate_of};
ghost use Rattle.ix_feed.specs.Replays.{CanFeed, NextIs, feed_view, is_settle};
ghost use Rattle.ix_feed.specs.Turns.{FeedBecame, FeedTurned, Carried};
ghost use Rattle.ix_wire.specs.Entries.{is_frame};
ghost use Rattle.ix_wire.specs.declared.entry.Entry.TheVariants as wire;

use crate::replay::Replay;
use ix_base::{CoreId, GroupId};
use ix_lines::{EntryLine, Fate};
use ix_nic::{Nic, Offer, frame_group};
use ix_run::Turn;
use ix_wire::Entry;

// What a trace says of an offered frame of this length.
fn fate_of(offer: Offer) -> Fate
    requires { CanBeTold offer }
    ensures { result ≡ fate_of offer }
{
    match offer {
        Offer::TooLong { len } => Fate::TooLong(len as u32),
        Offer::RingFull { items, .. } => Fate::RingFull(items),
        Offer::NoBuffer { frames, .. } => Fate::NoBuffer(frames),
        Offer::Accepted { buf, .. } => Fate::Buf(buf),
    }
}

// Offers the frame of a record.
fn offer_frame(nic: &mut Nic, replay: &mut Replay, rec: u32)
    requires feed { CanFeed nic.old replay.old }
    requires next { NextIs (wire.Frame rec) replay.old }
    ensures { Carried (wire.Frame rec) nic.old replay.old nic.new replay.new }
{
    let frame = replay.frame(rec);
    let group = frame_group(frame);
    let ring = nic.core(group);
    let offer = nic.offer(replay.number(), frame);
    let line = EntryLine::Frame {
        rec,
        at: replay.clock(),
        group,
        ring,
        fate: fate_of(offer),
    };
    replay.note(line);
}

// Puts a tag of a group on its ring.
fn tag_group(nic: &mut Nic, replay: &mut Replay, group: GroupId)
    requires feed { CanFeed nic.old replay.old }
    requires next { NextIs (wire.Tag group) replay.old }
    ensures { Carried (wire.Tag group) nic.old replay.old nic.new replay.new }
{
    nic.tag(group);
    replay.note(EntryLine::Tag { group });
}

// Moves a group to another core.
fn move_group(nic: &mut Nic, replay: &mut Replay, group: GroupId, to: CoreId)
    requires feed { CanFeed nic.old replay.old }
    requires next { NextIs (wire.Move group to) replay.old }
    ensures { Carried (wire.Move group to) nic.old replay.old nic.new replay.new }
{
    nic.turn(group, to);
    replay.note(EntryLine::Move { group, to });
}

// Puts a time on every ring.
fn set_clock(nic: &mut Nic, replay: &mut Replay, t: u32)
    requires feed { CanFeed nic.old replay.old }
    requires next { NextIs (wire.Time t) replay.old }
    ensures { Carried (wire.Time t) nic.old replay.old nic.new replay.new }
{
    nic.time(replay.number(), u64::from(t));
    replay.tick(t);
    replay.note(EntryLine::Time { t });
}

// Puts the end of the epoch on every ring.
fn end_epoch(nic: &mut Nic, replay: &mut Replay)
    requires feed { CanFeed nic.old replay.old }
    requires next { NextIs wire.Settle replay.old }
    ensures { Carried wire.Settle nic.old replay.old nic.new replay.new }
{
    nic.end();
    replay.note(EntryLine::Settle);
}

// Carries out the next entry.
fn carry_out(nic: &mut Nic, replay: &mut Replay, entry: Entry)
    requires feed { CanFeed nic.old replay.old }
    requires next { NextIs entry replay.old }
    ensures { Carried entry nic.old replay.old nic.new replay.new }
{
    match entry {
        Entry::Frame { rec } => offer_frame(nic, replay, rec),
        Entry::Tag { group } => tag_group(nic, replay, group),
        Entry::Move { group, to } => move_group(nic, replay, group, to),
        Entry::Time { t } => set_clock(nic, replay, t),
        Entry::Settle => end_epoch(nic, replay),
    }
}

// How many frames an entry is.
fn frames_of(entry: Entry) -> u16
    ensures { result ≡ (if is_frame entry then 1 else 0) }
{
    u16::from(matches!(entry, Entry::Frame { .. }))
}

fn is_settle(entry: Entry) -> bool
    ensures { result ≡ is_settle entry }
{
    matches!(entry, Entry::Settle)
}

// The turn in which an entry is carried out.
fn feed_entry(nic: &mut Nic, replay: &mut Replay, entry: Entry) -> Turn
    requires feed { CanFeed nic.old replay.old }
    requires next { NextIs entry replay.old }
    ensures feed { CanFeed nic.new replay.new }
    ensures became { FeedBecame (feed_view nic.old replay.old) (feed_view nic.new replay.new) }
    ensures turned { FeedTurned result (feed_view nic.old replay.old) (feed_view nic.new replay.new) }
{
    carry_out(nic, replay, entry);
    let frames = frames_of(entry);
    if !is_settle(entry) {
        return Turn::Worked { frames };
    }
    let waiting = nic.retry();
    replay.end(waiting);
    if waiting == 0 {
        Turn::Ended { frames }
    } else {
        Turn::Worked { frames }
    }
}

// The turn behind the end of the epoch.
fn feed_none(nic: &mut Nic, replay: &mut Replay) -> Turn
    requires feed { CanFeed nic.old replay.old }
    requires ended { replay.old.ended ≡ true }
    ensures feed { CanFeed nic.new replay.new }
    ensures became { FeedBecame (feed_view nic.old replay.old) (feed_view nic.new replay.new) }
    ensures turned { FeedTurned result (feed_view nic.old replay.old) (feed_view nic.new replay.new) }
{
    let before = replay.waiting();
    let waiting = nic.retry();
    replay.wait(waiting);
    if waiting == 0 {
        Turn::Ended { frames: 0 }
    } else if waiting == before {
        Turn::Idle
    } else {
        Turn::Worked { frames: 0 }
    }
}

/// One turn of the card in an epoch. The next entry is carried out, as long as the epoch's settle was not: a frame is offered, a tag, a move and a
/// time are put on their rings, and at the settle the end of the epoch is put on every ring. After that a turn only puts what stands behind the
/// rings. Each entry that is carried out leaves a line.
///
/// Answers `Ended` exactly where the end of the epoch was put and nothing stands behind a ring any more, `Idle` where it did nothing else, and
/// `Worked` otherwise; `frames` is 1 where the entry is a frame, else 0.
pub fn feed(nic: &mut Nic, replay: &mut Replay) -> Turn
    requires { CanFeed nic.old replay.old }
    ensures feed { CanFeed nic.new replay.new }
    ensures became { FeedBecame (feed_view nic.old replay.old) (feed_view nic.new replay.new) }
    ensures turned { FeedTurned result (feed_view nic.old replay.old) (feed_view nic.new replay.new) }
{
    match replay.next() {
        Some(entry) => feed_entry(nic, replay, entry),
        None => feed_none(nic, replay),
    }
}
