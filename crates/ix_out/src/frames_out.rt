// The frames of a group that are out at a settle: on a desk, held, with the application, or queued.
ghost use Rattle.std.specs.Prelude.{◌≡◌, ◌++◌, ◌<◌, ◌≤◌, ◌^◌, IfOk, OnOk, if◌then◌else◌, length, map};
ghost use Rattle.ix_fits.specs.Cutting.{reach, tag_after};
ghost use Rattle.ix_fits.specs.Owners.{waiting, waiting_from, waits};
ghost use Rattle.ix_groupdef.specs.Owners.{ended_from, is_queued, is_with_app, told_parts};
ghost use Rattle.ix_groupdef.specs.Life.{lives};
ghost use Rattle.ix_tcpdef.specs.Delivered.{told_pieces};
ghost use Rattle.ix_out.specs.Out.{held_out, life_out, lives_out, out_at, out_if, part_place, told_out};
ghost use Rattle.ix_out.specs.declared.frames_out.Place.TheVariants as places;

use ix_base::{GroupId, NoMemory, WireNo};
use ix_groupdef::PlainLife;
use ix_lines::{EntryLine, Fate};
use ix_tcpdef::{Connection, HeldSegment, Piece};

/// Where a buffer that is out lies.
#[derive(Clone, Copy, Debug, PartialEq, Eq)]
pub enum Place {
    /// On a desk, behind an open tag.
    Desk,
    /// In a segment that waits for a hole to be filled.
    Held,
    /// With the application.
    App,
    /// In a send queue.
    Queue,
}

/// A frame whose buffer is out.
#[derive(Clone, Copy, Debug, PartialEq, Eq)]
pub struct OutFrame {
    /// The number of its entry.
    pub w: WireNo,
    /// Where it lies.
    pub place: Place,
}

fn tag_after(group: GroupId, w: usize, opened: Option<usize>, entry: &EntryLine) -> Option<usize>
    ensures { result ≡ tag_after group.0 w opened entry.now }
{
    match entry {
        EntryLine::Tag { group: tagged } => { if tagged.0 == group.0 { Some(w) } else { opened } }
        EntryLine::Move { group: moved, .. } => { if moved.0 == group.0 { None } else { opened } }
        _ => opened,
    }
}

/// Below which number entries of a group are stepped, once these entries are carried out: all, or those before its open tag.
#[tactic(auto, using(crate::proofs::OutLaws::for_reach))]
pub fn reach(group: GroupId, done: &[EntryLine]) -> usize
    ensures { result ≡ reach group.0 done.now }
{
    let mut opened = None;
    for (w, entry) in done.iter().enumerate() {
        opened = tag_after(group, w, opened, entry);
    }
    match opened {
        Some(w) => w,
        None => done.len(),
    }
}

fn waits(group: GroupId, reached: usize, w: usize, entry: &EntryLine) -> bool
    ensures { result ≡ waits group.0 reached w entry.now }
{
    match entry {
        EntryLine::Frame {
            group: of,
            fate,
            ..
        } => (of.0 == group.0 && matches!(fate, Fate::Buf(_))) && reached <= w,
        _ => false,
    }
}

// Adds the accepted frames of a group that are not stepped.
#[tactic(auto, using(crate::proofs::OutLaws::for_waiting))]
fn push_waiting(
    group: GroupId,
    reached: usize,
    done: &[EntryLine],
    outs: &mut Vec<OutFrame>,
) -> Result<(), NoMemory>
    requires { length done.now < 2 ^ 32 }
    ensures { OnOk result (outs.new.items ≡ outs.old.items ++ map (out_at places.Desk) (waiting_from group.0 reached 0 done.now)) }
{
    for (w, entry) in done.iter().enumerate() {
        if waits(group, reached, w, entry) {
            outs.push(OutFrame {
                w: WireNo(w as u32),
                place: Place::Desk,
            })?;
        }
    }
    Ok(())
}

#[tactic(auto, using(crate::proofs::OutLaws::for_held))]
fn push_held(held: &[HeldSegment], outs: &mut Vec<OutFrame>) -> Result<(), NoMemory>
    ensures { OnOk result (outs.new.items ≡ outs.old.items ++ held_out held.now) }
{
    for segment in held {
        outs.push(OutFrame {
            w: segment.w,
            place: Place::Held,
        })?;
    }
    Ok(())
}

// Where a told part is that ends at this byte of all that was told.
fn part_place(connection: &Connection, end: u64) -> Option<Place>
    ensures { result ≡ part_place connection.now end }
{
    let taken = connection.sent.len() as u64;
    if taken < end {
        Some(Place::App)
    } else if connection.una.saturating_sub(1) < end {
        Some(Place::Queue)
    } else {
        None
    }
}

fn push_if(place: Option<Place>, w: WireNo, outs: &mut Vec<OutFrame>) -> Result<(), NoMemory>
    ensures { OnOk result (outs.new.items ≡ outs.old.items ++ out_if place w) }
{
    if let Some(place) = place {
        outs.push(OutFrame { w, place })?;
    }
    Ok(())
}

fn told_pieces(connection: &Connection) -> &[Piece]
    ensures { result.now ≡ told_pieces connection.now }
{
    if connection.accepted {
        connection.pieces.as_slice()
    } else {
        &[]
    }
}

// Adds the told parts of a connection that are with the application or queued. There is no memory either where more than 2^64 bytes were
// told.
#[tactic(auto, using(crate::proofs::OutLaws::for_told))]
fn push_told(connection: &Connection, outs: &mut Vec<OutFrame>) -> Result<(), NoMemory>
    ensures { OnOk result (outs.new.items ≡ outs.old.items ++ told_out connection.now (told_parts connection.now)) }
{
    let mut end: u64 = 0;
    for piece in told_pieces(connection) {
        end = end.checked_add(piece.bytes.len() as u64).ok_or(NoMemory)?;
        push_if(part_place(connection, end), piece.w, outs)?;
    }
    Ok(())
}

// Adds those of a connection, whose application sends parts whole or releases them.
#[tactic(auto, using(crate::proofs::OutLaws::for_life))]
fn push_life(whole: bool, life: &PlainLife, outs: &mut Vec<OutFrame>) -> Result<(), NoMemory>
    ensures { OnOk result (outs.new.items ≡ outs.old.items ++ life_out whole life.now) }
{
    let connection = life.world.connection();
    push_held(connection.held.as_slice(), outs)?;
    if whole && life.lives() {
        return push_told(connection, outs);
    }
    Ok(())
}

#[tactic(auto, using(crate::proofs::OutLaws::for_lives))]
fn push_lives(whole: bool, lives: &[PlainLife], outs: &mut Vec<OutFrame>) -> Result<(), NoMemory>
    ensures { OnOk result (outs.new.items ≡ outs.old.items ++ lives_out whole lives.now) }
{
    for life in lives {
        push_life(whole, life, outs)?;
    }
    Ok(())
}

/// Adds the frames of a group that are out, once these entries are carried out and the group's connections stand so.
#[tactic(auto, using(crate::proofs::OutLaws::for_group))]
pub fn push_out(
    group: GroupId,
    whole: bool,
    done: &[EntryLine],
    lives: &[PlainLife],
    outs: &mut Vec<OutFrame>,
) -> Result<(), NoMemory>
    requires { length done.now < 2 ^ 32 }
    ensures { OnOk result (outs.new.items ≡ outs.old.items ++ (map (out_at places.Desk) (waiting done.now group.0) ++ lives_out whole lives.now)) }
{
    push_waiting(group, reach(group, done), done, outs)?;
    push_lives(whole, lives, outs)
}
