// The report of what a play leaves.
ghost use Rattle.std.specs.Prelude.{◌≡◌, ◌<◌, ◌^◌, ℕ, List as Sequence, All, IfOk, length, count_by};
ghost use Rattle.std.specs.List.{AllByRecursion, range_with_len};
ghost use Rattle.std.specs.List.Sorted.{IsSortedByKey};
ghost use Rattle.ix_conf.specs.Settings.{settings_of};
ghost use Rattle.ix_fits.specs.Card.{is_dropped};
ghost use Rattle.ix_fits.specs.Fits.{Fits};
ghost use Rattle.ix_fits.specs.Replies.{AreReplies, reply_file};
ghost use Rattle.ix_groupdef.specs.Group.{Cycle};
ghost use Rattle.ix_playdef.specs.Order.{key_cmp, key_of, numbers_among};
ghost use Rattle.ix_playdef.specs.Own.{local_of};
ghost use Rattle.ix_playdef.specs.Replies.{IsShort, by_opening};
ghost use Rattle.ix_playdef.specs.Sound.{AreBytes};
ghost use Rattle.ix_wire.specs.Entries.{IsWireSoFar, Terms};
ghost use Rattle.ix_wire.specs.declared.entry.Entry.{Entry as WireEntry};
ghost use Rattle.ix_sheet.specs.Outcome.{CanBeReported};
ghost use Rattle.ix_sheet.specs.Play.{IsPlay};
ghost use Rattle.ix_sheet.specs.Sheet.{IsSheetOf, head_of};

use crate::conns::conns_of;
use crate::outcome::Outcome;
use crate::outputs::Source;
use crate::ranges::sheet_fits;
use crate::strays::strays_of;
use ix_base::{List, NoMemory};
use ix_conf::Conf;
use ix_lines::{EntryLine, Fate, Head};
use ix_playdef::{Reply, local_of, replies_of};
use ix_trace::{Report, Sheet};
use std::alloc::Global;

/// The most replies that a report tells: their numbers have 32 bits.
const MOST: usize = 4_294_967_295;

fn head_of(conf: &Conf) -> Head
    ensures { result ≡ head_of (settings_of conf.now) }
{
    Head {
        cores: conf.cores,
        batch: conf.batch,
        buffers: conf.buffers,
    }
}

fn is_dropped(entry: &EntryLine) -> bool
    ensures { result ≡ is_dropped entry.now }
{
    match entry {
        EntryLine::Frame { fate, .. } => !matches!(fate, Fate::Buf(_)),
        _ => false,
    }
}

// How many frames the card dropped.
fn drops_of(entries: &[EntryLine]) -> u32
    requires { length entries.now < 2 ^ 32 }
    ensures { result ≡ count_by is_dropped entries.now }
{
    entries.iter().filter(|entry| is_dropped(entry)).count() as u32
}

// What the report says, with the replies in their order.
#[tactic(auto, using(crate::proofs::SheetLaws::for_sheet))]
fn sheet_of(
    alloc: Global,
    head: Head,
    outcome: Outcome,
    replies: &[Reply],
) -> Result<Sheet, NoMemory>
    requires can { CanBeReported head.cores outcome }
    requires order { IsSortedByKey key_of key_cmp replies.now }
    requires few { length replies.now < 2 ^ 32 }
    ensures { IfOk result (λ sheet. IsSheetOf head outcome replies.now sheet) }
{
    let groups = outcome.groups.as_slice();
    let entries = outcome.entries.as_slice();
    let source = Source { entries, replies };
    let strays = strays_of(alloc, replies, groups)?;
    let conns = conns_of(alloc, &source, groups)?;
    let drops = drops_of(entries);
    Ok(Sheet {
        head,
        settles: outcome.settles,
        connects: outcome.connects,
        entries: outcome.entries,
        strays: List::from_vec(strays),
        conns: List::from_vec(conns),
        closed: outcome.closed,
        replies: replies.len() as u32,
        drops,
    })
}

/// The report of what a play leaves, and its replies in their order: the number of each reply is its place among them, counted from 0.
/// Memory runs out where there are more than 4,294,967,295 replies, which no report can tell.
///
/// Where it is what a play of a wire list leaves in which each group took its entries in some cycles, the report fits the configuration, the
/// capture and the wire list, with the file of the replies.
#[tactic(auto, using(crate::proofs::SheetLaws::for_report))]
pub fn report_of(
    alloc: Global,
    conf: &Conf,
    outcome: Outcome,
) -> Result<(Report, Vec<Reply>), NoMemory>
    requires { CanBeReported conf.now.cores outcome }
    ensures sheet { IfOk result (λ told. IsSheetOf (head_of (settings_of conf.now)) outcome told.1.items told.0) }
    ensures replies { IfOk result (λ told. AreReplies by_opening (local_of (settings_of conf.now)) outcome.groups told.1.items) }
    ensures numbered { IfOk result (λ told. numbers_among told.1.items told.1.items ≡ range_with_len 0 (length told.1.items)) }
    ensures short { IfOk result (λ told. All IsShort told.1.items) }
{
    let replies = replies_of(alloc, &local_of(conf), outcome.groups.as_slice())?;
    if replies.len() > MOST {
        return Err(NoMemory);
    }
    let sheet = sheet_of(alloc, head_of(conf), outcome, replies.as_slice())?;
    sheet_fits(&sheet);
    Ok((Report::new(sheet), replies))
}
