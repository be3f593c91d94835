// Whether a file of replies, and the numbers that lines name, are those of what the groups leave.
ghost use Rattle.std.specs.Prelude.{◌≡◌, ◌≤◌, ◌&&◌, ℕ, List as Sequence, All, IfOk, length, map};
ghost use Rattle.std.specs.Bool.{Decides};
ghost use Rattle.std.specs.List.Sorted.{IsSortedByKey};
ghost use Rattle.ix_base.specs.declared.frame.Local.{Local as ALocal};
ghost use Rattle.ix_conf.specs.Settings.{Settings};
ghost use Rattle.ix_fits.specs.Replies.{reply_file};
ghost use Rattle.ix_groupdef.specs.declared.types.GroupRecord.{GroupRecord as ARecord};
ghost use Rattle.ix_groupdef.specs.Group.{Cycle};
ghost use Rattle.ix_playdef.specs.Order.{key_cmp, key_of, number_of};
ghost use Rattle.ix_playdef.specs.Own.{local_of};
ghost use Rattle.ix_playdef.specs.Replies.{FitsGroup, IsShort, Places, all_replies, by_opening};
ghost use Rattle.ix_playdef.specs.declared.order.Reply.{Reply as AReply};
ghost use Rattle.ix_places.specs.Filed.{AreAsMany, AreSomehowFiled, RepliesFitIn, records_by};
ghost use Rattle.ix_places.specs.Told.{all_numbers, key_with, reply_with};

use crate::gather::{Gathered, gather};
use crate::numbers::name_each_once;
use crate::told::told_keys;
use ix_base::{Local, NoMemory};
use ix_groupdef::GroupRecord;
use ix_pcap::write_capture;
use ix_playdef::{Reply, ReplyKey, in_order, number_of, sent_at};
use ix_trace::Report;
use ix_wire::Entry;
use std::alloc::Global;

// Gives each reply its key.
#[tactic(auto, using(crate::proofs::SetLaws::for_set))]
fn set_keys(replies: &mut Vec<Reply>, keys: &[ReplyKey])
    requires { length replies.old.items ≡ length keys.now }
    ensures { (places : Places) → keys.now ≡ map (λ (x : AReply). key_with places x.key) replies.old.items → replies.new.items ≡ map (reply_with places) replies.old.items }
{
    for (i, key) in keys.iter().enumerate() {
        replies[i].key = *key;
    }
}

// Whether replies with these keys have these numbers among all.
fn are_named(sorted: &[Reply], keys: &[ReplyKey], numbers: &[u32]) -> bool
    requires order { IsSortedByKey key_of key_cmp sorted.now }
    requires long { length keys.now ≡ length numbers.now }
    ensures { Decides result (numbers.now ≡ map (number_of sorted.now) keys.now) }
{
    for (i, key) in keys.iter().enumerate() {
        if number_of(sorted, key) != numbers[i] as usize {
            return false;
        }
    }
    true
}

fn same_bytes(written: &[u8], file: &[u8]) -> bool
    ensures { Decides result (file.now ≡ written.now) }
{
    file == written
}

// Whether a file holds these replies.
fn is_file(
    alloc: Global,
    entries: &[Entry],
    replies: Vec<Reply>,
    file: &[u8],
) -> Result<bool, NoMemory>
    requires { All IsShort replies.items }
    ensures { IfOk result (λ is. Decides is (file.now ≡ reply_file entries.now replies.items)) }
{
    let sent = sent_at(alloc, entries, replies)?;
    let written = write_capture(alloc, sent.as_slice())?;
    Ok(same_bytes(written.as_slice(), file))
}

fn is_count(replies: &[Reply], count: u32) -> bool
    ensures { Decides result (count ≡ length replies.now) }
{
    replies.len() == count as usize
}

fn are_all(named: bool, counted: bool, once: bool, written: bool) -> bool
    ensures { result ≡ ((named && counted) && (once && written)) }
{
    (named && counted) && (once && written)
}

// The same of replies that were gathered.
fn are_told(
    alloc: Global,
    all: Gathered,
    entries: &[Entry],
    report: &Report,
    file: &[u8],
) -> Result<bool, NoMemory>
    requires long { length all.replies.items ≡ length all.numbers.items }
    requires short { All IsShort all.replies.items }
    ensures { IfOk result (λ filed. (local : ALocal) (records : Sequence ARecord) → all.replies.items ≡ all_replies by_opening local records → all.numbers.items ≡ all_numbers report.now records
        → AreAsMany local records report.now → Decides filed (AreSomehowFiled local records entries.now report.now file.now)) }
{
    let Gathered {
        mut replies,
        numbers,
    } = all;
    let keys = told_keys(alloc, replies.as_slice(), numbers.as_slice())?;
    set_keys(&mut replies, keys.as_slice());
    let sorted = in_order(replies)?;
    let named = are_named(sorted.as_slice(), keys.as_slice(), numbers.as_slice());
    let counted = is_count(sorted.as_slice(), report.replies);
    let once = name_each_once(
        alloc,
        report.strays.as_slice(),
        report.conns.as_slice(),
        report.replies,
    )?;
    let written = is_file(alloc, entries, sorted, file)?;
    Ok(are_all(named, counted, once, written))
}

/// Whether the fourth point of a report holds: docs/FITS.md, "The four points". The groups left these records, which are those of the
/// report's play in some cycles; the file holds all their replies in their order, for some order of timers and flushes within a cycle, and the
/// report's lines name each of them once, by its number. By [`crate::places_are_told`] that is decided by the order that the lines tell.
pub fn replies_fit(
    alloc: Global,
    local: &Local,
    records: &[GroupRecord],
    entries: &[Entry],
    report: &Report,
    file: &[u8],
) -> Result<bool, NoMemory>
    requires groups { length records.now ≤ 512 }
    requires fit { All FitsGroup records.now }
    ensures filed { IfOk result (λ fit. Decides fit (AreSomehowFiled local.now records.now entries.now report.now file.now)) }

    // of what the groups of a play leave
    ensures fit { IfOk result (λ fit. (s : Settings) (frames : Sequence (Sequence ℕ)) (cycles : ℕ → Sequence Cycle) → local.now ≡ local_of s → records.now ≡ records_by s frames cycles
        → Decides fit (RepliesFitIn s frames entries.now report.now file.now cycles)) }
{
    match gather(alloc, local, records, report)? {
        Some(all) => are_told(alloc, all, entries, report, file),
        None => Ok(false),
    }
}
