// Whether the card of a report fits.
ghost use Rattle.std.specs.Prelude.{◌≡◌, ◌==◌, ◌&&◌, length, count_by};
ghost use Rattle.std.specs.Bool.{Decides};
ghost use Rattle.std.specs.List.{list_all};
ghost use Rattle.ix_conf.specs.Settings.{settings_of};
ghost use Rattle.ix_fits.specs.Card.{are_closed, fit_all, is_dropped, is_head, is_whole};
ghost use Rattle.ix_fits.specs.Fits.{CardFits, card_fits};

use crate::card::Records;
use crate::entries::fit_all;
use crate::settles::{is_dropped, is_whole};
use ix_conf::Conf;
use ix_lines::{EntryLine, Head, SettleLine};
use ix_trace::Report;
use ix_wire::Entry;

fn is_head(conf: &Conf, head: Head) -> bool
    ensures { result ≡ is_head (settings_of conf.now) head }
{
    (head.cores == conf.cores && head.batch == conf.batch) && head.buffers == conf.buffers
}

fn all_whole(conf: &Conf, settles: &[SettleLine]) -> bool
    ensures { result ≡ list_all (is_whole conf.now.cores conf.now.buffers) settles.now }
{
    let cores = conf.cores;
    let buffers = conf.buffers;
    settles
        .iter()
        .all(|settle| is_whole(cores, buffers, settle))
}

fn all_home(buffers: u32, pools: &[u32]) -> bool
    ensures { result ≡ list_all (λ n. n == buffers) pools.now }
{
    pools.iter().all(|pool| *pool == buffers)
}

fn are_closed(conf: &Conf, pools: &[u32]) -> bool
    ensures { result ≡ are_closed (settings_of conf.now) pools.now }
{
    pools.len() == conf.cores as usize && all_home(conf.buffers, pools)
}

fn count_dropped(entries: &[EntryLine]) -> usize
    ensures { result ≡ count_by is_dropped entries.now }
{
    entries.iter().filter(|entry| is_dropped(entry)).count()
}

fn settles_fit(conf: &Conf, report: &Report) -> bool
    ensures { result ≡ (list_all (is_whole conf.now.cores conf.now.buffers) report.now.settles && are_closed (settings_of conf.now) report.now.closed) }
{
    all_whole(conf, report.settles.as_slice()) && are_closed(conf, report.closed.as_slice())
}

fn entries_fit(conf: &Conf, records: &Records<'_>, wire: &[Entry], report: &Report) -> bool
    ensures { result ≡ (is_head (settings_of conf.now) report.now.head && fit_all (settings_of conf.now) records.now wire.now report.now.entries report.now.settles) }
{
    let entries = report.entries.as_slice();
    let settles = report.settles.as_slice();
    is_head(conf, report.head) && fit_all(conf, records, wire, entries, settles)
}

fn card_passes(conf: &Conf, records: &Records<'_>, wire: &[Entry], report: &Report) -> bool
    ensures { result ≡ card_fits (settings_of conf.now) records.now wire.now report.now }
{
    (entries_fit(conf, records, wire, report) && settles_fit(conf, report))
        && report.drops as usize == count_dropped(report.entries.as_slice())
}

/// Whether the card of a report fits a configuration, a capture and a wire list, but for where its buffers are: docs/FITS.md, "The four
/// points", point 1. A slow and plain program.
pub fn card_fits(conf: &Conf, records: &Records<'_>, wire: &[Entry], report: &Report) -> bool
    ensures { Decides result (CardFits (settings_of conf.now) records.now wire.now report.now) }
{
    card_passes(conf, records, wire, report)
}
