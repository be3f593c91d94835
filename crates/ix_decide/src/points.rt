// Which point of a report fails first.
ghost use Rattle.std.specs.Prelude.{◌≡◌, ◌<◌, ◌^◌, All, IfNone, IfOk, IfSome, length};
ghost use Rattle.ix_conf.specs.Settings.{settings_of};
ghost use Rattle.ix_fits.specs.Fits.{CardFits, Fits};
ghost use Rattle.ix_pcap.specs.Capture.{IsSpanOf, frames_of};
ghost use Rattle.ix_decide.specs.Answer.{IsFirst, IsFirstTold};
ghost use Rattle.ix_decide.specs.Points.{IsPlay, cycles_in, frames_in, settings_in, sheet_in};
ghost use Rattle.ix_fits.specs.Connects.{answers_of};
ghost use Rattle.ix_groupdef.specs.Env.{setting_of};

use crate::groups::{are_cut, connections_fit, groups_fit};
use crate::owners::owners_fit;
use crate::play::Play;
use crate::replies::replies_fit;
use ix_base::NoMemory;
use ix_conf::Conf;
use ix_fits::{Records, card_fits, readings_fit};
use ix_lines::ConnectLine;
use ix_pcap::Capture;
use ix_playdef::env_of;
use ix_told::connects_of;
use ix_trace::Report;
use ix_wire::Entry;
use std::alloc::Global;

/// A point of docs/FITS.md, "The four points", by its number.
#[derive(Clone, Copy, Debug, PartialEq, Eq)]
pub enum Point {
    /// The card and the settles.
    Card = 1,
    /// The journals and the strays.
    Groups = 2,
    /// The connections and the connects.
    Connections = 3,
    /// The file of replies, and the numbers by which lines name them.
    Replies = 4,
}

// The first point of a play that fails, where its card fits and these are the answers to its connects.
#[tactic(auto, using(crate::proofs::PointLaws::for_points))]
fn point_of_play(
    alloc: Global,
    play: &Play<'_>,
    answers: &[ConnectLine],
    wire: &[Entry],
    file: &[u8],
) -> Result<Option<Point>, NoMemory>
    requires play { IsPlay play.now }
    requires answers { answers.now ≡ answers_of (setting_of play.now.env.now) (settings_in play.now) }
    requires card { CardFits (settings_in play.now) (frames_in play.now) wire.now (sheet_in play.now) }
    ensures { IfOk result (λ point. IsFirst point (settings_in play.now) (frames_in play.now) wire.now (sheet_in play.now) file.now (cycles_in play.now)) }
{
    if !are_cut(alloc, play)? {
        return Ok(Some(Point::Groups));
    }
    if !owners_fit(alloc, play)? {
        return Ok(Some(Point::Card));
    }
    if !groups_fit(alloc, play)? {
        return Ok(Some(Point::Groups));
    }
    if !connections_fit(alloc, play, answers)? {
        return Ok(Some(Point::Connections));
    }
    if !replies_fit(alloc, play, wire, file)? {
        return Ok(Some(Point::Replies));
    }
    Ok(None)
}

// The same of what the play is made of.
#[tactic(auto, using(crate::proofs::PointLaws::for_play))]
fn point_behind_card(
    alloc: Global,
    conf: &Conf,
    bytes: &[u8],
    capture: &Capture,
    wire: &[Entry],
    report: &Report,
    file: &[u8],
) -> Result<Option<Point>, NoMemory>
    requires spans { All (IsSpanOf bytes.now) capture.now }
    requires numbers { length wire.now < 2 ^ 32 }
    requires card { CardFits (settings_of conf.now) (frames_of bytes.now capture.now) wire.now report.now }
    ensures { IfOk result (λ point. IsFirstTold point (settings_of conf.now) (frames_of bytes.now capture.now) wire.now report.now file.now) }
{
    let env = env_of(alloc, conf, bytes, capture)?;
    let connects = connects_of(alloc, conf, &env)?;
    let spans = capture.spans();
    let asked = connects.asked.as_slice();
    let play = Play {
        conf,
        env: &env,
        bytes,
        spans,
        asked,
        report,
    };
    point_of_play(alloc, &play, connects.answers.as_slice(), wire, file)
}

// The first point that fails.
#[tactic(auto, using(crate::proofs::PointLaws::for_card))]
fn first_failing(
    alloc: Global,
    conf: &Conf,
    bytes: &[u8],
    capture: &Capture,
    wire: &[Entry],
    report: &Report,
    file: &[u8],
) -> Result<Option<Point>, NoMemory>
    requires spans { All (IsSpanOf bytes.now) capture.now }
    requires numbers { length wire.now < 2 ^ 32 }
    ensures { IfOk result (λ point. IsFirstTold point (settings_of conf.now) (frames_of bytes.now capture.now) wire.now report.now file.now) }
{
    let records = Records::new(bytes, capture);
    if !card_fits(conf, &records, wire, report) {
        return Ok(Some(Point::Card));
    }
    point_behind_card(alloc, conf, bytes, capture, wire, report, file)
}

/// The first of the four points of a report that fails for a configuration, a capture, a wire list and a file of replies, in the cycles that
/// the report's own lines tell, or none, where all four hold. Where the card fits and the lines of some group tell no cutting of its entries,
/// that is point 2.
///
/// It is a slow and plain program: it reads all entries again for each of the 512 groups, and runs each group anew at each settle.
pub fn failing_point(
    alloc: Global,
    conf: &Conf,
    bytes: &[u8],
    capture: &Capture,
    wire: &[Entry],
    report: &Report,
    file: &[u8],
) -> Result<Option<Point>, NoMemory>
    requires spans { All (IsSpanOf bytes.now) capture.now }
    requires numbers { length wire.now < 2 ^ 32 }
    ensures first { IfOk result (λ point. IsFirstTold point (settings_of conf.now) (frames_of bytes.now capture.now) wire.now report.now file.now) }
    // Where none fails, the report and the file are those of a play.
    ensures fits { IfOk result (λ point. IfNone point (Fits (settings_of conf.now) (frames_of bytes.now capture.now) wire.now report.now file.now)) }
    // Where one fails, they are not, whatever the play chooses.
    ensures refuses { IfOk result (λ point. IfSome point (λ p. Fits (settings_of conf.now) (frames_of bytes.now capture.now) wire.now report.now file.now → ⊥)) }
{
    readings_fit();
    let _facts = report.head();
    first_failing(alloc, conf, bytes, capture, wire, report, file)
}
