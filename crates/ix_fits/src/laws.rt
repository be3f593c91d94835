// Laws on reports that fit.
ghost use Rattle.ix_fits.specs.Alone.{AllAreStepped, CuttingsExist};
ghost use Rattle.ix_fits.specs.Card.{ItemsAreCounted};
ghost use Rattle.ix_fits.specs.OneCore.{GivenByTheWire, OneCorePlays};
ghost use Rattle.ix_fits.specs.Read.{ReadTakesAll};
ghost use Rattle.ix_fits.specs.Sound.{ReportsAreSound};
ghost use Rattle.ix_fits.specs.Wires.{ReportsArePlays, WiresArePlayable, WiresCanBeJoined};
ghost use Rattle.ix_fits.specs.Worked.{WorkedPlays};

use ix_playdef::records_are_sound;

/// Nothing happens here: the contract says what is true of every report whose card and groups fit a configuration, a capture and a wire
/// list, on 1 to 8 cores, however each group's entries are cut into cycles.
///
/// Each group took the accepted frames of its flows, in wire order; none is lost, doubled or moved among journals and strays. A connection
/// has only segments of its flow, those that arrived while it lived, in their order. The journals are runs of the TCP step and legal for
/// the cycles. What TCP took is the beginning of the answer. What an application was told are the bytes of the delivered parts, and begins
/// the peer's stream where the peer agrees with itself.
pub fn reports_are_sound()
    ensures { ReportsAreSound }
{
    records_are_sound();
}

/// Nothing happens here: the contract says what is true of cuttings.
///
/// - `read`: the cycles that are read from the lines of a report, where flushes are printed with the last entries of their cycles, take all
///   frames of the group, in wire order.
/// - `stepped`: where no tag of a group is left open, some core steps each of its entries.
/// - `exist`: whatever a script's wire list and the verdicts, cycles of one entry each are a cutting of each group.
pub fn cuttings_are_read()
    ensures read { ReadTakesAll }
    ensures stepped { AllAreStepped }
    ensures exist { CuttingsExist }
{}

/// Nothing happens here: the contract says what the rings and the cores of a play are owed.
///
/// - `playable`: whatever the verdicts, the moves of a script's wire list name cores of the play, and the tags and moves of each group
///   alternate, also before its end.
/// - `joined`: where each accepted frame is on the ring of its group's core, it is from the opening on a list that `ix_history::cores_join`
///   is about: what that law asks of tables, entries and rings holds of it.
/// - `plays`: the entries of a report whose card fits are those of the wire list, and each accepted frame is on the ring of the core on
///   which its group is.
/// - `items`: an entry counts for a ring exactly where it puts an item on it.
pub fn wires_can_be_played()
    ensures playable { WiresArePlayable }
    ensures joined { WiresCanBeJoined }
    ensures plays { ReportsArePlays }
    ensures items { ItemsAreCounted }
{}

/// Nothing happens here: the contract says what is true of a report whose card fits, where no frame was dropped but for its length.
///
/// - `given`: what each group is to take is what the wire list alone gives it.
/// - `plays`: on one core, where the application makes no connects and each entry of a group is a cycle of its own, the group leaves what it
///   leaves of a play on core 0 in which every short frame is accepted.
pub fn one_core_plays()
    ensures given { GivenByTheWire }
    ensures plays { OneCorePlays }
{}

/// Nothing happens here: the contract says what the definitions make of small plays on two cores that were worked out by hand, and of wrong
/// traces of them.
pub fn worked_plays()
    ensures { WorkedPlays }
{}
