// The numbers of lines fit their types. Nothing happens here: each function says so of what it is given, and a line's numbers fit since its
// type keeps them.
ghost use Rattle.std.specs.Prelude.{◌≤◌, ◌<◌, ◌^◌, ℕ, All};
ghost use Rattle.ix_lines.specs.Words.{FitsEntry, FitsInput, FitsOutput, max16, max32, max64};
ghost use Rattle.ix_sheet.specs.Outcome.{HasGroup};
ghost use Rattle.ix_sheet.specs.Ranges.{FitsConn, FitsHead, FitsHome, FitsInputLine, FitsLeft, FitsRing, FitsSettle, FitsSheet, FitsStray, IsInGroup};

use ix_lines::{
    ConnLine, EntryLine, Head, HomeLine, InputKind, InputLine, OutputLine, RingLine, SettleLine,
    StrayLine,
};
use ix_tcpdef::Left;
use ix_trace::Sheet;

fn head_fits(head: Head)
    ensures { FitsHead head }
{}

fn count_fits(count: usize)
    ensures { count ≤ max64 }
{}

fn ring_fits(ring: RingLine)
    ensures { FitsRing ring }
{}

fn rings_fit(rings: &[RingLine])
    ensures { All FitsRing rings.now }
{
    for ring in rings {
        ring_fits(*ring);
    }
}

fn home_fits(home: HomeLine)
    ensures { FitsHome home }
{}

fn homes_fit(homes: &[HomeLine])
    ensures { All FitsHome homes.now }
{
    for home in homes {
        home_fits(*home);
    }
}

fn settle_fits(settle: &SettleLine)
    ensures { FitsSettle settle.now }
{
    rings_fit(settle.rings.as_slice());
    homes_fit(settle.homes.as_slice());
}

fn settles_fit(settles: &[SettleLine])
    ensures { All FitsSettle settles.now }
{
    for settle in settles {
        settle_fits(settle);
    }
}

fn entry_fits(entry: EntryLine)
    requires { HasGroup entry }
    ensures { FitsEntry entry }
{}

fn entries_fit(entries: &[EntryLine])
    requires { All HasGroup entries.now }
    ensures { All FitsEntry entries.now }
{
    for entry in entries {
        entry_fits(*entry);
    }
}

fn stray_fits(stray: StrayLine)
    ensures { FitsStray stray }
{}

fn strays_fit(strays: &[StrayLine])
    ensures { All FitsStray strays.now }
{
    for stray in strays {
        stray_fits(*stray);
    }
}

fn output_fits(output: OutputLine)
    ensures { FitsOutput output }
{}

fn outputs_fit(outputs: &[OutputLine])
    ensures { All FitsOutput outputs.now }
{
    for output in outputs {
        output_fits(*output);
    }
}

fn kind_fits(kind: InputKind)
    ensures { FitsInput kind }
{}

fn input_fits(input: &InputLine)
    ensures { FitsInputLine input.now }
{
    kind_fits(input.kind);
    outputs_fit(input.outputs.as_slice());
}

fn inputs_fit(inputs: &[InputLine])
    ensures { All FitsInputLine inputs.now }
{
    for input in inputs {
        input_fits(input);
    }
}

fn ends_fit(remote: u32, remote_port: u16, local_port: u16, iss: u32)
    ensures remote { (remote < 2 ^ 32) × (remote_port ≤ max16) }
    ensures local { (local_port ≤ max16) × (iss < 2 ^ 32) }
{}

fn answer_fits(wrote: u64, taken: u64)
    ensures { (wrote ≤ max64) × (taken ≤ max64) }
{}

fn left_fits(left: Left)
    ensures { FitsLeft left }
{}

fn conn_fits(conn: &ConnLine)
    requires { IsInGroup conn.now }
    ensures { FitsConn conn.now }
{
    ends_fit(conn.remote, conn.remote_port, conn.local_port, conn.iss);
    inputs_fit(conn.inputs.as_slice());
    left_fits(conn.left);
    answer_fits(conn.wrote, conn.taken);
}

fn conns_fit(conns: &[ConnLine])
    requires { All IsInGroup conns.now }
    ensures { All FitsConn conns.now }
{
    for conn in conns {
        conn_fits(conn);
    }
}

fn closed_fit(closed: &[u32])
    ensures { All (λ (n : ℕ). n ≤ max32) closed.now }
{}

fn end_fits(replies: u32, drops: u32)
    ensures replies { replies ≤ max32 }
    ensures drops { drops ≤ max32 }
{}

/// The numbers of a report fit their types, where the groups of its entries and connections are flow groups.
pub fn sheet_fits(sheet: &Sheet)
    requires entries { All HasGroup sheet.now.entries }
    requires conns { All IsInGroup sheet.now.conns }
    ensures { FitsSheet sheet.now }
{
    head_fits(sheet.head);
    count_fits(sheet.connects.len());
    count_fits(sheet.entries.len());
    count_fits(sheet.conns.len());
    settles_fit(sheet.settles.as_slice());
    entries_fit(sheet.entries.as_slice());
    strays_fit(sheet.strays.as_slice());
    conns_fit(sheet.conns.as_slice());
    closed_fit(sheet.closed.as_slice());
    end_fits(sheet.replies, sheet.drops);
}
