// What no clause says: scripts from outside, each kind of fault, the limits, and that memory is enough.
ghost use Rattle.std.specs.Prelude.{◌≤◌, ◌<◌, ◌+◌, ◌*◌};

use crate::{Entry, ScriptFault, ScriptKind, read_wire};
use ix_base::{CoreId, GroupId};
use std::alloc::{AllocError, Global};
use std::test::Fail;

// Four records, the second of which is the local side's own.
const OWN: [bool; 4] = [false, true, false, false];

// The number of entries over these records.
fn count(
    alloc: Global,
    pace: u32,
    cores: u8,
    live: u8,
    own: &[bool],
    text: &str,
) -> Result<usize, ScriptFault>
    requires { (1 ≤ live) × (live ≤ cores) × (cores ≤ 8) }
{
    match read_wire(alloc, text.as_bytes(), pace, cores, live, own) {
        Ok(entries) => Ok(entries.len()),
        Err(fault) => Err(fault),
    }
}

struct Refusal {
    text: &'static str,
    line: u32,
    kind: ScriptKind,
}

// One fault each, over three cores of which two are live.
const REFUSALS: [Refusal; 53] = [
    Refusal {
        text: "walk",
        line: 1,
        kind: ScriptKind::Word,
    },
    Refusal {
        text: "settle now",
        line: 1,
        kind: ScriptKind::Word,
    },
    Refusal {
        text: "tag",
        line: 1,
        kind: ScriptKind::Word,
    },
    Refusal {
        text: "frames 1",
        line: 1,
        kind: ScriptKind::Word,
    },
    Refusal {
        text: "time 1 2",
        line: 1,
        kind: ScriptKind::Word,
    },
    Refusal {
        text: "move 1 2 3",
        line: 1,
        kind: ScriptKind::Word,
    },
    Refusal {
        text: "Settle",
        line: 1,
        kind: ScriptKind::Word,
    },
    Refusal {
        text: " settle",
        line: 1,
        kind: ScriptKind::Word,
    },
    Refusal {
        text: "settle ",
        line: 1,
        kind: ScriptKind::Word,
    },
    Refusal {
        text: "tag  7",
        line: 1,
        kind: ScriptKind::Word,
    },
    Refusal {
        text: "settle\t",
        line: 1,
        kind: ScriptKind::Word,
    },
    Refusal {
        text: "settle\u{7f}",
        line: 1,
        kind: ScriptKind::Word,
    },
    Refusal {
        text: "settle\r",
        line: 1,
        kind: ScriptKind::Word,
    },
    Refusal {
        text: "settle\r\r\n",
        line: 1,
        kind: ScriptKind::Word,
    },
    Refusal {
        text: "\n# 1\n\r\n \n",
        line: 4,
        kind: ScriptKind::Word,
    },
    Refusal {
        text: "version 1\nversion 1",
        line: 2,
        kind: ScriptKind::Word,
    },
    Refusal {
        text: "settle\nversion 2",
        line: 2,
        kind: ScriptKind::Word,
    },
    Refusal {
        text: "time +1",
        line: 1,
        kind: ScriptKind::Number,
    },
    Refusal {
        text: "time -1",
        line: 1,
        kind: ScriptKind::Number,
    },
    Refusal {
        text: "time 01",
        line: 1,
        kind: ScriptKind::Number,
    },
    Refusal {
        text: "time 4294967296",
        line: 1,
        kind: ScriptKind::Number,
    },
    Refusal {
        text: "time 99999999999999999999",
        line: 1,
        kind: ScriptKind::Number,
    },
    Refusal {
        text: "time 1x",
        line: 1,
        kind: ScriptKind::Number,
    },
    Refusal {
        text: "time ",
        line: 1,
        kind: ScriptKind::Number,
    },
    Refusal {
        text: "tag 128",
        line: 1,
        kind: ScriptKind::Number,
    },
    Refusal {
        text: "version 2\ntag 512",
        line: 2,
        kind: ScriptKind::Number,
    },
    Refusal {
        text: "version 3",
        line: 1,
        kind: ScriptKind::Number,
    },
    Refusal {
        text: "version 0",
        line: 1,
        kind: ScriptKind::Number,
    },
    Refusal {
        text: "frames 2 1",
        line: 1,
        kind: ScriptKind::Number,
    },
    Refusal {
        text: "each 1 0",
        line: 1,
        kind: ScriptKind::Number,
    },
    Refusal {
        text: "each 0 x",
        line: 1,
        kind: ScriptKind::Number,
    },
    Refusal {
        text: "move 128 0",
        line: 1,
        kind: ScriptKind::Number,
    },
    Refusal {
        text: "move 0 0x1",
        line: 1,
        kind: ScriptKind::Number,
    },
    Refusal {
        text: "add 00",
        line: 1,
        kind: ScriptKind::Number,
    },
    Refusal {
        text: "revoke x",
        line: 1,
        kind: ScriptKind::Number,
    },
    Refusal {
        text: "frames 0 4",
        line: 1,
        kind: ScriptKind::NoRecord,
    },
    Refusal {
        text: "each 4 4",
        line: 1,
        kind: ScriptKind::NoRecord,
    },
    Refusal {
        text: "time 5\ntime 4",
        line: 2,
        kind: ScriptKind::Back,
    },
    Refusal {
        text: "add 3",
        line: 1,
        kind: ScriptKind::NoCore,
    },
    Refusal {
        text: "revoke 2",
        line: 1,
        kind: ScriptKind::NoCore,
    },
    Refusal {
        text: "revoke 8",
        line: 1,
        kind: ScriptKind::NoCore,
    },
    Refusal {
        text: "tag 5\nmove 5 2",
        line: 2,
        kind: ScriptKind::NoCore,
    },
    Refusal {
        text: "tag 5\nmove 5 4294967295",
        line: 2,
        kind: ScriptKind::NoCore,
    },
    Refusal {
        text: "add 1",
        line: 1,
        kind: ScriptKind::Live,
    },
    Refusal {
        text: "revoke 0\nrevoke 1",
        line: 2,
        kind: ScriptKind::LastCore,
    },
    Refusal {
        text: "tag 5\ntag 5",
        line: 2,
        kind: ScriptKind::AlreadyTagged,
    },
    Refusal {
        text: "tag 0\nadd 2",
        line: 2,
        kind: ScriptKind::AlreadyTagged,
    },
    Refusal {
        text: "tag 127\nrevoke 1",
        line: 2,
        kind: ScriptKind::AlreadyTagged,
    },
    Refusal {
        text: "move 5 0",
        line: 1,
        kind: ScriptKind::NotTagged,
    },
    Refusal {
        text: "tag 5\nmove 5 0\nmove 5 1",
        line: 3,
        kind: ScriptKind::NotTagged,
    },
    Refusal {
        text: "tag 4\nmove 4 0",
        line: 2,
        kind: ScriptKind::SameCore,
    },
    Refusal {
        text: "tag 5",
        line: 1,
        kind: ScriptKind::LeftTagged,
    },
    Refusal {
        text: "settle\ntag 5\ntag 4\ntag 3\nmove 5 0",
        line: 3,
        kind: ScriptKind::LeftTagged,
    },
];

// Several faults, of which the first line and the first kind count.
const SEVERAL: [Refusal; 14] = [
    Refusal {
        text: "settle\nversion 3",
        line: 2,
        kind: ScriptKind::Word,
    },
    Refusal {
        text: "version 3 3",
        line: 1,
        kind: ScriptKind::Word,
    },
    Refusal {
        text: "walk x",
        line: 1,
        kind: ScriptKind::Word,
    },
    Refusal {
        text: "frames 9 8",
        line: 1,
        kind: ScriptKind::Number,
    },
    Refusal {
        text: "move 128 9",
        line: 1,
        kind: ScriptKind::Number,
    },
    Refusal {
        text: "move 5 9",
        line: 1,
        kind: ScriptKind::NoCore,
    },
    Refusal {
        text: "tag 5\nadd 0",
        line: 2,
        kind: ScriptKind::Live,
    },
    Refusal {
        text: "revoke 0\ntag 5\nrevoke 1",
        line: 3,
        kind: ScriptKind::LastCore,
    },
    Refusal {
        text: "move 4 0",
        line: 1,
        kind: ScriptKind::NotTagged,
    },
    Refusal {
        text: "time 5\ntime 4\nwalk",
        line: 2,
        kind: ScriptKind::Back,
    },
    Refusal {
        text: "tag 5\nwalk",
        line: 2,
        kind: ScriptKind::Word,
    },
    Refusal {
        text: "tag 5\ntime 1\ntime 0",
        line: 3,
        kind: ScriptKind::Back,
    },
    Refusal {
        text: "walk\ntag 128",
        line: 1,
        kind: ScriptKind::Word,
    },
    Refusal {
        text: "frames 0 4\nadd 1",
        line: 1,
        kind: ScriptKind::NoRecord,
    },
];

fn is_refused(alloc: Global, refusal: &Refusal) -> bool {
    let want = Err(ScriptFault::At {
        line: refusal.line,
        kind: refusal.kind,
    });
    count(alloc, 256, 3, 2, &OWN, refusal.text) == want
}

#[test]
fn refused_lines(rt: HostRuntime) -> Result<(), Fail> {
    for refusal in &REFUSALS {
        assert!(rt; is_refused(rt.alloc(), refusal), "{}", refusal.text);
    }
    for refusal in &SEVERAL {
        assert!(rt; is_refused(rt.alloc(), refusal), "{}", refusal.text);
    }
    Ok(())
}

struct Accepted {
    text: &'static str,
    entries: usize,
}

// Over three cores of which two are live.
const ACCEPTED: [Accepted; 16] = [
    Accepted {
        text: "",
        entries: 1,
    },
    Accepted {
        text: "\n\r\n#\n",
        entries: 1,
    },
    Accepted {
        text: "settle",
        entries: 2,
    },
    Accepted {
        text: "settle\r\nsettle\n",
        entries: 3,
    },
    Accepted {
        text: "time 0\ntime 0",
        entries: 3,
    },
    Accepted {
        text: "time 4294967295",
        entries: 2,
    },
    Accepted {
        text: "frames 1 1",
        entries: 1,
    },
    Accepted {
        text: "frames 0 3",
        entries: 4,
    },
    Accepted {
        text: "each 0 3",
        entries: 7,
    },
    Accepted {
        text: "# \u{e9}",
        entries: 1,
    },
    Accepted {
        text: "version 1",
        entries: 1,
    },
    Accepted {
        text: "#\nversion 2\ntag 511\nmove 511 0",
        entries: 3,
    },
    Accepted {
        text: "tag 0\nmove 0 1",
        entries: 9,
    },
    Accepted {
        text: "add 2",
        entries: 337,
    },
    Accepted {
        text: "version 2\nadd 2",
        entries: 341,
    },
    Accepted {
        text: "add 2\nrevoke 0\nrevoke 2",
        entries: 1194,
    },
];

#[test]
fn accepted_lines(rt: HostRuntime) -> Result<(), Fail> {
    for case in &ACCEPTED {
        let entries = count(rt.alloc(), 256, 3, 2, &OWN, case.text)?;
        assert_eq!(rt; entries, case.entries, "{}", case.text);
    }
    assert_eq!(rt; count(rt.alloc(), 256, 2, 2, &OWN, "revoke 1")?, 513);
    for (pace, frames, each) in [
        (0u32, 4usize, 7usize),
        (1, 7, 10),
        (2, 5, 7),
        (4, 4, 7),
        (65_536, 4, 7),
    ] {
        assert_eq!(rt; count(rt.alloc(), pace, 1, 1, &OWN, "frames 0 3")?, frames);
        assert_eq!(rt; count(rt.alloc(), pace, 1, 1, &OWN, "each 0 3")?, each);
    }
    Ok(())
}

struct Listed {
    text: &'static str,
    pace: u32,
    entries: &'static str,
}

// Whole wire lists over two live cores: settles of the pace, and then groups that move with settles of the pace between, with a frame
// behind the tag, there and back again, alone, and with a settle before the next frame.
const LISTED: [Listed; 10] = [
    Listed {
        text: "frames 0 3",
        pace: 0,
        entries: "frame 0\nframe 2\nframe 3\nsettle\n",
    },
    Listed {
        text: "frames 0 3",
        pace: 2,
        entries: "frame 0\nframe 2\nsettle\nframe 3\nsettle\n",
    },
    Listed {
        text: "each 0 3",
        pace: 2,
        entries: "frame 0\nsettle\nframe 2\nsettle\nframe 3\nsettle\nsettle\n",
    },
    Listed {
        text: "each 0 0",
        pace: 1,
        entries: "frame 0\nsettle\nsettle\nsettle\n",
    },
    Listed {
        text: "frames 0 0\ntime 5\nframes 2 2\nsettle\nframes 3 3",
        pace: 3,
        entries: "frame 0\ntime 5\nframe 2\nsettle\nframe 3\nsettle\n",
    },
    Listed {
        text: "# one class\r\nframes 0 1\r\n\ntag 120\nframes 1 2\nmove 120 1\neach 3 3\ntime 7",
        pace: 2,
        entries: "frame 0\ntag 120\ntag 248\ntag 376\ntag 504\nframe 2\nsettle\nmove 120 1\nmove 248 1\nmove 376 1\nmove 504 1\nframe 3\nsettle\ntime 7\nsettle\n",
    },
    Listed {
        text: "frames 0 0\ntag 120\nframes 2 2\nmove 120 1\nframes 3 3",
        pace: 256,
        entries: "frame 0\ntag 120\ntag 248\ntag 376\ntag 504\nframe 2\nmove 120 1\nmove 248 1\nmove 376 1\nmove 504 1\nframe 3\nsettle\n",
    },
    Listed {
        text: "tag 120\nmove 120 1\ntag 120\nmove 120 0\nframes 0 0",
        pace: 256,
        entries: "tag 120\ntag 248\ntag 376\ntag 504\nmove 120 1\nmove 248 1\nmove 376 1\nmove 504 1\ntag 120\ntag 248\ntag 376\ntag 504\nmove 120 0\nmove 248 0\nmove 376 0\nmove 504 0\nframe 0\nsettle\n",
    },
    Listed {
        text: "version 2\nframes 0 0\ntag 376\nframes 2 2\nmove 376 1\nframes 3 3",
        pace: 256,
        entries: "frame 0\ntag 376\nframe 2\nmove 376 1\nframe 3\nsettle\n",
    },
    Listed {
        text: "frames 0 0\ntag 120\nframes 2 2\nmove 120 1\nsettle\nframes 3 3",
        pace: 256,
        entries: "frame 0\ntag 120\ntag 248\ntag 376\ntag 504\nframe 2\nmove 120 1\nmove 248 1\nmove 376 1\nmove 504 1\nsettle\nframe 3\nsettle\n",
    },
];

// An entry as a line.
fn shown(alloc: Global, entry: &Entry) -> Result<String, AllocError> {
    match entry {
        Entry::Frame { rec } => format!(in alloc; "frame {rec}\n"),
        Entry::Tag { group } => format!(in alloc; "tag {}\n", group.0),
        Entry::Move { group, to } => format!(in alloc; "move {} {}\n", group.0, to.0),
        Entry::Time { t } => format!(in alloc; "time {t}\n"),
        Entry::Settle => format!(in alloc; "settle\n"),
    }
}

#[test]
fn whole_lists(rt: HostRuntime) -> Result<(), Fail> {
    let alloc = rt.alloc();
    for case in &LISTED {
        let mut all = String::new(alloc);
        for entry in &read_wire(alloc, case.text.as_bytes(), case.pace, 2, 2, &OWN)? {
            all.push_str(&shown(alloc, entry)?)?;
        }
        assert_eq!(rt; all.as_str(), case.entries, "{}", case.text);
    }
    Ok(())
}

// The tag and the move of each flow group that a place names.
fn push_planned(
    entries: &mut Vec<Entry>,
    place: u16,
    width: u16,
    to: CoreId,
) -> Result<(), AllocError>
    requires { place + 128 * width < 640 }
{
    for k in 0..width {
        let group = GroupId(place + 128 * k);
        entries.push(Entry::Tag { group })?;
        entries.push(Entry::Move { group, to })?;
    }
    Ok(())
}

#[test]
fn plans(rt: HostRuntime) -> Result<(), Fail> {
    let alloc = rt.alloc();
    let mut want = Vec::new(alloc);
    for class in 0..42u16 {
        push_planned(&mut want, class, 4, CoreId(2))?;
    }
    want.push(Entry::Settle)?;
    assert!(rt; read_wire(alloc, b"add 2", 256, 3, 2, &OWN)?.as_slice() == want.as_slice());
    let mut want = Vec::new(alloc);
    for turn in 0..64u16 {
        push_planned(&mut want, 2 * turn + 1, 4, CoreId(0))?;
    }
    want.push(Entry::Settle)?;
    assert!(rt; read_wire(alloc, b"revoke 1", 256, 2, 2, &OWN)?.as_slice() == want.as_slice());
    let mut want = Vec::new(alloc);
    for group in 0..170u16 {
        push_planned(&mut want, group, 1, CoreId(2))?;
    }
    want.push(Entry::Settle)?;
    let entries = read_wire(alloc, b"version 2\nadd 2", 256, 3, 2, &OWN)?;
    assert!(rt; entries.as_slice() == want.as_slice());
    Ok(())
}

#[test]
fn the_thousandth(rt: HostRuntime) -> Result<(), Fail> {
    let alloc = rt.alloc();
    let mut want = Vec::new(alloc);
    for group in 0..256u16 {
        push_planned(&mut want, group, 1, CoreId(1))?;
    }
    for group in 0..256u16 {
        if group == 244 {
            want.push(Entry::Settle)?;
        }
        push_planned(&mut want, group, 1, CoreId(0))?;
    }
    want.push(Entry::Settle)?;
    let entries = read_wire(alloc, b"version 2\nadd 1\nrevoke 1", 256, 2, 1, &OWN)?;
    assert!(rt; entries.as_slice() == want.as_slice());
    Ok(())
}

// A text so many times, and then another.
fn repeated(alloc: Global, text: &str, times: usize, last: &str) -> Result<String, AllocError> {
    let mut all = String::new(alloc);
    for _ in 0..times {
        all.push_str(text)?;
    }
    all.push_str(last)?;
    Ok(all)
}

fn too_many(line: u32) -> Result<usize, ScriptFault> {
    Err(ScriptFault::At {
        line,
        kind: ScriptKind::TooMany,
    })
}

#[test]
fn limits(rt: HostRuntime) -> Result<(), Fail> {
    let alloc = rt.alloc();
    let many = [false; 4096];
    let controls = [(999usize, 1000usize), (1000, 1002), (2000, 2003)];
    for (times, entries) in controls {
        let text = repeated(alloc, "time 0\n", times, "")?;
        assert_eq!(rt; count(alloc, 256, 1, 1, &OWN, &text)?, entries);
    }
    let text = repeated(alloc, "x", 127, "")?;
    let long = format!(in alloc; "#{text}\n#{text}x")?;
    assert_eq!(rt;
        count(alloc, 256, 1, 1, &OWN, &long),
        Err(ScriptFault::At {
            line: 2,
            kind: ScriptKind::TooLong
        })
    );
    let text = repeated(alloc, "#\n", 65_536, "")?;
    assert_eq!(rt; count(alloc, 256, 1, 1, &OWN, &text), Ok(1));
    let text = repeated(alloc, "#\n", 65_536, "#")?;
    assert_eq!(rt; count(alloc, 256, 1, 1, &OWN, &text), too_many(65_537));
    let text = repeated(alloc, "frames 0 4095\n", 64, "")?;
    assert_eq!(rt; count(alloc, 0, 1, 1, &many, &text), Ok(262_145));
    let text = repeated(alloc, "frames 0 4095\n", 64, "frames 7 7")?;
    assert_eq!(rt; count(alloc, 0, 1, 1, &many, &text), too_many(65));
    Ok(())
}

// Core 1 takes half of the flow groups and gives them back, 256 moves a line.
#[test]
fn most_moves(rt: HostRuntime) -> Result<(), Fail> {
    let alloc = rt.alloc();
    let plans = repeated(alloc, "add 1\nrevoke 1\n", 16_384, "")?;
    let text = format!(in alloc; "version 2\n{plans}")?;
    assert_eq!(rt; count(alloc, 256, 2, 1, &OWN, &text), Ok(16_793_994));
    let text = format!(in alloc; "version 2\n{plans}tag 0")?;
    assert_eq!(rt; count(alloc, 256, 2, 1, &OWN, &text), too_many(32_770));
    Ok(())
}
