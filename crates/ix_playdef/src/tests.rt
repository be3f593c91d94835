// A small wire list.

use crate::{clocks_of, entries_by_group};
use ix_pcap::read_capture;
use ix_wire::Entry;
use std::test::Fail;

// A capture of one record: a SYN of a flow of group 376.
const CAPTURE: [u8; 98] = [
    0xd4, 0xc3, 0xb2, 0xa1, 2, 0, 4, 0, 0, 0, 0, 0, 0, 0, 0, 0, 0xff, 0xff, 0, 0, 1, 0, 0, 0, 0, 0,
    0, 0, 0, 0, 0, 0, 58, 0, 0, 0, 58, 0, 0, 0, 2, 0, 0, 0, 0, 1, 2, 0, 0, 0, 0, 2, 8, 0, 0x45, 0,
    0, 0x2c, 0, 0, 0x40, 0, 0x40, 0x06, 0x5d, 0x29, 0x42, 0x09, 0x95, 0xbb, 0xa1, 0x8e, 0x64, 0x50,
    0x0a, 0xea, 0x06, 0xe6, 0, 0, 0x10, 0, 0, 0, 0, 0, 0x60, 0x02, 0xfa, 0xf0, 0x9d, 0xc2, 0, 0, 2,
    4, 5, 0xb4,
];

const ENTRIES: [Entry; 4] = [
    Entry::Frame { rec: 0 },
    Entry::Time { t: 5 },
    Entry::Settle,
    Entry::Frame { rec: 1 },
];

#[test]
fn a_frame_and_a_time(rt: HostRuntime) -> Result<(), Fail> {
    let capture = read_capture(rt.alloc(), &CAPTURE).map_err(|_| "a capture")?;
    let lists = entries_by_group(rt.alloc(), &CAPTURE, &capture, &ENTRIES).map_err(|_| "memory")?;
    for (group, list) in lists.iter().enumerate() {
        let expected = if group == 376 { 2 } else { 1 };
        assert_eq!(rt; list.len(), expected, "group {group}");
    }
    let clocks = clocks_of(rt.alloc(), &ENTRIES).map_err(|_| "memory")?;
    assert!(rt; clocks.as_slice() == [0, 5, 5, 5].as_slice());
    Ok(())
}
