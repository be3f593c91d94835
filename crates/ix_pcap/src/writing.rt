// Writes a capture file of frames that were sent.
ghost use Rattle.std.specs.Prelude.{◌≡◌, ◌≤◌, ◌++◌, ◌<◌, ◌^◌, ◌/◌, ◌%◌, ◌*◌, All, IfOk, OnOk, length};
ghost use Rattle.byteorder.specs.Endian.{little_bytes};
ghost use Rattle.ix_pcap.specs.Written.{IsWritable, ReadsBack, capture_bytes, header_bytes, record_bytes};

use ix_base::{Bytes, NoMemory};
use std::alloc::Global;

/// A frame that was sent at a tick. A tick is a millisecond.
#[derive(Debug, Drop)]
pub struct Sent {
    pub at: u64,
    pub frame: Bytes,
}

/// Writes the capture file of these frames, in their order: low bytes first, version 2.4, timestamps
/// in microseconds, link type Ethernet. At most 262,144 frames read back, each with its bytes.
pub fn write_capture(alloc: Global, sent: &[Sent]) -> Result<Bytes, NoMemory>
    requires { All IsWritable sent.now }
    ensures written { IfOk result (λ bytes. bytes ≡ capture_bytes sent.now) }
    ensures reads_back { IfOk result (λ bytes. length sent.now ≤ 262144 → ReadsBack sent.now bytes) }
{
    let mut bytes = Bytes::from_slice(alloc, &header())?;
    for one in sent {
        write_record(&mut bytes, one)?;
    }
    Ok(bytes)
}

// The header of the file: the magic number of microseconds, the version, the time zone and the accuracy
// of times, which are always 0, the greatest captured length, and the link type.
#[tactic(auto, unfolding(crate::specs::Written::header_bytes))]
fn header() -> [u8; 24]
    ensures { result ≡ header_bytes }
{
    [
        0xd4, 0xc3, 0xb2, 0xa1, 2, 0, 4, 0, 0, 0, 0, 0, 0, 0, 0, 0, 0xff, 0xff, 0, 0, 1, 0, 0, 0,
    ]
}

#[tactic(auto, using(crate::proofs::WrittenLaws::record_pieces))]
fn write_record(bytes: &mut Bytes, sent: &Sent) -> Result<(), NoMemory>
    requires { IsWritable sent.now }
    ensures { OnOk result (bytes.new ≡ bytes.old ++ record_bytes sent.now) }
{
    let len = sent.frame.len() as u32;
    write_number(bytes, (sent.at / 1000) as u32)?;
    write_number(bytes, (sent.at % 1000 * 1000) as u32)?;
    write_number(bytes, len)?;
    write_number(bytes, len)?;
    bytes.extend_from_slice(sent.frame.as_slice())?;
    Ok(())
}

fn write_number(bytes: &mut Bytes, number: u32) -> Result<(), NoMemory>
    ensures { OnOk result (bytes.new ≡ bytes.old ++ little_bytes 4 number) }
{
    bytes.extend_from_slice(&number.to_le_bytes())
}
