//! The ground of every crate: plain types of the dataplane, lists that contracts see as lists, the answers for want of memory,
//! and the host, by which a program reads its inputs and writes its outputs.
#![tactic(auto)]

mod faults;
mod file;
mod frame;
mod host;
mod id;
mod list;
mod mem;
mod memory;
mod role;
mod segment;
mod sequence;

pub use file::FileHost;
pub use frame::{Disposition, Local};
pub use host::Host;
pub use id::{BUFFER_BYTES, BufId, CoreId, FLOW_GROUPS, Flow, GroupId, Handle, Owned, WireNo};
pub use list::{Bytes, List};
pub use mem::MemHost;
pub use memory::{Back, NoMemory};
pub use role::{Failed, Kind, Role};
pub use segment::{ACK, FIN, PSH, RST, Ret, SYN, Seg, SegHead, has_flag};
pub use sequence::{SeqNumber, behind, is_next, lies_in, past};
