//! IPv4 packets and the Internet checksum.
#![tactic(auto)]

mod header;
mod laws;
mod packet;
mod sum;

pub use header::ip_header;
pub use laws::payloads_lie_within;
pub use packet::{IpFault, IpView};
pub use sum::{ones_sum, pseudo_sum, sum16, transport_sum};
