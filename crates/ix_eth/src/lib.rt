//! Ethernet II frames and the answer to an ARP request.
#![tactic(auto)]

mod arp;
mod ethernet;
mod put;

pub use arp::{ARP, arp_answer};
pub use ethernet::{EthView, IPV4, ethernet_header};
pub use put::put_bytes;
