// What an application is told.

use ix_call::Reason;
use ix_mbuf::Part;

/// What an application is told of one of its connections.
#[derive(Drop)]
pub enum AppEvent {
    /// The connection was opened from here, and is up.
    Up,
    /// The next bytes of the peer, in a part of the buffer in which they came.
    Recv(Part),
    /// The peer's stream has ended.
    PeerEnd,
    /// So many bytes were acknowledged.
    Sent(u32),
    /// The connection is gone.
    Dead(Reason),
}
