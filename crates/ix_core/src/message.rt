// What goes between two cores.

use ix_base::CoreId;
use ix_desk::Shipment;
use ix_mbuf::Mbuf;
use ix_ring::{PutEnd, TakeEnd};
use ix_stack::{GroupStack, Item};

/// A message from one core to another.
#[derive(Drop)]
pub enum Message<G: GroupStack> {
    /// A flow group on its way to its next tenure.
    Ship(Shipment<G>),
    /// A buffer on its way to its home.
    Home(Mbuf),
}

/// A core's ends of the two rings between it and another core.
#[derive(Drop)]
pub struct MeshEnd<G: GroupStack> {
    /// The other core.
    pub core: CoreId,
    /// Where messages to it are put.
    pub put: PutEnd<Message<G>>,
    /// Where messages from it are taken.
    pub take: TakeEnd<Message<G>>,
}

/// A core's ends of all its rings.
#[derive(Drop)]
pub struct CoreEnds<G: GroupStack> {
    /// Its receive ring, where it takes what the card put.
    pub items: TakeEnd<Item>,
    /// Its posting ring, where it puts free buffers for the card.
    pub posted: PutEnd<Mbuf>,
    /// Its ends of the mesh, one for each other core.
    pub mesh: Vec<MeshEnd<G>>,
}
