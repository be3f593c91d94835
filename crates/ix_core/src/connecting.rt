// Connections that a core opens.
ghost use Rattle.std.specs.Prelude.{◌≡◌, ◌<◌, ◌+◌, ℕ, true, Some, IfSome, IfNone, IfOk};
ghost use Rattle.ix_desk.specs.Groups.{unit_of};
ghost use Rattle.ix_desk.specs.Desks.{group_at};
ghost use Rattle.ix_hash.specs.Group.{group_of_flow};
ghost use Rattle.ix_core.specs.Connecting.{ConnectsAt, FirstFree, NoneFree, is_free};

use ix_base::{CoreId, Flow, NoMemory, Ret};
use ix_desk::Desks;
use ix_hash::group_of;
use ix_stack::GroupStack;

/// The first of the ports that a core connects from; the others follow up to the last port that there is (RFC 6335, section 6: the dynamic
/// ports).
pub const FIRST_PORT: u16 = 49_152;

// How many there are.
const PORTS: u16 = 16_384;

// Whether a connection of this flow can be opened: its group is here, and has none of it.
fn is_free<G: GroupStack>(desks: &Desks<G>, flow: &Flow) -> bool
    ensures { result ≡ is_free G.holds desks.now flow.now }
{
    match desks.unit(group_of(flow)) {
        Some(unit) => !unit.has(flow),
        None => false,
    }
}

/// The first flow to this address and port that can be opened here, by rising local port.
pub fn free_flow<G: GroupStack>(desks: &Desks<G>, env: &G::Env, ip: u32, port: u16) -> Option<Flow>
    ensures some { IfSome result (λ flow. FirstFree (is_free G.holds desks.now) (G.flow_from env.now ip port) flow) }
    ensures none { IfNone result (NoneFree (is_free G.holds desks.now) (G.flow_from env.now ip port)) }
{
    for step in 0..PORTS {
        let flow = G::flow(env, ip, port, FIRST_PORT + step);
        if is_free(desks, &flow) {
            return Some(flow);
        }
    }
    None
}

/// Has the flow's group open a connection of it.
pub fn connect_at<G: GroupStack>(
    desks: &mut Desks<G>,
    env: &G::Env,
    core: CoreId,
    cookie: u64,
    flow: Flow,
) -> Result<Ret, NoMemory>
    requires free { is_free G.holds desks.old flow ≡ true }
    requires unused { (g : ℕ) (u : G) → unit_of (group_at desks.old g) ≡ Some u → G.is_unused u cookie }
    ensures { IfOk result (λ ret. ConnectsAt G.connected env.now core.0 cookie flow ret desks.old desks.new) }
{
    let group = group_of(&flow);
    let Some(unit) = desks.unit_mut(group) else {
        unreachable!()
    };
    let ret = unit.connect(env, core, cookie, flow)?;
    Ok(ret)
}
