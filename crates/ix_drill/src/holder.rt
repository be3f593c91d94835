// A unit that holds its first buffers.
ghost use Rattle.std.specs.Prelude.{◌≡◌, ◌≤◌, length, vec_capacity};

use crate::room::Room;
use ix_base::{CoreId, Flow, NoMemory, Owned, Ret};
use ix_desk::Unit;
use ix_mbuf::Mbuf;
use ix_stack::{GroupStack, Work};
use std::alloc::Global;
use std::mem;

/// A holder has so many connections at most.
const MOST_PORTS: usize = 4;

/// The names and cores of the items that it stepped, the buffers that it holds, those that it doesn't need any more, and the local ports
/// of its connections.
#[derive(Drop)]
pub struct Holder {
    pub alloc: Global,
    pub seen: Vec<(u32, u8)>,
    pub held: Vec<Mbuf>,
    pub spent: Vec<Mbuf>,
    pub ports: Vec<u16>,
    pub ghost room: { 8 ≤ vec_capacity held },
    pub ghost few: { length held.items ≤ 8 },
}

impl Holder {
    ghost use Rattle.std.specs.Prelude.{◌≡◌, ◌++◌, ◌∷◌, [], IfOk, OnOk};
    ghost use Rattle.ix_drill.specs.Steps.{number_of, kept_one, spent_one};

    /// A holder of nothing.
    pub fn new(alloc: Global) -> Result<Holder, NoMemory>
        ensures { IfOk result (λ h. (h.seen.items ≡ []) × (h.held.items ≡ []) × (h.spent.items ≡ []) × (h.ports.items ≡ [])) }
    {
        Ok(Holder {
            alloc,
            seen: Vec::new(alloc),
            held: Vec::with_capacity(alloc, 8)?,
            spent: Vec::new(alloc),
            ports: Vec::new(alloc),
        })
    }

    // Steps one item.
    fn one(&mut self, room: &Room, core: CoreId, item: Work) -> Result<(), NoMemory>
        ensures seen { OnOk result (self.new.seen.items ≡ self.old.seen.items ++ (number_of item, core.0) ∷ []) }
        ensures held { OnOk result (self.new.held.items ≡ kept_one room.now self.old.held.items item) }
        ensures spent { OnOk result (self.new.spent.items ≡ self.old.spent.items ++ spent_one room.now self.old.held.items item) }
    {
        self.seen.reserve(1)?;
        self.spent.reserve(1)?;
        match item {
            Work::Frame(taken) => {
                self.seen.push_reserved((taken.w.0, core.0));
                if self.held.len() < room.keep() {
                    self.held.push_reserved(taken.buf);
                } else {
                    self.spent.push_reserved(taken.buf);
                }
            }
            Work::Time { w, t: _ } => self.seen.push_reserved((w.0, core.0)),
        }
        Ok(())
    }
}

impl Unit for Holder {
    ghost use Rattle.std.specs.Prelude.{◌≡◌, ◌++◌, map, OnOk};
    ghost use Rattle.ix_drill.specs.Steps.{number_of, is_frame, Advanced};

    type Item = Work;

    type Env = Room;

    ghost name = { number_of };

    ghost counted = { is_frame };

    ghost stepped = { λ h. h.seen.items };

    ghost advanced = { λ x env core items y. Advanced env core items x.held.items x.spent.items x.seen.items y.held.items y.spent.items y.seen.items };

    fn step(&mut self, env: &Room, core: CoreId, items: Vec<Work>) -> Result<(), NoMemory>
        ensures names { OnOk result (self.new.seen.items ≡ self.old.seen.items ++ map (λ x. (number_of x, core.0)) items.items) }
        ensures advanced { OnOk result (Advanced env.now core.0 items.items self.old.held.items self.old.spent.items self.old.seen.items self.new.held.items self.new.spent.items self.new.seen.items) }
    {
        for item in items {
            self.one(env, core, item)?;
        }
        Ok(())
    }

    fn counts(item: &Work) -> bool {
        matches!(item, Work::Frame(_))
    }
}

impl GroupStack for Holder {
    ghost use Rattle.std.specs.Prelude.{◌≡◌, ◌+◌, ◌==◌, not, IfOk};
    ghost use Rattle.std.specs.List.{list_any};
    ghost use Rattle.ix_base.specs.declared.id.Flow.{Flow};
    ghost use Rattle.ix_mbuf.specs.Buffers.{buffers_weight};
    ghost use Rattle.ix_mbuf.specs.Owners.{one_at};
    ghost use Rattle.ix_drill.specs.Steps.{Connected, Drained, Finished, flow_of, has_port};
    ghost use Rattle.ix_drill.specs.Laws.{advanced-weighs, connected-weighs, drained-owns, drained-weighs, finished-weighs};

    ghost weight = { λ f h. buffers_weight f h.held.items + buffers_weight f h.spent.items };

    ghost drained = { λ x bufs y. Drained x.held.items x.spent.items bufs y.held.items y.spent.items };

    ghost owners = { λ h home. record { held = buffers_weight (one_at home) h.held.items; app = 0; queue = 0 } };

    ghost neighbour = { λ env ip. not (ip == 0) };

    ghost flow_from = { λ env ip port local. flow_of ip port local };

    ghost holds = { λ h flow. has_port h.ports.items flow.local_port };

    ghost is_unused = { λ h cookie. Unit {0} };

    ghost connected = { λ x env core cookie flow ret y. Connected x.ports.items x.held.items x.spent.items flow.local_port ret y.ports.items y.held.items y.spent.items };

    ghost finished = { λ x bufs y. Finished x.held.items x.spent.items bufs y.held.items y.spent.items };

    fn freed(&mut self) -> Result<Vec<Mbuf>, NoMemory> {
        let bufs = mem::replace(&mut self.spent, Vec::new(self.alloc));
        Ok(bufs)
    }

    fn owned(&self, home: CoreId) -> Owned {
        let held = self
            .held
            .iter()
            .filter(|buf| buf.id().home.0 == home.0)
            .count();
        Owned {
            held: held as u32,
            app: 0,
            queue: 0,
        }
    }

    fn is_neighbour(_env: &Room, ip: u32) -> bool {
        ip != 0
    }

    fn flow(_env: &Room, ip: u32, port: u16, local_port: u16) -> Flow {
        Flow {
            remote: ip,
            local: 1,
            remote_port: port,
            local_port,
        }
    }

    fn has(&self, flow: &Flow) -> bool {
        self.ports.iter().any(|port| *port == flow.local_port)
    }

    fn connect(
        &mut self,
        _env: &Room,
        _core: CoreId,
        _cookie: u64,
        flow: Flow,
    ) -> Result<Ret, NoMemory> {
        if self.ports.len() >= MOST_PORTS {
            return Ok(Ret::TableFull);
        }
        self.ports.push(flow.local_port)?;
        Ok(Ret::Done(0))
    }

    fn finish(&mut self) -> Result<Vec<Mbuf>, NoMemory> {
        let empty = Vec::with_capacity(self.alloc, 8)?;
        let mut bufs = mem::replace(&mut self.held, empty);
        let spent = mem::replace(&mut self.spent, Vec::new(self.alloc));
        for buf in spent {
            bufs.push(buf)?;
        }
        Ok(bufs)
    }

    ghost steps_weigh = { λ f x env core items y so. advanced-weighs f env core items x.held.items x.spent.items x.seen.items y.held.items y.spent.items y.seen.items so };

    ghost drains_weigh = { λ f x bufs y so. drained-weighs f x.held.items x.spent.items bufs y.held.items y.spent.items so };

    ghost owners_weigh = { λ x bufs y home so. drained-owns home x.held.items x.spent.items bufs y.held.items y.spent.items so };

    ghost connects_weigh = { λ f x env core cookie flow ret y so. connected-weighs f x.ports.items x.held.items x.spent.items flow.local_port ret y.ports.items y.held.items y.spent.items so };

    ghost finishes_weigh = { λ f x bufs y so. finished-weighs f x.held.items x.spent.items bufs y.held.items y.spent.items so };
}
