// Each call of the desks is one event, by its own clauses.
ghost use Rattle.std.specs.Prelude.{◌≡◌, true, None, OnOk, IfOk, IfSome, IfNone};
ghost use Rattle.ix_desk.specs.Groups.{unit_of};
ghost use Rattle.ix_desk.specs.Desks.{group_at, fits_at, welcome_at};
ghost use Rattle.ix_history.specs.Events.{for_group, took, came, worked, gone, parcel_of, Happened, LentOne};

use crate::hands_out::HandsOut;
use ix_base::{Back, CoreId, GroupId, NoMemory};
use ix_desk::{DeskItem, Desks, Shipment};

/// Takes an item of a flow group, which is one event.
pub fn take<U: HandsOut>(
    env: &U::Env,
    desks: &mut Desks<U>,
    g: GroupId,
    it: DeskItem<U::Item>,
) -> Result<(), Back<DeskItem<U::Item>>>
    requires { fits_at desks.old g.0 it ≡ true }
    ensures { OnOk result (Happened U.counted U.name U.stepped U.advanced U.lends env.now desks.old (took (for_group g.0 it)) desks.new) }
{
    desks.item(g, it)
}

/// Takes a unit that the core `from` has shipped, which is one event.
pub fn land<U: HandsOut>(
    env: &U::Env,
    desks: &mut Desks<U>,
    from: CoreId,
    s: Shipment<U>,
) -> Result<(), Back<Shipment<U>>>
    requires { welcome_at desks.old s.group.0 s.tenure s.to.0 ≡ true }
    ensures { OnOk result (Happened U.counted U.name U.stepped U.advanced U.lends env.now desks.old (came from.0 (parcel_of s.group.0 s.tenure s.to.0 s.unit s.queue)) desks.new) }
{
    desks.arrive(s)
}

/// Steps items until so many that count are stepped or none is left, which is one event. Answers the number of those that count.
pub fn work<U: HandsOut>(env: &U::Env, desks: &mut Desks<U>, max: usize) -> Result<usize, NoMemory>
    ensures { OnOk result (Happened U.counted U.name U.stepped U.advanced U.lends env.now desks.old (worked max) desks.new) }
{
    desks.work(env, max)
}

/// Gives away a unit that is to leave, which is one event.
pub fn ship<U: HandsOut>(env: &U::Env, desks: &mut Desks<U>) -> Option<Shipment<U>>
    ensures some { IfSome result (λ s. Happened U.counted U.name U.stepped U.advanced U.lends env.now desks.old (gone (parcel_of s.group.0 s.tenure s.to.0 s.unit s.queue)) desks.new) }
    ensures none { IfNone result (desks.new ≡ desks.old) }
{
    desks.ship()
}

/// Lets the unit of a flow group hand out what there is, which is one event where the unit is here, and else none.
pub fn hand_out<U: HandsOut>(
    env: &U::Env,
    desks: &mut Desks<U>,
    g: GroupId,
) -> Result<Option<U::Out>, NoMemory>
    ensures some { IfOk result (λ o. IfSome o (λ out. LentOne U.counted U.name U.stepped U.advanced U.lends env.now desks.old g.0 out desks.new)) }
    ensures none { IfOk result (λ o. IfNone o ((unit_of (group_at desks.old g.0) ≡ None) × (desks.new ≡ desks.old))) }
{
    let Some(unit) = desks.unit_mut(g) else {
        return Ok(None);
    };
    let out = unit.hand_out()?;
    Ok(Some(out))
}
