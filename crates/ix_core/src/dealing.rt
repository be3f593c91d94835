// Items and units that come go to the desks.
ghost use Rattle.std.specs.Prelude.{◌≡◌, ◌<◌, true, OnOk, length};
ghost use Rattle.ix_history.specs.Events.{given, with_each};
ghost use Rattle.ix_core.specs.Items.{item_fits, with_item};
ghost use Rattle.ix_desk.specs.Desks.{group_at, with_group};
ghost use Rattle.ix_stack.specs.declared.work.Work.TheVariants.{Time};
ghost use Rattle.ix_core.specs.Dealing.{Deals};

use ix_base::{FLOW_GROUPS, GroupId, NoMemory, WireNo};
use ix_desk::{DeskItem, Desks};
use ix_stack::{GroupStack, Item, Taken, Work};
use std::collections::VecDeque;

// Whether the desks take this item next.
fn item_fits<G: GroupStack>(desks: &Desks<G>, item: &Item) -> bool
    ensures { result ≡ item_fits desks.now item.now }
{
    match item {
        Item::Frame { w, group, buf: _ } => {
            desks.fits(*group, &DeskItem::Work(Work::Time { w: *w, t: 0 }))
        }
        Item::Tag { group } => desks.fits(*group, &DeskItem::Tag),
        Item::Cut { group, to } => desks.fits(*group, &DeskItem::Cut { to: *to }),
        Item::Start { group, tenure } => desks.fits(*group, &DeskItem::Start { tenure: *tenure }),
        Item::Time { w: _, t: _ } | Item::End => true,
    }
}

/// The number of flow groups, each of which has its desks.
pub fn groups<G: GroupStack>(desks: &Desks<G>) -> u16
    ensures { (result ≡ length desks.now.groups) × (result ≡ 512) }
{
    // asked for what it says of the desks alone
    let _first = desks.fits(GroupId(0), &DeskItem::Tag);
    FLOW_GROUPS as u16
}

// A group takes a time, where its piece is open.
fn deal_time_at<G: GroupStack>(
    desks: &mut Desks<G>,
    group: GroupId,
    w: WireNo,
    t: u64,
) -> Result<(), NoMemory>
    requires { group.0 < 512 }
    ensures { OnOk result (desks.new ≡ with_group desks.old group.0 (given (Time w t) (group_at desks.old group.0))) }
{
    let it = DeskItem::Work(Work::Time { w, t });
    if !desks.fits(group, &it) {
        return Ok(());
    }
    desks.item(group, it)?;
    Ok(())
}

// Each open piece takes a time.
fn deal_time<G: GroupStack>(desks: &mut Desks<G>, w: WireNo, t: u64) -> Result<(), NoMemory>
    ensures { OnOk result (desks.new ≡ with_each desks.old (Time w t)) }
{
    let count = groups(desks);
    for g in 0..count {
        deal_time_at(desks, GroupId(g), w, t)?;
    }
    Ok(())
}

// The desks take an item that fits.
fn deal_item<G: GroupStack>(desks: &mut Desks<G>, item: Item) -> Result<(), NoMemory>
    requires { item_fits desks.old item ≡ true }
    ensures { OnOk result (desks.new ≡ with_item desks.old item) }
{
    match item {
        Item::Frame { w, group, buf } => {
            desks.item(group, DeskItem::Work(Work::Frame(Taken { w, buf })))?;
        }
        Item::Tag { group } => desks.item(group, DeskItem::Tag)?,
        Item::Cut { group, to } => desks.item(group, DeskItem::Cut { to })?,
        Item::Start { group, tenure } => desks.item(group, DeskItem::Start { tenure })?,
        Item::Time { w, t } => deal_time(desks, w, t)?,
        Item::End => {}
    }
    Ok(())
}

/// The desks take the items that came, in order, as long as the next one fits.
pub fn deal_items<G: GroupStack>(
    desks: &mut Desks<G>,
    env: &G::Env,
    came: &mut VecDeque<Item>,
) -> Result<(), NoMemory>
    ensures { OnOk result (Deals G.counted G.name G.stepped G.advanced G.drained env.now desks.old desks.new came.old.items came.new.items) }
{
    while let Some(item) = came.pop_front() {
        if !item_fits(desks, &item) {
            came.push_front_reserved(item);
            return Ok(());
        }
        deal_item(desks, item)?;
    }
    Ok(())
}
