// Taking items from the receive ring.
ghost use Rattle.std.specs.Prelude.{◌≡◌, ◌+◌, ◌≤◌, OnOk, IfOk};
ghost use Rattle.ix_ring.specs.Ends.{SameTakeEnd};
ghost use Rattle.ix_core.specs.Taking.{Takes};

use ix_base::NoMemory;
use ix_ring::TakeEnd;
use ix_stack::Item;
use std::collections::VecDeque;

/// Why a turn took no more items.
#[derive(Clone, Copy, Debug, PartialEq, Eq)]
pub enum Stop {
    /// It took a whole batch of frames.
    Full,
    /// The ring gave none.
    Empty,
    /// It took a control item: the end of an epoch or another.
    Control { end: bool },
}

/// Takes frames, up to a batch, or up to a control item, and puts them behind those that came before. Memory for them is taken first.
pub fn take_items(
    items: &mut TakeEnd<Item>,
    came: &mut VecDeque<Item>,
    batch: usize,
) -> Result<(Stop, usize), NoMemory>
    ensures ring { SameTakeEnd items.old items.new }
    ensures took { IfOk result (λ r. Takes batch r.0 r.1 items.old items.new came.old.items came.new.items) }
{
    came.reserve(batch)?;
    for taken in 0..batch {
        let Some(item) = items.take() else {
            return Ok((Stop::Empty, taken));
        };
        let is_frame = item.is_frame();
        let end = item.is_end();
        came.push_back_reserved(item);
        if !is_frame {
            return Ok((Stop::Control { end }, taken));
        }
    }
    Ok((Stop::Full, batch))
}
