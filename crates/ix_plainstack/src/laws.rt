// Laws on what stacks own.
ghost use Rattle.ix_plainstack.specs.Out.{AllTold, OutShrinks};
ghost use Rattle.ix_plainstack.specs.Standing.{StandsOn, OwnersAreRight, StandsFirst, ConnectsStand, StepsStand, DrainsStand};

use ix_appdef::answers_grow;
use ix_groupdef::groups_are_sound;
use ix_tcpdef::runs_begin_and_end;

/// Nothing happens here: the contract says that a stack owns what is out, in the definitions' words, where nothing is answered before
/// anything was told.
///
/// Between cycles the parts of every connection that lives were told. What is out after one more cycle was out before or is of that
/// cycle's frames, and nothing is out twice. So, where wire numbers rise, a group with buffers that stands for a cutting stands for it with
/// more cycles behind it: it owns the buffers of the frames that are held out of order, that the application has, and that are queued, each
/// once, and no other. Then its numbers are those of the definitions, for each home.
pub fn groups_own_what_is_out()
    ensures told { AllTold }
    ensures shrinks { OutShrinks }
    ensures stands { StandsOn }
    ensures owners { OwnersAreRight }
{
    groups_are_sound();
    runs_begin_and_end();
}

/// Nothing happens here: the contract says what the calls of a stack make of the connects and the cutting that it stands for. A new one
/// stands for none. A connect before all cycles, to a flow of this machine's address, is one connect more. A step is the cycles of its
/// items: for each cutting that the stack stands for before it, it stands for that cutting with these behind it. Handing out buffers
/// changes nothing.
pub fn stacks_stand()
    ensures first { StandsFirst }
    ensures connects { ConnectsStand }
    ensures steps { StepsStand }
    ensures drains { DrainsStand }
{
    groups_own_what_is_out();
    answers_grow();
}
