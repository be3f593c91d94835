// The places that the lines of a report tell.
ghost use Rattle.std.specs.Prelude.{◌≡◌, ℕ, IfOk, OnOk, Option, None, Some, length, map};
ghost use Rattle.std.specs.Option.{option_or};
ghost use Rattle.ix_playdef.specs.declared.order.Reply.{Reply as AReply};
ghost use Rattle.ix_places.specs.Told.{key_with, number_in, number_of_one, places_by, told_number, turn_of};
ghost use Rattle.ix_places.specs.declared.turn.Turn.{Turn as ATurn};

use crate::turn::Turn;
use ix_base::NoMemory;
use ix_playdef::{Phase, Reply, ReplyKey};
use std::alloc::Global;
use std::collections::BTreeMap;
use std::marker::Model;

/// The number of the first reply in each turn, as far as replies were seen.
#[derive(Drop)]
struct FirstNumbers {
    numbers: BTreeMap<Turn, u32>,
}

impl Model for FirstNumbers {
    ghost use Rattle.std.specs.Prelude.{ℕ, List};
    ghost use Rattle.ix_places.specs.declared.turn.Turn.{Turn as ATurn};

    ghost Value = { List (ATurn × ℕ) };

    ghost view = { λ f. f.numbers.entries };
}

impl FirstNumbers {
    fn new(alloc: Global) -> FirstNumbers
        ensures { (turn : ATurn) → number_in result turn ≡ None }
    {
        FirstNumbers {
            numbers: BTreeMap::new(alloc),
        }
    }

    fn get(&self, turn: &Turn) -> Option<u32>
        ensures { result ≡ number_in self.now turn.now }
    {
        self.numbers.get(turn).copied()
    }

    // The number of the first reply in a turn, where a reply with this number is given in it.
    fn first(&mut self, turn: Turn, number: u32) -> Result<u32, NoMemory>
        ensures first { IfOk result (λ first. Some first ≡ option_or (number_in self.old turn) (Some number)) }
        ensures kept { OnOk result ((other : ATurn) → number_in self.new other ≡ option_or (number_in self.old other) (number_of_one turn number other)) }
    {
        if let Some(known) = self.get(&turn) {
            return Ok(known);
        }
        self.numbers.insert(turn, number)?;
        Ok(number)
    }
}

fn turn_of(key: &ReplyKey) -> Turn
    ensures { result ≡ turn_of key.now }
{
    Turn {
        entry: key.entry,
        group: key.group,
        phase: key.phase,
        opening: key.opening,
    }
}

// The key of a reply, where the first reply in its turn has this number.
fn told_key(key: &ReplyKey, first: u32) -> ReplyKey
    ensures { (number : ATurn → Option ℕ) (end : ℕ) → number (turn_of key.now) ≡ Some first → result ≡ key_with (places_by number end) key.now }
{
    let place = match key.phase {
        Phase::Connect | Phase::Taken => key.opening,
        Phase::Timer | Phase::Flush => first as usize,
    };
    ReplyKey { place, ..*key }
}

/// The keys of replies that have these numbers, with the places of their connections that the numbers tell.
#[tactic(auto, using(crate::proofs::KeyLaws::for_keys))]
pub fn told_keys(
    alloc: Global,
    replies: &[Reply],
    numbers: &[u32],
) -> Result<Vec<ReplyKey>, NoMemory>
    requires { length replies.now ≡ length numbers.now }
    ensures { IfOk result (λ keys. (end : ℕ) → keys.items ≡ map (λ (x : AReply). key_with (places_by (told_number numbers.now replies.now) end) x.key) replies.now) }
{
    let mut firsts = FirstNumbers::new(alloc);
    let mut keys = Vec::with_capacity(alloc, replies.len())?;
    for (i, reply) in replies.iter().enumerate() {
        let first = firsts.first(turn_of(&reply.key), numbers[i])?;
        keys.push(told_key(&reply.key, first))?;
    }
    Ok(keys)
}
