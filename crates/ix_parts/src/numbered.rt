// Parts that came, with the wire numbers of their segments.
ghost use Rattle.std.specs.Prelude.{◌≡◌, ◌≤◌, ◌+◌, ◌++◌, [], ℕ, length, map, reverse, vec_len, vec_capacity};
ghost use Rattle.ix_mbuf.specs.declared.name.Name.{Name};
ghost use Rattle.ix_mbuf.specs.Owners.{one_at};
ghost use Rattle.ix_mbuf.specs.Buffers.{buffers_weight};
ghost use Rattle.ix_call.specs.Events.{events_weight};
ghost use Rattle.ix_parts.specs.Numbered.{numbered_weight, numbered_buffers, told_as};

use ix_base::{CoreId, WireNo};
use ix_call::Event;
use ix_mbuf::{Mbuf, Part};

/// A part of the frame in which bytes of a peer came, and the wire number of that frame.
#[derive(Drop)]
pub struct Numbered {
    pub w: WireNo,
    pub part: Part,
}

/// Lets parts go, the last one first: their buffers go to the end of `freed`. It takes no memory, and leaves the room for parts.
pub fn release_all(parts: &mut Vec<Numbered>, freed: &mut Vec<Mbuf>)
    requires { vec_len freed.old + vec_len parts.old ≤ vec_capacity freed.old }
    ensures parts { parts.new.items ≡ [] }
    ensures freed { freed.new.items ≡ freed.old.items ++ reverse (numbered_buffers parts.old.items) }
    ensures weight { (f : Name → ℕ) → buffers_weight f freed.new.items ≡ buffers_weight f freed.old.items + numbered_weight f parts.old.items }
    ensures room { vec_capacity parts.new ≡ vec_capacity parts.old }
    ensures capacity { vec_capacity freed.new ≡ vec_capacity freed.old }
{
    while let Some(last) = parts.pop() {
        freed.push_reserved(last.part.into_mbuf());
    }
}

/// Tells the application that has this cookie of parts, in order: each event hands on the part itself, and nothing is copied. It takes no
/// memory.
pub fn tell_all(parts: Vec<Numbered>, cookie: u64, events: &mut Vec<Event>)
    requires { vec_len events.old + vec_len parts ≤ vec_capacity events.old }
    ensures events { events.new.items ≡ events.old.items ++ map (told_as cookie) parts.items }
    ensures weight { (f : Name → ℕ) → events_weight f events.new.items ≡ events_weight f events.old.items + numbered_weight f parts.items }
    ensures capacity { vec_capacity events.new ≡ vec_capacity events.old }
{
    for numbered in parts {
        events.push_reserved(Event::Recv {
            cookie,
            part: Some(numbered.part),
        });
    }
}

/// How many of these parts have a buffer of this home.
pub fn count_at(parts: &[Numbered], home: CoreId) -> usize
    ensures count { result ≡ numbered_weight (one_at home.0) parts.now }
    ensures few { result ≤ length parts.now }
{
    parts.iter().filter(|p| p.part.id().home == home).count()
}
