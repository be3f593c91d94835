// Which frames' buffers the connections of a group own between cycles, by their wire numbers.
ghost use Rattle.std.specs.Prelude.{◌≡◌, ◌+◌, ◌++◌, ◌∷◌, [], length, map, if◌then◌else◌, IfOk, OnOk};
ghost use Rattle.ix_tcpdef.specs.Delivered.{told_pieces};
ghost use Rattle.ix_tcpdef.specs.declared.types.HeldSegment.{HeldSegment as AHeldSegment};
ghost use Rattle.ix_groupdef.specs.Owners.{ended_from, is_with_app, is_queued};
ghost use Rattle.ix_plainstack.specs.Numbers.{numbers_where, held_by, parts_by, held_numbers, app_numbers, queue_numbers};

use ix_base::{NoMemory, WireNo};
use ix_groupdef::PlainLife;
use ix_tcpdef::{Connection, HeldSegment, Piece};
use std::alloc::Global;

// The parts that an application was told of, in their order.
fn told_pieces(connection: &Connection) -> &[Piece]
    ensures { result.now ≡ told_pieces connection.now }
{
    if connection.accepted {
        connection.pieces.as_slice()
    } else {
        &[]
    }
}

// Whether the application still has a part that ends here: a byte of it was not taken to be sent.
fn is_with_app(connection: &Connection, end: u64) -> bool
    ensures { result ≡ is_with_app connection.now end }
{
    (connection.sent.len() as u64) < end
}

// Whether a part that ends here is queued: it was taken to be sent, and a byte of it is not acknowledged.
fn is_queued(connection: &Connection, end: u64) -> bool
    ensures { result ≡ is_queued connection.now end }
{
    end <= connection.sent.len() as u64 && connection.una.saturating_sub(1) < end
}

// Puts a number behind others, where it is wanted.
fn push_if(wanted: bool, w: WireNo, numbers: &mut Vec<WireNo>) -> Result<(), NoMemory>
    ensures { OnOk result (numbers.new.items ≡ numbers.old.items ++ (if wanted then w ∷ [] else [])) }
{
    if wanted {
        numbers.push(w)?;
    }
    Ok(())
}

// The place behind a part, in bytes told. More bytes than a u64 counts fit in no memory.
fn end_of(told: u64, piece: &Piece) -> Result<u64, NoMemory>
    ensures { IfOk result (λ end. end ≡ told + length piece.now.bytes) }
{
    match told.checked_add(piece.bytes.len() as u64) {
        Some(end) => Ok(end),
        None => Err(NoMemory),
    }
}

// Puts the numbers of those parts that the application has behind others, and those of the queued ones.
#[tactic(auto, using(crate::proofs::NumberSteps::for_parts))]
fn note_parts(
    connection: &Connection,
    pieces: &[Piece],
    app: &mut Vec<WireNo>,
    queue: &mut Vec<WireNo>,
) -> Result<(), NoMemory>
    ensures app { OnOk result (app.new.items ≡ app.old.items ++ numbers_where (is_with_app connection.now) (ended_from 0 pieces.now)) }
    ensures queue { OnOk result (queue.new.items ≡ queue.old.items ++ numbers_where (is_queued connection.now) (ended_from 0 pieces.now)) }
{
    let mut told = 0;
    for piece in pieces {
        let end = end_of(told, piece)?;
        push_if(is_with_app(connection, end), piece.w, app)?;
        push_if(is_queued(connection, end), piece.w, queue)?;
        told = end;
    }
    Ok(())
}

// Puts the numbers of held segments behind others.
#[tactic(auto, using(crate::proofs::NumberSteps::for_held))]
fn note_segments(segments: &[HeldSegment], held: &mut Vec<WireNo>) -> Result<(), NoMemory>
    ensures { OnOk result (held.new.items ≡ held.old.items ++ map (λ (h : AHeldSegment). h.w) segments.now) }
{
    for segment in segments {
        held.push(segment.w)?;
    }
    Ok(())
}

// Puts the numbers of the held segments of a connection behind others.
fn note_held(life: &PlainLife, held: &mut Vec<WireNo>) -> Result<(), NoMemory>
    ensures { OnOk result (held.new.items ≡ held.old.items ++ held_by life.now) }
{
    note_segments(life.world.connection().held.as_slice(), held)
}

// Puts the numbers of the told parts of a connection behind others, where parts are sent whole and it lives.
fn note_told(
    whole: bool,
    life: &PlainLife,
    app: &mut Vec<WireNo>,
    queue: &mut Vec<WireNo>,
) -> Result<(), NoMemory>
    ensures app { OnOk result (app.new.items ≡ app.old.items ++ parts_by is_with_app whole life.now) }
    ensures queue { OnOk result (queue.new.items ≡ queue.old.items ++ parts_by is_queued whole life.now) }
{
    if !(whole && life.lives()) {
        return Ok(());
    }
    let connection = life.world.connection();
    note_parts(connection, told_pieces(connection), app, queue)
}

/// The wire numbers of the frames whose buffers a group owns: of segments held out of order, of parts that the application has, and of
/// parts that are queued.
#[derive(Drop)]
pub struct Numbers {
    pub held: Vec<WireNo>,
    pub app: Vec<WireNo>,
    pub queue: Vec<WireNo>,
}

impl Numbers {
    /// Those of these connections. `whole`: whether the application sends told parts whole.
    #[tactic(auto, using(crate::proofs::NumberSteps::for_lives))]
    pub fn of(alloc: Global, whole: bool, lives: &[PlainLife]) -> Result<Numbers, NoMemory>
        ensures held { IfOk result (λ numbers. numbers.held.items ≡ held_numbers lives.now) }
        ensures app { IfOk result (λ numbers. numbers.app.items ≡ app_numbers whole lives.now) }
        ensures queue { IfOk result (λ numbers. numbers.queue.items ≡ queue_numbers whole lives.now) }
    {
        let mut held = Vec::new(alloc);
        let mut app = Vec::new(alloc);
        let mut queue = Vec::new(alloc);
        for life in lives {
            note_held(life, &mut held)?;
            note_told(whole, life, &mut app, &mut queue)?;
        }
        Ok(Numbers { held, app, queue })
    }
}
