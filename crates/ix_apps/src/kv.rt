// A key-value store by lines.
ghost use Rattle.std.specs.Prelude.{◌≡◌, ◌++◌, ℕ, List as Sequence, [], OnOk, IfOk};
ghost use Rattle.ix_apps.specs.Sessions.{Continues, grown_by};
ghost use Rattle.ix_appdef.specs.KeyValue.{answers_with};

use ix_app::{App, AppEvent, Out};
use ix_appdef::Session;
use ix_base::{Bytes, List, NoMemory};
use ix_call::Chunk;
use std::alloc::Global;
use std::mem;

/// Answers the lines of a key-value protocol, from a store of each connection's own. It releases what it is told, and closes at the peer's
/// end.
#[derive(Clone, Copy, Debug, PartialEq, Eq)]
pub struct Kv;

/// What it keeps of a connection: its store, and the bytes since the last line feed.
#[derive(Debug, Drop)]
pub struct KvConn {
    session: Session,
}

// Takes bytes, in order.
#[tactic(auto, using(crate::proofs::SessionLaws::for_bytes))]
fn take_all(alloc: Global, session: &mut Session, bytes: &[u8]) -> Result<(), NoMemory>
    ensures { (rest : Sequence ℕ) → OnOk result (answers_with session.new rest ≡ answers_with session.old (bytes.now ++ rest)) }
{
    for b in bytes {
        session.take(alloc, *b)?;
    }
    Ok(())
}

// The answers to more bytes, which a session then keeps no longer.
fn answers_to(alloc: Global, session: &mut Session, bytes: &[u8]) -> Result<Bytes, NoMemory>
    ensures continues { (told : Sequence ℕ) → Continues session.old told → OnOk result (Continues session.new (told ++ bytes.now)) }
    ensures answers { (told : Sequence ℕ) → Continues session.old told → IfOk result (λ answer. answer ≡ grown_by told bytes.now) }
{
    take_all(alloc, session, bytes)?;
    Ok(mem::replace(&mut session.answer, Bytes::new(alloc)))
}

impl App for Kv {
    ghost use Rattle.std.specs.Prelude.{false};
    ghost use Rattle.ix_appdef.specs.Answers.{kv_answer};
    ghost use Rattle.ix_apps.specs.Growth.{kv_grows, kv_first};

    type Conn = KvConn;

    ghost ruled = { λ app. Unit {0} };

    ghost answer = { λ app. kv_answer };

    ghost forwards = { λ app. false };

    ghost stands = { λ app conn up told. Continues conn.session told };

    fn begin(&self, alloc: Global) -> Result<KvConn, NoMemory> {
        let session = Session {
            store: List::new(alloc),
            line: Bytes::new(alloc),
            answer: Bytes::new(alloc),
        };
        Ok(KvConn { session })
    }

    fn event(
        &self,
        alloc: Global,
        conn: &mut KvConn,
        event: AppEvent,
        out: &mut Out,
    ) -> Result<(), NoMemory> {
        match event {
            AppEvent::Recv(part) => {
                let answer = answers_to(alloc, &mut conn.session, part.bytes())?;
                out.done(u32::from(part.len()));
                out.send(Chunk::Own(answer))?;
                out.release(part)?;
                Ok(())
            }
            AppEvent::PeerEnd => {
                out.close();
                Ok(())
            }
            AppEvent::Up => Ok(()),
            AppEvent::Sent(_) => Ok(()),
            AppEvent::Dead(_) => Ok(()),
        }
    }

    ghost grows = { λ app r. kv_grows };

    ghost first = { λ app r. kv_first };
}
