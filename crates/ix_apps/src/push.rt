// One that pushes a text.

use ix_app::{App, AppEvent, Out};
use ix_base::{Bytes, NoMemory};
use ix_call::Chunk;
use std::alloc::Global;

/// Writes a text once its connection is up. It releases what it is told, and closes at the peer's end.
#[derive(Debug, Drop)]
pub struct Push {
    text: Bytes,
}

/// What it keeps of a connection: whether the text was written.
#[derive(Clone, Copy, Debug, PartialEq, Eq)]
pub struct PushConn {
    up: bool,
}

impl Push {
    ghost use Rattle.std.specs.Prelude.{◌≡◌};

    /// Pushes this text.
    pub fn new(text: Bytes) -> Push
        ensures { result.text ≡ text }
    {
        Push { text }
    }
}

impl App for Push {
    ghost use Rattle.std.specs.Prelude.{◌≡◌, false, refl};
    ghost use Rattle.ix_appdef.specs.Answers.{push_answer};
    ghost use Rattle.ix_apps.specs.Growth.{push_grows};

    type Conn = PushConn;

    ghost ruled = { λ app. Unit {0} };

    ghost answer = { λ app. push_answer app.text };

    ghost forwards = { λ app. false };

    ghost stands = { λ app conn up told. conn.up ≡ up };

    fn begin(&self, _alloc: Global) -> Result<PushConn, NoMemory> {
        Ok(PushConn { up: false })
    }

    fn event(
        &self,
        alloc: Global,
        conn: &mut PushConn,
        event: AppEvent,
        out: &mut Out,
    ) -> Result<(), NoMemory> {
        match event {
            AppEvent::Up => {
                if conn.up {
                    return Ok(());
                }
                conn.up = true;
                let text = self.text.try_clone(alloc)?;
                out.send(Chunk::Own(text))?;
                Ok(())
            }
            AppEvent::Recv(part) => {
                out.done(u32::from(part.len()));
                out.release(part)?;
                Ok(())
            }
            AppEvent::PeerEnd => {
                out.close();
                Ok(())
            }
            AppEvent::Sent(_) => Ok(()),
            AppEvent::Dead(_) => Ok(()),
        }
    }

    ghost grows = { λ app r. push_grows app.text };

    ghost first = { λ app r. refl };
}
