// An echo.

use ix_app::{App, AppEvent, Out};
use ix_base::NoMemory;
use ix_call::Chunk;
use std::alloc::Global;

/// Sends what it is told, without a copy: each told part is handed on as it is. It closes at the peer's end.
#[derive(Clone, Copy, Debug, PartialEq, Eq)]
pub struct Echo;

/// What an echo keeps of a connection: nothing.
#[derive(Clone, Copy, Debug, PartialEq, Eq)]
pub struct EchoConn;

impl App for Echo {
    ghost use Rattle.std.specs.Prelude.{true, refl};
    ghost use Rattle.ix_appdef.specs.Answers.{echo_answer};
    ghost use Rattle.ix_apps.specs.Growth.{echo_grows};

    type Conn = EchoConn;

    ghost ruled = { λ app. Unit {0} };

    ghost answer = { λ app. echo_answer };

    ghost forwards = { λ app. true };

    ghost stands = { λ app conn up told. Unit {0} };

    fn begin(&self, _alloc: Global) -> Result<EchoConn, NoMemory> {
        Ok(EchoConn)
    }

    fn event(
        &self,
        _alloc: Global,
        _conn: &mut EchoConn,
        event: AppEvent,
        out: &mut Out,
    ) -> Result<(), NoMemory> {
        match event {
            AppEvent::Recv(part) => {
                out.done(u32::from(part.len()));
                out.send(Chunk::Part(part))?;
                Ok(())
            }
            AppEvent::PeerEnd => {
                out.close();
                Ok(())
            }
            AppEvent::Up => Ok(()),
            AppEvent::Sent(_) => Ok(()),
            AppEvent::Dead(_) => Ok(()),
        }
    }

    ghost grows = { λ app r. echo_grows };

    ghost first = { λ app r. refl };
}
