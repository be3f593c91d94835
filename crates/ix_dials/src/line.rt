// What is told of a connect.
ghost use Rattle.std.specs.Prelude.{◌≡◌};
ghost use Rattle.ix_dials.specs.Dials.{connect_line};

use ix_base::Ret;
use ix_lines::ConnectLine;

/// What a trace tells of the answer to a connect.
pub fn connect_line(ret: Ret) -> ConnectLine
    ensures { result ≡ connect_line ret }
{
    match ret {
        Ret::NoNeighbour => ConnectLine::NoNeighbour,
        Ret::NoPort => ConnectLine::NoPort,
        Ret::TableFull => ConnectLine::TableFull,
        _ => ConnectLine::Done,
    }
}
