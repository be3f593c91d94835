// What all groups of a play read.
ghost use Rattle.std.specs.Prelude.{◌≡◌};
ghost use Rattle.ix_tcpdef.specs.Sound.{IsInRange};

use ix_appdef::Application;
use ix_groupdef::Env;
use std::marker::Model;

/// What the connections of a play obey and its application is, with the numbers of its configuration in their ranges. Contracts see it as
/// the environment that it keeps.
#[derive(Drop)]
pub struct StackEnv {
    env: Env<Application>,
}

impl Model for StackEnv {
    ghost use Rattle.ix_appdef.specs.declared.application.Application.{Application as AnApplication};
    ghost use Rattle.ix_groupdef.specs.declared.env.Env.{Env as AnEnv};
    ghost use Rattle.ix_tcpdef.specs.Sound.{IsInRange};

    ghost Value = { AnEnv AnApplication };

    ghost view = { λ e. e.env };

    ghost invariant = { λ e. IsInRange e.env.cfg };
}

impl StackEnv {
    /// This environment.
    pub fn new(env: Env<Application>) -> StackEnv
        requires { IsInRange env.cfg }
        ensures { result ≡ env }
    {
        StackEnv { env }
    }

    /// The environment.
    pub fn get(&self) -> &Env<Application>
        ensures same { result.now ≡ self.now }
        ensures range { IsInRange result.now.cfg }
    {
        &self.env
    }
}
