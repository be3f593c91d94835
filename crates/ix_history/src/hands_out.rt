// Units that are lent between their steps.
use ix_base::NoMemory;
use ix_desk::Unit;

/// A unit that hands things out between its steps, as a flow group hands out the buffers that it does not need any more.
pub trait HandsOut: Unit {
    ghost use Rattle.std.specs.Prelude.{◌≡◌, IfOk};

    /// What it hands out.
    type Out;

    /// `lends x out y`: the unit `x` may hand out `out` and become `y`.
    ghost lends: { Self → Self.Out → Self → Type 0 };

    /// Hands out what there is. Where it finds no memory, what the unit has then done is left open.
    fn hand_out(&mut self) -> Result<Self::Out, NoMemory>
        ensures { IfOk result (λ out. lends self.old out self.new) };

    /// What is handed out changes nothing of what was stepped.
    ghost lends_steps: { (x : Self) (out : Self.Out) (y : Self) → lends x out y → Self.stepped y ≡ Self.stepped x };
}
