// Initial sequence numbers by flow.
ghost use Rattle.std.specs.Prelude.{◌≡◌, None, Some, OnOk, IfOk, if◌then◌else◌};
ghost use Rattle.std.specs.Option.{option_or};

use ix_base::{Flow, NoMemory};
use std::alloc::Global;
use std::collections::BTreeMap;
use std::marker::Model;

/// A number for each of some flows, found by an ordered map. It is seen as the entries of the map.
#[derive(Drop)]
pub struct FlowNumbers {
    numbers: BTreeMap<Flow, u32>,
}

impl Model for FlowNumbers {
    ghost use Rattle.std.specs.Prelude.{ℕ, List};
    ghost use Rattle.ix_base.specs.declared.id.Flow.{Flow as AFlow};

    ghost Value = { List (AFlow × ℕ) };

    ghost view = { λ f. f.numbers.entries };
}

impl FlowNumbers {
    ghost use Rattle.ix_base.specs.declared.id.Flow.{Flow as AFlow};
    ghost use Rattle.ix_groupdef.specs.Flow.{same_flow};
    ghost use Rattle.ix_groupdef.specs.Setting.{isn_of, number_in};

    fn new(alloc: Global) -> FlowNumbers
        ensures { (q : AFlow) → number_in result q ≡ None }
    {
        FlowNumbers {
            numbers: BTreeMap::new(alloc),
        }
    }

    /// The numbers of these pairs; the first pair of a flow counts.
    #[tactic(auto, using(crate::proofs::NumberLaws::for_pairs))]
    pub fn of(alloc: Global, pairs: &[(Flow, u32)]) -> Result<FlowNumbers, NoMemory>
        ensures { IfOk result (λ n. (q : AFlow) → number_in n q ≡ isn_of q pairs.now) }
    {
        let mut numbers = FlowNumbers::new(alloc);
        for pair in pairs {
            numbers.keep(pair.0, pair.1)?;
        }
        Ok(numbers)
    }

    /// The number of a flow, where it has one.
    pub fn get(&self, flow: &Flow) -> Option<u32>
        ensures { result ≡ number_in self.now flow.now }
    {
        self.numbers.get(flow).copied()
    }

    // Gives a flow this number, if it has none.
    fn keep(&mut self, flow: Flow, number: u32) -> Result<(), NoMemory>
        ensures { OnOk result ((q : AFlow) → number_in self.new q ≡ option_or (number_in self.old q) (if same_flow q flow then Some number else None)) }
    {
        if self.get(&flow).is_some() {
            return Ok(());
        }
        self.numbers.insert(flow, number)?;
        Ok(())
    }
}
