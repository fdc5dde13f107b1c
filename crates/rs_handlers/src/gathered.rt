ghost use Rattle.std.specs.Prelude.{◌≡◌, ◌<◌, ◌↔◌, Some, None, All, IfOk, IsTrue, length, slice_get, slice_set};
ghost use Rattle.std.specs.Option.{option_map};
ghost use Rattle.rs_history.specs.Outcomes.{outcome_of, store_outcome};
ghost use Rattle.rs_handlers.specs.Stores.{AreOutcomes, AreThere};

use rs_check::Plan;
use rs_entry::{Outcome, StoreOutcome};
use rs_key::{NoMemory, Rows};
use std::alloc::Global;

/// The outcomes of stores that are there, by the stores' places in the plan.
#[derive(Drop)]
pub struct Gathered<'p> {
    plan: &'p Plan,
    outcomes: Vec<Option<StoreOutcome>>,
    ghost sized: { length outcomes.items ≡ length plan.now.stores },
    ghost right: { AreOutcomes plan.now outcomes.items },
}

impl<'p> Gathered<'p> {
    /// Returns the outcomes of the plan, of which none has come.
    pub fn new(alloc: Global, plan: &'p Plan) -> Result<Gathered<'p>, NoMemory>
        ensures plan { IfOk result (λ g. g.plan ≡ plan.entry) }
        ensures none { IfOk result (λ g. All (λ outcome. outcome ≡ None) g.outcomes.items) }
    {
        let mut outcomes = Vec::new(alloc);
        for place in 0..plan.input().stores.len() {
            outcomes.push(None)?;
        }
        Ok(Gathered { plan, outcomes })
    }

    /// Records the outcome of the store at the place. The others stay as they were.
    pub fn put(&mut self, place: u32, outcome: StoreOutcome)
        requires place { place < length self.old.plan.now.stores }
        requires outcome { option_map store_outcome (slice_get self.old.plan.now.stores place) ≡ Some outcome }
        ensures plan { self.new.plan ≡ self.old.plan }
        ensures outcomes { self.new.outcomes.items ≡ slice_set self.old.outcomes.items place (Some outcome) }
    {
        self.outcomes[place as usize] = Some(outcome);
    }

    /// Returns whether the outcome of each store has come.
    pub fn is_whole(&self) -> bool
        ensures { IsTrue result ↔ AreThere self.now.outcomes.items }
    {
        self.outcomes.iter().all(|outcome| outcome.is_some())
    }

    /// Returns the outcome of the plan.
    pub fn into_outcome(self, alloc: Global) -> Result<Outcome, NoMemory>
        requires { AreThere self.outcomes.items }
        ensures { IfOk result (λ outcome. outcome ≡ outcome_of self.entry.plan.now) }
    {
        let mut stores = Rows::new(alloc);
        for outcome in self.outcomes {
            stores.push(outcome.unwrap())?;
        }
        Ok(Outcome { stores })
    }
}
