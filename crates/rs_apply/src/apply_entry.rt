//! One entry of a region, applied.

ghost use Rattle.std.specs.Prelude.{◌≡◌, ◌++◌, ◌∷◌, [], None, option_to_list, OnOk, IfOk};
ghost use Rattle.std.specs.List.{All};
ghost use Rattle.rs_region.specs.Verdicts.{verdict};
ghost use Rattle.rs_region.specs.declared.verdict.Verdict.TheVariants as verdicts;
ghost use Rattle.rs_store.specs.Runs.{line_entry, IsFormed};
ghost use Rattle.rs_check.specs.Lawfulness.{PlanLaws};
ghost use Rattle.rs_msg.specs.Held.{IsHeld};
ghost use Rattle.rs_apply.specs.Births.{AddsBirths, made_in};
ghost use Rattle.rs_apply.specs.Merges.{merge_in, merge_results, unheld, IsWithout};
ghost use Rattle.rs_apply.specs.Steps.{IsNext};

use crate::local_entries::{refuse, turn, write};
use crate::merge::merge;
use crate::next::Next;
use crate::split::split;
use rs_entry::Reply;
use rs_key::NoMemory;
use rs_msg::{Closed, Map, Outbox};
use rs_region::{Action, RegionState, Verdict};
use rs_store::is_accept;

/// Applies the entry, and sends what it makes. Where it commits a merge the source must have handed over.
pub fn change<'p>(
    next: Next<'p>,
    why: Verdict,
    state: &mut RegionState,
    map: &mut Map<'p>,
    closed: &mut Vec<Closed<'p>>,
    out: &mut Outbox<'p>,
) -> Result<Option<Reply>, NoMemory>
    requires laws { PlanLaws next.plan.now }
    requires held { IsHeld next.plan.now next.address next.index state.old map.old }
    requires formed { IsFormed (line_entry next.line).body }
    requires why { why ≡ verdict state.old (line_entry next.line) }
    requires plans { All (λ x. x.plan.now ≡ next.plan.now) closed.old.items }
    requires ready { unheld next.plan.now next.address closed.old.items (merge_in why (line_entry next.line).body) ≡ None }
    ensures next { IfOk result (λ r. IsNext next.entry.plan.now next.entry.address next.entry.index state.new map.new (option_to_list r)) }
    ensures plans { OnOk result (All (λ x. x.plan.now ≡ next.entry.plan.now) closed.new.items) }
    ensures closed { OnOk result (IsWithout next.entry.plan.now next.entry.address (merge_in why (line_entry next.entry.line).body) closed.old.items closed.new.items) }
    ensures peers { OnOk result (out.new.peers ≡ out.old.peers ++ merge_results next.entry.plan next.entry.address (merge_in why (line_entry next.entry.line).body)) }
    ensures births { OnOk result (AddsBirths next.entry.plan.now next.entry.address (made_in why state.old (line_entry next.entry.line).body) out.old.applies out.new.applies) }
    ensures stores { OnOk result (out.new.stores ≡ out.old.stores) }
{
    if is_accept(why) {
        let reply = accept(next, state, map, closed, out)?;
        Ok(Some(reply))
    } else {
        refuse(next, state, map, why)
    }
}

fn accept<'p>(
    next: Next<'p>,
    state: &mut RegionState,
    map: &mut Map<'p>,
    closed: &mut Vec<Closed<'p>>,
    out: &mut Outbox<'p>,
) -> Result<Reply, NoMemory>
    requires laws { PlanLaws next.plan.now }
    requires held { IsHeld next.plan.now next.address next.index state.old map.old }
    requires formed { IsFormed (line_entry next.line).body }
    requires accept { verdict state.old (line_entry next.line) ≡ verdicts.Accept }
    requires plans { All (λ x. x.plan.now ≡ next.plan.now) closed.old.items }
    requires ready { unheld next.plan.now next.address closed.old.items (merge_in verdicts.Accept (line_entry next.line).body) ≡ None }
    ensures next { IfOk result (λ r. IsNext next.entry.plan.now next.entry.address next.entry.index state.new map.new (r ∷ [])) }
    ensures plans { OnOk result (All (λ x. x.plan.now ≡ next.entry.plan.now) closed.new.items) }
    ensures closed { OnOk result (IsWithout next.entry.plan.now next.entry.address (merge_in verdicts.Accept (line_entry next.entry.line).body) closed.old.items closed.new.items) }
    ensures peers { OnOk result (out.new.peers ≡ out.old.peers ++ merge_results next.entry.plan next.entry.address (merge_in verdicts.Accept (line_entry next.entry.line).body)) }
    ensures births { OnOk result (AddsBirths next.entry.plan.now next.entry.address (made_in verdicts.Accept state.old (line_entry next.entry.line).body) out.old.applies out.new.applies) }
    ensures stores { OnOk result (out.new.stores ≡ out.old.stores) }
{
    match next.line.action() {
        Action::Nothing => unreachable!(),
        Action::Writes(ops) => write(next, state, map, ops),
        Action::Splits { side, ids, keys } => {
            split(next, state, map, side, ids, keys, &mut out.applies)
        }
        Action::Merges {
            source,
            commit,
            carried,
        } => {
            let peers = &mut out.peers;
            merge(next, state, map, (source, commit), carried, closed, peers)
        }
        Action::Turns(by) => turn(next, state, map, by),
    }
}
