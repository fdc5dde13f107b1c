ghost use Rattle.std.specs.Prelude.{◌≡◌, ◌+◌, ◌<◌, ◌≤◌, IfOk, length, Some, get_or, None, IsTrue};
ghost use Rattle.std.specs.Option.{option_map};
ghost use Rattle.rs_store.specs.Runs.{line_entry};
ghost use Rattle.rs_check.specs.Values.{count_of, reshaped_by};
ghost use Rattle.rs_check.specs.Plans.{reshapings_of};
ghost use Rattle.rs_table.specs.Cuts.{birth_of, entry_of_nth, is_on, merge_by, prepare_of};
ghost use Rattle.rs_table.specs.Tellings.{needs_below, needs_of, needs_on, prepares_of};

use rs_check::{Line, Maker, Plan};
use rs_entry::{Body, CarriedBody};
use rs_key::{NoMemory, Rows};
use std::alloc::Global;

/// The reshapings that must be covered before those of an address: each an address and a number, counted from 1.
#[derive(Drop)]
pub struct Needs {
    /// The split that made its region.
    pub birth: Option<(u32, u64)>,
    /// For each of its reshapings that is a commit, the source's prepare.
    pub prepares: Rows<Option<(u32, u64)>>,
}

/// Returns whether the address is one of the store at the place.
#[tactic(auto, using(crate::proofs::Counts::on_by, crate::proofs::Counts::on_none))]
pub fn is_on(plan: &Plan, place: u32, a: u32) -> bool
    ensures on { result ≡ is_on plan.now place a }
    ensures below { IsTrue result → a < count_of plan.now }
{
    match plan.input().stores.get(place as usize) {
        None => false,
        Some(store) => a < plan.count() && plan.address(a).0 == store.id,
    }
}

/// How many of the address's reshapings have an index of at most this, by a search: their indexes rise.
#[tactic(auto, using(crate::proofs::PlanReshapings::few_by))]
fn number_at(plan: &Plan, a: u32, index: u64) -> u64
    requires { a < count_of plan.now }
    ensures { result ≡ reshaped_by plan.now a index }
{
    let _ = plan.input();
    let mut low = 0;
    let mut high = plan.reshapings(a);
    'search: while low < high {
        let middle = low + (high - low) / 2;
        if plan.reshaping(a, middle + 1) <= index {
            low = middle + 1;
        } else {
            high = middle;
        }
    }
    low
}

#[tactic(auto, unfolding(crate::specs::Cuts::birth_of))]
fn birth_of(plan: &Plan, a: u32) -> Option<(u32, u64)>
    requires { a < count_of plan.now }
    ensures { result ≡ birth_of plan.now a }
{
    match plan.maker(a) {
        Maker::Boot => None,
        Maker::Split { parent, index } => Some((parent, number_at(plan, parent, index))),
    }
}

/// Returns the entry of the address's nth reshaping.
#[tactic(auto, using(crate::proofs::PlanReshapings::nth_past, crate::proofs::PlanReshapings::nth_index))]
pub fn entry_of_nth(plan: &Plan, a: u32, nth: u64) -> Option<Line<'_>>
    requires address { a < count_of plan.now }
    requires from { 1 ≤ nth }
    requires to { nth ≤ length (reshapings_of plan.now a) }
    ensures { option_map line_entry result ≡ entry_of_nth plan.now a nth }
{
    let _ = plan.input();
    plan.entry(a, plan.reshaping(a, nth))
}

/// Returns the source and the index of its prepare, where the entry is a commit.
fn merge_by(line: Option<Line<'_>>) -> Option<(u64, u64)>
    ensures { result ≡ merge_by (option_map line_entry line.entry) }
{
    match line {
        None => None,
        Some(Line::Carried(carried)) => match &carried.body {
            CarriedBody::Empty | CarriedBody::Write(_) | CarriedBody::Prepare { .. } => None,
        },
        Some(Line::Own(entry)) => match &entry.body {
            Body::Commit { source, commit, .. } => Some((*source, *commit)),
            _ => None,
        },
    }
}

/// Returns the source's prepare, where the address's nth reshaping is a commit.
#[tactic(auto, unfolding(crate::specs::Cuts::prepare_of))]
fn prepare_of(plan: &Plan, a: u32, nth: u64) -> Option<(u32, u64)>
    requires address { a < count_of plan.now }
    requires from { 1 ≤ nth }
    requires to { nth ≤ length (reshapings_of plan.now a) }
    ensures { result ≡ prepare_of plan.now a nth }
{
    let (source, commit) = merge_by(entry_of_nth(plan, a, nth))?;
    let (store, _) = plan.address(a);
    let b = plan.find(store, source)?;
    Some((b, number_at(plan, b, commit)))
}

fn needs_of(alloc: Global, plan: &Plan, a: u32) -> Result<Needs, NoMemory>
    requires { a < count_of plan.now }
    ensures { IfOk result (λ needs. needs ≡ needs_of plan.now a) }
{
    let mut prepares = Rows::new(alloc);
    for done in 0..plan.reshapings(a) {
        prepares.push(prepare_of(plan, a, done + 1))?;
    }
    Ok(Needs {
        birth: birth_of(plan, a),
        prepares,
    })
}

fn needs_on(alloc: Global, plan: &Plan, place: u32, a: u32) -> Result<Needs, NoMemory>
    requires { a < count_of plan.now }
    ensures { IfOk result (λ needs. needs ≡ needs_on plan.now place a) }
{
    if is_on(plan, place, a) {
        return needs_of(alloc, plan, a);
    }
    Ok(Needs {
        birth: None,
        prepares: Rows::new(alloc),
    })
}

/// Returns the needs of each address.
pub fn all_needs(alloc: Global, plan: &Plan, place: u32) -> Result<Vec<Needs>, NoMemory>
    ensures { IfOk result (λ needs. needs.items ≡ needs_below plan.now place (count_of plan.now)) }
{
    let mut all = Vec::new(alloc);
    for a in 0..plan.count() {
        all.push(needs_on(alloc, plan, place, a)?)?;
    }
    Ok(all)
}
