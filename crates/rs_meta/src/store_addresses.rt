//! Where a store's addresses stand among those of the plan.

ghost use Rattle.std.specs.Prelude.{◌≡◌, ◌<◌, ltb, ◌==◌, length, slice_get, Some};
ghost use Rattle.std.specs.List.{count_by};
ghost use Rattle.std.specs.Option.{option_map};
ghost use Rattle.rs_check.specs.Plans.{rows_of};
ghost use Rattle.rs_meta.specs.Addresses.{count_on, first_of};

use rs_check::Plan;

/// Returns the id of the store at the place.
pub fn id_of(plan: &Plan, place: u32) -> u64
    requires { place < length plan.now.stores }
    ensures { option_map (λ store. store.id) (slice_get plan.now.stores place) ≡ Some result }
{
    let stores = plan.input().stores.as_slice();
    stores[place as usize].id
}

/// Returns the first address of the store at the place.
#[tactic(auto, using(crate::proofs::StorePlaces::first_is))]
pub fn first_of(plan: &Plan, place: u32) -> u32
    requires { place < length plan.now.stores }
    ensures { result ≡ first_of plan.now place }
{
    let _input = plan.input();
    count_below(plan, id_of(plan, place))
}

/// Returns how many addresses the store at the place has.
#[tactic(auto, using(crate::proofs::StorePlaces::count_is))]
pub fn count_on(plan: &Plan, place: u32) -> u32
    requires { place < length plan.now.stores }
    ensures { result ≡ count_on plan.now place }
{
    let _input = plan.input();
    count_of(plan, id_of(plan, place))
}

/// Returns how many addresses are of stores below this id.
fn count_below(plan: &Plan, id: u64) -> u32
    ensures { result ≡ count_by (λ row. ltb row.store id) (rows_of plan.now) }
{
    let mut count = 0;
    for address in 0..plan.count() {
        let (store, _) = plan.address(address);
        if store >= id {
            continue;
        }
        count += 1;
    }
    count
}

/// Returns how many addresses are of the store of this id.
fn count_of(plan: &Plan, id: u64) -> u32
    ensures { result ≡ count_by (λ row. row.store == id) (rows_of plan.now) }
{
    let mut count = 0;
    for address in 0..plan.count() {
        let (store, _) = plan.address(address);
        if store != id {
            continue;
        }
        count += 1;
    }
    count
}
