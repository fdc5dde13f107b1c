ghost use Rattle.std.specs.Prelude.{◌≡◌, ◌==◌, option_copied};
ghost use Rattle.std.specs.List.{find};

use crate::tests::{TWO_STORES, TWO_STORES_BODY};
use rs_check::{Plan, check};
use rs_entry::{Outcome, Store};
use rs_fold::{FoldError, fold_in};
use rs_key::Rows;
use rs_text::{read_logs, write_outcome};
use std::alloc::Global;
use std::test::Fail;

fn plan_of(alloc: Global, text: &str) -> Result<Plan, Fail> {
    let input = read_logs(alloc, text.as_bytes())?;
    match check(input) {
        Ok(plan) => Ok(plan),
        Err(_) => Err(Fail::new("the logs are not lawful")),
    }
}

fn store_named(plan: &Plan, id: u64) -> Option<&Store>
    ensures { option_copied result ≡ find (λ s. s.id == id) plan.now.stores }
{
    plan.input().stores.as_slice().iter().find(|s| s.id == id)
}

#[test]
fn a_store_is_folded_by_another_order(rt: HostRuntime) -> Result<(), Fail> {
    let alloc = rt.alloc();
    let plan = plan_of(alloc, TWO_STORES)?;
    let Some(_) = store_named(&plan, 1) else {
        return Err(Fail::new("no such store"));
    };
    let outcome = fold_in(alloc, &plan, 1, &[1, 1, 1, 1, 2, 2, 2, 2, 1, 1, 1, 1])?;
    let mut stores = Rows::new(alloc);
    stores.push(outcome)?;
    let text = write_outcome(alloc, &Outcome { stores })?;
    let canonical = format!(in alloc; "store 1\n{TWO_STORES_BODY}")?;
    assert_eq!(rt; text.as_slice(), canonical.as_bytes());
    let early = fold_in(alloc, &plan, 1, &[2]).err();
    assert_eq!(rt; early, Some(FoldError::NotReady(1)));
    let short = fold_in(alloc, &plan, 1, &[]).err();
    assert_eq!(rt; short, Some(FoldError::Unfinished(1)));
    Ok(())
}
