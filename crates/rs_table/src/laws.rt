ghost use Rattle.std.specs.Prelude.{◌<◌, ◌^◌};
ghost use Rattle.rs_table.specs.Covers.{TableLaws};
ghost use Rattle.rs_table.specs.Cuts.{Cut, IsCut, size_of};
ghost use Rattle.rs_table.specs.Moves.{Moves};

use rs_check::Plan;

/// States what holds of the tables of all cuts of the store at the place. It does nothing: its contract tells it.
pub fn table_laws(plan: &Plan, place: u32)
    ensures { TableLaws plan.now place }
{
    let _ = plan.input();
}

/// What a cut and its table come to by one reshaping more. It does nothing: its contract tells it.
pub(crate) fn moves(plan: &Plan, place: u32)
    ensures { Moves plan.now place }
{
    let _ = plan.input();
}

/// How many reshapings a cut covers at most. It does nothing: its contract tells it.
pub(crate) fn sizes(plan: &Plan, place: u32)
    ensures { (n : Cut) → IsCut plan.now place n → size_of plan.now n < 2 ^ 60 }
{
    let _ = plan.input();
    let _ = (plan.count(), place);
}
