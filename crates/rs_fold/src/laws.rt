ghost use Rattle.std.specs.Prelude.{◌≡◌, None};
ghost use Rattle.rs_entry.specs.declared.input.Store.{Store};
ghost use Rattle.rs_entry.specs.WellFormed.{WellFormed};
ghost use Rattle.rs_part.specs.Counting.{IsAmong};
ghost use Rattle.rs_check.specs.Laws.{differ_law, overlap_law, reused_law};
ghost use Rattle.rs_fold.specs.Laws.{HistoryLaws, OrderLaws, Rests};

use rs_check::Plan;
use rs_entry::Input;

/// What holds of all orders in which a store of the plan may take its entries. It does nothing: its contract tells it.
pub fn order_laws(plan: &Plan)
    ensures { (store : Store) → IsAmong store plan.now.stores → OrderLaws store }
{
    let _ = plan.input();
}

/// Where the statements of an input neither differ nor overlap, and no id is used again, no region is ready at the end of a
/// store's canonical order, also where the input is unlawful. It does nothing: its contract tells it.
pub fn end_laws(input: &Input)
    requires formed { WellFormed input.now }
    ensures { differ_law input.now ≡ None → overlap_law input.now ≡ None → reused_law input.now ≡ None → (store : Store) → IsAmong store input.now.stores → Rests store }
{
    let _ = input;
}

/// What the history of a key is in what comes of the plan. It does nothing: its contract tells it.
#[tactic(auto, using(crate::proofs::KeyHistories::history_laws))]
pub fn history_laws(plan: &Plan)
    ensures { HistoryLaws plan.now }
{
    let _ = plan.input();
}
