ghost use Rattle.std.specs.Prelude.{◌≡◌, ℕ, IfOk, OnOk};
ghost use Rattle.std.specs.List.{filter};
ghost use Rattle.std.specs.List.Sorted.{IsSortedBy};
ghost use Rattle.rs_history.specs.Outcomes.{by_region};
ghost use Rattle.rs_history.specs.Replies.{of_region};
ghost use Rattle.rs_fold.specs.Replies.{region_below};

use rs_entry::ReplyLine;
use rs_key::{NoMemory, Rows};
use std::alloc::AllocError;

/// Returns the replies by region; those of one region keep their order.
pub fn by_region(replies: Vec<ReplyLine>) -> Result<Rows<ReplyLine>, NoMemory>
    ensures { IfOk result (λ sorted. sorted ≡ by_region replies.items) }
{
    let mut replies = replies;
    sort_by_region(&mut replies)?;
    Ok(Rows::from_vec(replies))
}

fn sort_by_region(replies: &mut Vec<ReplyLine>) -> Result<(), AllocError>
    ensures sorted { OnOk result (IsSortedBy region_below replies.new.items) }
    ensures of_each_region { (id : ℕ) → filter (of_region id) replies.new.items ≡ filter (of_region id) replies.old.items }
{
    replies.sort_by(|a, b| a.region.cmp(&b.region))?;
    Ok(())
}
