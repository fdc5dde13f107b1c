//! What is kept and told of an entry that was applied.

ghost use Rattle.std.specs.Prelude.{◌≡◌, ◌+◌, ◌<◌, ◌^◌, ◌++◌, option_to_list, if◌then◌else◌, OnOk, IfOk};
ghost use Rattle.rs_check.specs.Values.{reply_lines};
ghost use Rattle.rs_apply.specs.Reshapings.{reshaped_if};

use crate::next::Next;
use rs_entry::{Reply, ReplyLine};
use rs_key::{NoMemory, Rows};
use rs_msg::StoreMsg;

/// Appends the line of the entry's reply, if it has one. `NoMemory` is want of memory.
pub fn note_reply(
    replies: &mut Rows<ReplyLine>,
    region: u64,
    index: u64,
    reply: Option<Reply>,
) -> Result<(), NoMemory>
    ensures { OnOk result (replies.new ≡ replies.old ++ reply_lines region index (option_to_list reply)) }
{
    match reply {
        None => Ok(()),
        Some(reply) => replies.push(ReplyLine {
            region,
            index,
            reply,
        }),
    }
}

/// Appends the merge, if there is one. `NoMemory` is want of memory.
pub fn note_merge(merged: &mut Rows<(u64, u64)>, merge: Option<(u64, u64)>) -> Result<(), NoMemory>
    ensures { OnOk result (merged.new ≡ merged.old ++ option_to_list merge) }
{
    match merge {
        None => Ok(()),
        Some(merge) => merged.push(merge),
    }
}

/// Counts a reshaping, and tells it to the store's control machine.
pub fn tell_reshaping<'p>(
    next: Next<'p>,
    reshaped: u64,
    is: bool,
    stores: &mut Rows<(u32, StoreMsg<'p>)>,
) -> Result<u64, NoMemory>
    requires few { reshaped < 2 ^ 62 }
    ensures count { IfOk result (λ nth. nth ≡ (if is then reshaped + 1 else reshaped)) }
    ensures stores { IfOk result (λ nth. stores.new ≡ stores.old ++ reshaped_if next.entry.plan next.entry.address nth is) }
{
    if !is {
        return Ok(reshaped);
    }
    let plan = next.plan;
    let address = next.address;
    let nth = reshaped + 1;
    stores.push((
        plan.place(address),
        StoreMsg::Reshaped { plan, address, nth },
    ))?;
    Ok(nth)
}
