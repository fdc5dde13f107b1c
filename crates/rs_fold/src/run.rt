ghost use Rattle.std.specs.Prelude.{◌≡◌, ◌++◌, map, IfOk, OnOk, option_to_list};
ghost use Rattle.rs_store.specs.Stores.{last, ids_of, replied};
ghost use Rattle.rs_store.specs.Runs.{seen};
ghost use Rattle.rs_store.specs.Formed.{IsFormedOne};
ghost use Rattle.rs_history.specs.Outcomes.{reply_line};
ghost use Rattle.rs_fold.specs.Ends.{IsLawful, WentSo};

use rs_entry::{Reply, ReplyLine, Store};
use rs_history::Writes;
use rs_key::NoMemory;
use rs_store::{Advance, Arrived, Effect, Walk};
use std::alloc::{AllocError, Global};

/// A store at the end of its canonical order.
#[derive(Drop)]
pub struct End<'a> {
    /// The regions that the store may have, by id, and those that it made.
    pub arrived: Arrived,
    /// The accepted writes, in their order.
    pub writes: Writes<'a>,
    /// The replies, in their order.
    pub replies: Vec<ReplyLine>,
}

/// Runs the store, whose order meets no fault, to its end.
pub fn run_to_end<'a>(alloc: Global, store: &'a Store) -> Result<End<'a>, NoMemory>
    requires formed { IsFormedOne store.now }
    requires lawful { IsLawful store.now }
    ensures ids { IfOk result (λ end. end.arrived.ids.items ≡ ids_of store.now) }
    ensures value { IfOk result (λ end. WentSo (last store.now) (seen end.arrived.regions) end.writes end.replies.items) }
{
    let mut walk = Walk::new(alloc, store)?;
    let mut writes = Writes::new(alloc);
    let mut replies = Vec::new(alloc);
    for place in 0..walk.most() {
        match walk.advance(alloc)? {
            Advance::Took(effect) => {
                writes.record(effect.region, effect.index, effect.ops)?;
                record_reply(&mut replies, effect.region, effect.index, effect.reply)?;
            }
            Advance::Rests => {
                return Ok(End {
                    arrived: walk.finish(),
                    writes,
                    replies,
                });
            }
            Advance::Broke(_) => unreachable!(),
        }
    }
    Ok(End {
        arrived: walk.finish(),
        writes,
        replies,
    })
}

/// Adds the reply of the region's entry, if it has one.
pub fn record_reply(
    replies: &mut Vec<ReplyLine>,
    region: u64,
    index: u64,
    reply: Option<Reply>,
) -> Result<(), AllocError>
    ensures { OnOk result (replies.new.items ≡ replies.old.items ++ map reply_line (replied region index (option_to_list reply))) }
{
    let Some(reply) = reply else {
        return Ok(());
    };
    replies.push(ReplyLine {
        region,
        index,
        reply,
    })?;
    Ok(())
}
