//! The inputs, each as its text, and what comes of them.

use rs_check::{Plan, check};
use rs_entry::{Outcome, StoreOutcome};
use rs_key::Rows;
use rs_text::{read_logs, write_outcome};
use std::alloc::Global;
use std::test::Fail;

/// A region that is split in four, with a write behind the split.
pub const SPLIT_IN_FOUR: &str = "raftreplay 1\nstore 1\nregion 1 - -\n\
    log 1\n6 1 1 split right 2 67 3 6d 4 74\n7 1 1 write put 7a 31\nend\n";

/// A region that prepares to be taken over, refuses a write, takes its prepare back and accepts the next write.
pub const ROLLED_BACK: &str = "raftreplay 1\nstore 1\nregion 1 - 6d\nregion 2 6d -\n\
    log 1\n6 1 1 prepare 2\n7 2 2 write put 61 31\n8 2 2 rollback 6\n9 2 3 write put 61 32\nend\n";

/// A region that takes over its left neighbour, with the neighbour's prepare carried.
pub const MERGE: &str = "raftreplay 1\nstore 1\nregion 1 - 6d\nregion 2 6d -\n\
    log 1\n6 1 1 prepare 2\nlog 2\n6 1 1 commit 1 6 1\ncarry 6 1 1 prepare 2\nend\n";

/// What comes of it.
pub const MERGED: &str = "store 1\nregion 1 epoch 2 2 range - 6d applied 6 left 0 merged 2\n\
    region 2 epoch 1 3 range - - applied 6 left 0 normal\nreply 1 6 ok 2\nreply 2 6 ok 3\n";

/// A region that takes over its left neighbour, whose log goes on behind its prepare.
pub const MERGE_BEFORE_THE_END: &str = "raftreplay 1\nstore 1\nregion 1 - 6d\nregion 2 6d -\n\
    log 1\n6 1 1 prepare 2\n7 2 2 write put 61 31\nlog 2\n6 1 1 commit 1 6 0\nend\n";

/// What comes of it.
pub const MERGED_BEFORE_THE_END: &str = "store 1\n\
    region 1 epoch 2 2 range - 6d applied 6 left 1 merged 2\n\
    region 2 epoch 1 3 range - - applied 6 left 0 normal\nreply 1 6 ok 2\nreply 2 6 ok 3\n";

/// Two stores with the same region, which is split and takes the new region over again. The second store has the new
/// region's log without its last two entries, which the commit carries.
pub const LAGGING: &str = "raftreplay 1\n\
    store 1\nregion 1 - -\n\
    log 1\n6 1 1 empty\n7 1 1 write put 6131 30 put 6d31 31\n8 1 1 write put 7a31 32\n\
    9 1 1 split right 2 6d\n10 1 2 write put 6d32 33 del 7a31\n11 1 1 write put 6132 34\n\
    12 1 2 commit 2 9 2\ncarry 8 1 2 write put 6133 38\ncarry 9 1 2 prepare 1\n\
    13 1 4 write put 6133 39\n\
    log 2\n6 1 2 empty\n7 1 2 write put 6131 35 put 6132 36\n8 1 2 write put 6133 38\n9 1 2 prepare 1\n\
    store 2\nregion 1 - -\n\
    log 1\n6 1 1 empty\n7 1 1 write put 6131 30 put 6d31 31\n8 1 1 write put 7a31 32\n\
    9 1 1 split right 2 6d\n10 1 2 write put 6d32 33 del 7a31\n11 1 1 write put 6132 34\n\
    12 1 2 commit 2 9 2\ncarry 8 1 2 write put 6133 38\ncarry 9 1 2 prepare 1\n\
    13 1 4 write put 6133 39\n\
    log 2\n6 1 2 empty\n7 1 2 write put 6131 35 put 6132 36\nend\n";

/// The same, but the second store has no log of the new region at all: the commit carries it whole.
pub const WITHOUT_LOG: &str = "raftreplay 1\n\
    store 1\nregion 1 - -\n\
    log 1\n6 1 1 empty\n7 1 1 write put 6131 30 put 6d31 31\n8 1 1 write put 7a31 32\n\
    9 1 1 split right 2 6d\n10 1 2 write put 6d32 33 del 7a31\n11 1 1 write put 6132 34\n\
    12 1 2 commit 2 9 4\ncarry 6 1 2 empty\ncarry 7 1 2 write put 6131 35 put 6132 36\n\
    carry 8 1 2 write put 6133 38\ncarry 9 1 2 prepare 1\n\
    13 1 4 write put 6133 39\n\
    log 2\n6 1 2 empty\n7 1 2 write put 6131 35 put 6132 36\n8 1 2 write put 6133 38\n9 1 2 prepare 1\n\
    store 2\nregion 1 - -\n\
    log 1\n6 1 1 empty\n7 1 1 write put 6131 30 put 6d31 31\n8 1 1 write put 7a31 32\n\
    9 1 1 split right 2 6d\n10 1 2 write put 6d32 33 del 7a31\n11 1 1 write put 6132 34\n\
    12 1 2 commit 2 9 4\ncarry 6 1 2 empty\ncarry 7 1 2 write put 6131 35 put 6132 36\n\
    carry 8 1 2 write put 6133 38\ncarry 9 1 2 prepare 1\n\
    13 1 4 write put 6133 39\nend\n";

/// What comes of the second store, either way.
pub const SECOND_STORE: &str = "store 2\n\
    region 1 epoch 1 4 range - - applied 13 left 0 normal\n\
    region 2 epoch 2 3 range - 6d applied 9 left 0 merged 1\n\
    reply 1 6 empty\nreply 1 7 ok 1\nreply 1 8 ok 1\nreply 1 9 ok 2\nreply 1 10 ok 2\nreply 1 11 stale 1 2\n\
    reply 1 12 ok 4\nreply 1 13 ok 4\nreply 2 6 empty\nreply 2 7 ok 2\nreply 2 8 ok 2\nreply 2 9 ok 3\n\
    pair 6131 35\npair 6132 36\npair 6133 39\npair 6d31 31\npair 6d32 33\n\
    history 6131 1/7=30 2/7=35\nhistory 6132 2/7=36\nhistory 6133 2/8=38 1/13=39\nhistory 6d31 1/7=31\n\
    history 6d32 1/10=33\nhistory 7a31 1/8=32 1/10!\n";

/// The lawful logs that the text spells.
pub fn plan_of(alloc: Global, text: &str) -> Result<Plan, Fail> {
    match check(read_logs(alloc, text.as_bytes())?) {
        Ok(plan) => Ok(plan),
        Err(_) => Err(Fail::new("the logs are not lawful")),
    }
}

/// The text of one store's outcome.
pub fn text_of(alloc: Global, store: StoreOutcome) -> Result<Vec<u8>, Fail> {
    let mut stores = Rows::new(alloc);
    stores.push(store)?;
    Ok(write_outcome(alloc, &Outcome { stores })?)
}
