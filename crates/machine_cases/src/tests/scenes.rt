//! What is done with machines, step by step, and what is seen of them.

use crate::tests::step::Step::{self, *};
use rs_apply::Progress::{self, Ended, More, Rests, WaitsFor};

/// What the target of two regions waits for: that the region 1 hands over, after its prepare at the index 6.
const WAITS_FOR_1: Progress = WaitsFor {
    source: 1,
    commit: 6,
};

/// What the target of the lagging store waits for.
const WAITS_FOR_2: Progress = WaitsFor {
    source: 2,
    commit: 9,
};

/// A peer machine keeps the greatest index that was applied. Once its region was taken over it is a tombstone, and still
/// passes on what it is told.
pub const TOMBSTONE: &[Step<'static>] = &[
    Peer(0, 5, false),
    Applied(0, 7),
    Applied(0, 6),
    MergedInto(0, 2),
    Peer(0, 7, true),
    Sends("||"),
    Deliver(0, 9),
    Sends("|0 up to 9;|"),
];

/// A region sends the regions that it is split in, and what it leaves when it has ended. Then it sends nothing more.
pub const SPLITS: &[Step<'static>] = &[
    Task(0, 7),
    Advance(0, 8, Ended),
    Sends(
        "0 applied 7;|1 born at 4;2 born at 4;3 born at 4;|0 reshaped 0 1;0 ended 0: 6 ok 4 7 stale 1 4;",
    ),
    Advance(0, 8, Rests),
    Sends(
        "0 applied 7;|1 born at 4;2 born at 4;3 born at 4;|0 reshaped 0 1;0 ended 0: 6 ok 4 7 stale 1 4;",
    ),
];

/// A region stops where its budget is used up.
pub const STOPS: &[Step<'static>] = &[
    Task(0, 9),
    Advance(0, 1, More),
    Sends("0 applied 6;||0 reshaped 0 1;"),
];

/// A reshaping moves a key to the region that has it then, once. One that the plan doesn't have changes nothing.
pub const TABLE: &[Step<'static>] = &[
    Finds(0x67, 1),
    Reshaped(0, 2),
    Reshaped(0, 0),
    Reshaped(7, 1),
    Finds(0x67, 1),
    Reshaped(0, 1),
    Finds(0x67, 3),
    Reshaped(0, 1),
    Finds(0x67, 3),
];

/// The target has nothing but its commit, and waits. The source comes to its prepare, rests until it is told to hand over,
/// and then does.
pub const MERGES: &[Step<'static>] = &[
    Task(1, 6),
    Advance(1, 8, WAITS_FOR_1),
    Sends("0 catch up for 2 at 6;||"),
    HandOn,
    Sends("|0 up to 6;0 hand over to 2 at 6;|"),
    Task(0, 7),
    Advance(0, 8, Rests),
    Sends("0 applied 6;|0 up to 6;0 hand over to 2 at 6;|0 reshaped 0 1;"),
    HandOver(0, 2, 6),
    Advance(0, 8, Ended),
    Sends(
        "0 applied 6;|0 up to 6;0 hand over to 2 at 6;1 takes over 0 at 6;|0 reshaped 0 1;0 ended 0: 6 ok 2;",
    ),
    HandOn,
    Advance(1, 8, Ended),
    Sends("0 merged into 2;1 applied 6;||0 reshaped 1 1;0 ended 1: 6 ok 3;"),
    IsComplete(false),
    HandOn,
    Peer(0, 6, true),
    IsComplete(true),
];

/// A commit that comes before its source's prepare changes the table no sooner than that.
pub const COMMIT_FIRST: &[Step<'static>] = &[
    Reshaped(1, 1),
    Finds(0x61, 1),
    Reshaped(0, 1),
    Finds(0x61, 2),
    IsComplete(false),
    Deliver(0, 6),
    Deliver(1, 6),
    HandOn,
    Advance(1, 8, WAITS_FOR_1),
    Advance(0, 8, Rests),
    HandOn,
    HandOn,
    Advance(0, 8, Ended),
    HandOn,
    IsComplete(false),
    Advance(1, 8, Ended),
    HandOn,
    IsComplete(true),
];

/// The target waits at its commit, and has the source catch up. The source takes the entries that its store's own log lacks
/// from those that the commit carries.
pub const CATCHES_UP: &[Step<'static>] = &[
    Deliver(2, 13),
    Deliver(3, 7),
    HandOn,
    Advance(3, 8, Rests),
    Advance(2, 8, WAITS_FOR_2),
    Sends("2 applied 11;3 catch up for 1 at 9;|3 born at 2;|1 reshaped 2 1;"),
    HandOn,
    Advance(3, 8, Rests),
    Sends("3 applied 7;|3 up to 9;3 hand over to 1 at 9;|"),
    HandOn,
    Advance(3, 8, Ended),
    Sends(
        "3 applied 9;|2 takes over 3 at 9;|1 reshaped 3 1;1 ended 3: 6 empty 7 ok 2 8 ok 2 9 ok 3;",
    ),
    HandOn,
    IsComplete(false),
    Advance(2, 8, Ended),
    HandOn,
    IsComplete(true),
];

/// The same where the store has no log of the source at all.
pub const CATCHES_UP_WHOLLY: &[Step<'static>] = &[
    Deliver(2, 13),
    HandOn,
    Advance(2, 8, WAITS_FOR_2),
    HandOn,
    Advance(3, 8, Rests),
    HandOn,
    Advance(3, 8, Ended),
    HandOn,
    Advance(2, 8, Ended),
    HandOn,
    IsComplete(true),
];
