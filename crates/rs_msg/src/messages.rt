use crate::closed::Closed;
use crate::ending::Ending;
use crate::piece::Piece;
use rs_check::Plan;
use rs_entry::Input;
use rs_mailcore::Named;

/// A message to a region's peer machine.
#[derive(Drop)]
pub enum PeerMsg<'p> {
    /// The store's own log of the region has the entries up to this index.
    Deliver {
        plan: &'p Plan,
        upto: u64,
    },
    /// The target, a region on the same store, stands before its commit of the region's prepare at `commit`.
    CatchUp {
        plan: &'p Plan,
        target: u64,
        commit: u64,
    },
    /// The region's apply machine has applied the entries up to this index. Nothing in the program depends on it: it is
    /// kept for TiKV's protocol.
    Applied {
        plan: &'p Plan,
        upto: u64,
    },
    /// The target has taken the region over. Nothing in the program depends on it: it is kept for TiKV's protocol.
    MergeResult {
        plan: &'p Plan,
        target: u64,
    },
}

/// A message to a region's apply machine.
#[derive(Drop)]
pub enum ApplyMsg<'p> {
    /// The entries up to this index may be applied.
    Task {
        plan: &'p Plan,
        upto: u64,
    },
    /// The region was split off, with this state and this map.
    Birth {
        piece: Box<Piece<'p>>,
    },
    /// Asks the region to hand over to the target once its prepare at `commit` is applied.
    CatchUpLogs {
        plan: &'p Plan,
        target: u64,
        commit: u64,
    },
    /// A source hands its state and its writes over to the region.
    SourceDone {
        closed: Box<Closed<'p>>,
    },
    /// Nothing to do. The program never sends it: it is kept for TiKV's protocol.
    Noop {
        plan: &'p Plan,
    },
}

/// A message to a store's control machine.
#[derive(Drop)]
pub enum StoreMsg<'p> {
    /// The address has applied its nth reshaping, counted from 1.
    Reshaped {
        plan: &'p Plan,
        address: u32,
        nth: u64,
    },
    /// A region has ended, with what it leaves to the outcome.
    Ended {
        ending: Box<Ending<'p>>,
    },
}

impl<'p> Named for PeerMsg<'p> {
    ghost use Rattle.rs_msg.specs.Names.{name_of_peer};

    type Name = Input;

    ghost name = { name_of_peer };
}

impl<'p> Named for ApplyMsg<'p> {
    ghost use Rattle.rs_msg.specs.Names.{name_of_apply};

    type Name = Input;

    ghost name = { name_of_apply };
}

impl<'p> Named for StoreMsg<'p> {
    ghost use Rattle.rs_msg.specs.Names.{name_of_store};

    type Name = Input;

    ghost name = { name_of_store };
}
