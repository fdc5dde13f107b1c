//! What holds of every reshaping, as contracts of calls that do nothing.

ghost use Rattle.rs_region.specs.Laws.{CutParts, CutCounts, SplitShares, JoinHoldsBoth, JoinRises, SplitRaises, PrepareRaises, RollbackRaises, CommitRaises, ConfRaises, ChangeKeepsPeers};

/// States that the ranges of a good cut lie inside the range, in order and apart, and lose no key.
pub fn cut_laws()
    ensures parts { CutParts }
    ensures counts { CutCounts }
{}

/// States that a split shares the range out among the split region and the new ones: apart, and no key is lost.
pub fn split_laws()
    ensures { SplitShares }
{}

/// States that the join of two ranges next to each other holds exactly what its parts held.
pub fn join_laws()
    ensures holds { JoinHoldsBoth }
    ensures rises { JoinRises }
{}

/// States that each reshaping raises the epoch, and by little.
pub fn epoch_laws()
    ensures split { SplitRaises }
    ensures prepare { PrepareRaises }
    ensures rollback { RollbackRaises }
    ensures commit { CommitRaises }
    ensures conf { ConfRaises }
{}

/// States that a change of peers that is accepted leaves a rising list of 1 to 64.
pub fn peer_laws()
    ensures { ChangeKeepsPeers }
{}
