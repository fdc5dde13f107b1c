ghost use Rattle.rs_check.specs.Overlaps.{OverlapLaws};

/// What an overlap is: some key lies in both ranges, and the pair that is told has the least ids. It does nothing: its contract
/// tells it.
#[tactic(auto, using(crate::proofs::LeastOverlap::overlap_laws))]
pub fn overlap_laws()
    ensures { OverlapLaws }
{}
