ghost use Rattle.std.specs.Prelude.{◌≡◌, All};
ghost use Rattle.crossbeam_deque.specs.Handles.{worker_flavor, worker_port, worker_view};
ghost use Rattle.rs_steal.specs.Thieves.{views_of};

use crate::deque_rule::Own;
use crate::thief::Thief;

/// A pass of a [`StealScheduler`](crate::StealScheduler): a deque of its own, and a stealer of each other pass's, in the
/// order of their places, from the next one round.
#[derive(Drop)]
pub struct StealPass {
    pub own: Own,
    pub thieves: Vec<Thief>,
    pub place: u32,
    pub addresses: u32,
    pub empties: u64,
    ghost first: { (worker_port own ≡ 0) × (worker_flavor own ≡ 0) },
    ghost bounded: { ((worker_view own).bound ≡ addresses) × All (λ v. v.bound ≡ addresses) (views_of thieves.items) },
}
