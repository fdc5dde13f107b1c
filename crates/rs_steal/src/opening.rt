ghost use Rattle.std.specs.Prelude.{◌≡◌, ◌+◌, ◌++◌, ◌∷◌, ◌<◌, ◌≤◌, All, IfOk, length, map};
ghost use Rattle.crossbeam_deque.specs.Handles.{view, worker_deque, worker_view, stealer_deque};
ghost use Rattle.rs_steal.specs.Thieves.{deque_of, views_of};
ghost use Rattle.rs_steal.specs.Deques.{own_deque, placed, AreInRound};
ghost use Rattle.rs_steal.specs.Opening.{IsOwn, IsGuest, IsFresh, IsNew};

use crate::deque_rule::{Founds, Joins, Mark, Own};
use crate::steal_pass::StealPass;
use crate::steal_scheduler::StealScheduler;
use crate::thief::Thief;
use rs_rows::{NoMemory, Rows};
use std::alloc::Global;
use std::marker::Brand;
use std::thread::Parker;

fn found_marked<J: Mark>(alloc: Global, addresses: u32, passes: u32) -> Result<Own, NoMemory>
    requires bound { J.bound ≡ addresses }
    requires count { J.count ≡ passes + 2 }
    ensures { IfOk result (IsOwn addresses passes 0) }
{
    let mut own = Own::fifo_as(alloc, 32)?;
    drop(own.another::<Founds<J>>());
    Ok(own)
}

// Makes an empty deque whose tickets have addresses below `addresses`, for a scheduler of this number of passes.
fn found(alloc: Global, addresses: u32, passes: u32) -> Result<Own, NoMemory>
    ensures { IfOk result (IsOwn addresses passes 0) }
{
    found_marked::<Brand>(alloc, addresses, passes)
}

// Makes a stealer of a deque of which fewer than `place + 1` were made before.
fn thief_of(own: &mut Own, addresses: u32, passes: u32, place: u32) -> Result<Thief, NoMemory>
    requires place { place < passes }
    requires own { IsOwn addresses passes place own.old }
    ensures own { IsOwn addresses passes (place + 1) own.new }
    ensures deque { worker_deque own.new ≡ worker_deque own.old }
    ensures thief { IfOk result (λ t. IsGuest addresses (view t.pass) × (stealer_deque t.stealer ≡ worker_deque own.old)) }
{
    let stealer = own.stealer()?;
    let pass = own.another::<Joins>();
    Ok(Thief { stealer, pass })
}

// Adds a stealer of each pass's deque.
fn add_thieves(
    others: &mut Vec<StealPass>,
    thieves: &mut Vec<Thief>,
    addresses: u32,
    passes: u32,
    place: u32,
) -> Result<(), NoMemory>
    requires place { place < passes }
    requires fresh { All (IsFresh addresses passes place) others.old.items }
    requires guests { All (IsGuest addresses) (views_of thieves.old.items) }
    ensures fresh { IfOk result (λ _. All (IsFresh addresses passes (place + 1)) others.new.items) }
    ensures own { IfOk result (λ _. map own_deque others.new.items ≡ map own_deque others.old.items) }
    ensures placed { IfOk result (λ _. map placed others.new.items ≡ map placed others.old.items) }
    ensures guests { IfOk result (λ _. All (IsGuest addresses) (views_of thieves.new.items)) }
    ensures deques { IfOk result (λ _. map deque_of thieves.new.items ≡ map deque_of thieves.old.items ++ map own_deque others.old.items) }
{
    for k in 0..others.len() {
        let thief = thief_of(&mut others[k].own, addresses, passes, place)?;
        thieves.push(thief)?;
    }
    Ok(())
}

// Makes a pass with no stealer.
fn lonely(alloc: Global, addresses: u32, passes: u32) -> Result<StealPass, NoMemory>
    ensures { IfOk result (λ p. IsFresh addresses passes 0 p) }
{
    Ok(StealPass {
        own: found(alloc, addresses, passes)?,
        thieves: Vec::new(alloc),
        place: 0,
        addresses,
        empties: 0,
    })
}

// Makes the passes, with no stealers yet.
fn lonely_passes(alloc: Global, addresses: u32, passes: u32) -> Result<Vec<StealPass>, NoMemory>
    ensures { IfOk result (λ ps. (length ps.items ≡ passes) × All (IsFresh addresses passes 0) ps.items) }
{
    let mut list = Vec::new(alloc);
    for k in 0..passes {
        let pass = lonely(alloc, addresses, passes)?;
        list.push(pass)?;
    }
    Ok(list)
}

// A pass with this place and these stealers.
fn with_thieves(pass: StealPass, place: u32, thieves: Vec<Thief>, passes: u32) -> StealPass
    requires fresh { IsFresh pass.addresses passes place pass }
    requires guests { All (IsGuest pass.addresses) (views_of thieves.items) }
    ensures fresh { IsFresh pass.addresses passes (place + 1) result }
    ensures addresses { result.addresses ≡ pass.addresses }
    ensures placed { placed result ≡ (place, own_deque pass ∷ map deque_of thieves.items) }
{
    StealPass {
        own: pass.own,
        thieves,
        place,
        addresses: pass.addresses,
        empties: pass.empties,
    }
}

// Gives each pass its place, and stealers of all others, from the next one round.
fn connected(
    alloc: Global,
    waiting: Vec<StealPass>,
    addresses: u32,
    passes: u32,
) -> Result<Vec<StealPass>, NoMemory>
    requires passes { length waiting.items ≡ passes }
    requires fresh { All (IsFresh addresses passes 0) waiting.items }
    ensures count { IfOk result (λ ps. length ps.items ≡ passes) }
    ensures fresh { IfOk result (λ ps. All (IsFresh addresses passes passes) ps.items) }
    ensures round { IfOk result (λ ps. AreInRound ps.items) }
{
    let mut waiting = waiting;
    let mut done: Vec<StealPass> = Vec::new(alloc);
    for place in 0..passes {
        let pass = waiting.remove(0);
        let mut thieves = Vec::new(alloc);
        add_thieves(&mut waiting, &mut thieves, addresses, passes, place)?;
        add_thieves(&mut done, &mut thieves, addresses, passes, place)?;
        done.push(with_thieves(pass, place, thieves, passes))?;
    }
    Ok(done)
}

impl StealScheduler {
    /// Makes a scheduler with this number of addresses and no ticket, and `passes` passes of it, through which nothing
    /// was pushed or popped yet. Each has its own deque, and steals from those of the next ones round.
    pub fn new(
        alloc: Global,
        passes: u32,
        addresses: u32,
    ) -> Result<(StealScheduler, Rows<StealPass>), NoMemory>
        requires passes { (1 ≤ passes) × (passes ≤ 64) }
        ensures size { IfOk result (λ r. r.0.addresses ≡ addresses) }
        ensures count { IfOk result (λ r. length r.1 ≡ passes) }
        ensures passes { IfOk result (λ r. All (IsNew addresses) r.1) }
        ensures round { IfOk result (λ r. AreInRound r.1) }
    {
        let mut parkers = Vec::new(alloc);
        for _k in 0..passes {
            parkers.push(Parker::new())?;
        }
        let waiting = lonely_passes(alloc, addresses, passes)?;
        let list = connected(alloc, waiting, addresses, passes)?;
        let scheduler = StealScheduler { parkers, addresses };
        Ok((scheduler, Rows::from_vec(list)))
    }
}
