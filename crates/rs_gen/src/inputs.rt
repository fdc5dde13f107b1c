ghost use Rattle.std.specs.Prelude.{◌≡◌, ◌<◌, ◌≤◌, ◌++◌, ◌∷◌, [], map, None, IfOk, OnOk};
ghost use Rattle.std.specs.List.{flat_map};
ghost use Rattle.rs_entry.specs.Entries.{entry_of, body_of};
ghost use Rattle.rs_entry.specs.WellFormed.{WellFormed};
ghost use Rattle.rs_check.specs.Laws.{check};
ghost use Rattle.rs_gen.specs.Counts.{HasCounts};
ghost use Rattle.rs_gen.specs.Rounds.{main_entries};
ghost use Rattle.rs_gen.specs.Inputs.{rounds_of, rounds, whole, kept, child_log, main_log, store_of, made_of};

use crate::kept::Kept;
use crate::round::Round;
use rs_entry::{Body, Boot, Carried, CarriedBody, Entry, Input, Log, Store};
use rs_key::{NoMemory, Range, Rows, TryClone};
use std::alloc::Global;

/// Returns the input of a number, with two stores and `1 + n % 2000` rounds.
#[tactic(auto, using(crate::proofs::Forming::made_formed, crate::proofs::Lawful::made_lawful, crate::proofs::Counting::made_counts))]
pub fn make(alloc: Global, n: u64) -> Result<Input, NoMemory>
    ensures input { IfOk result (λ input. input ≡ made_of n) }
    ensures formed { IfOk result (λ input. WellFormed input) }
    ensures lawful { IfOk result (λ input. check input ≡ None) }
    ensures counts { IfOk result (λ input. HasCounts n input) }
{
    both_stores(alloc, n)
}

fn both_stores(alloc: Global, n: u64) -> Result<Input, NoMemory>
    ensures { IfOk result (λ input. input ≡ made_of n) }
{
    let mut stores = Rows::with_room(alloc, 2);
    stores.push(store(alloc, n, 1, Kept::All)?)?;
    stores.push(store(alloc, n, 2, Kept::Few)?)?;
    Ok(Input { version: 1, stores })
}

fn store(alloc: Global, n: u64, id: u64, share: Kept) -> Result<Store, NoMemory>
    ensures { IfOk result (λ store. store ≡ store_of n id share) }
{
    let mut regions = Rows::with_room(alloc, 1);
    regions.push(whole(alloc)?)?;
    let mut logs = Rows::with_room(alloc, 1 + rounds_of(n) as usize);
    logs.push(main_log(alloc, n)?)?;
    add_child_logs(alloc, &mut logs, n, share)?;
    Ok(Store { id, regions, logs })
}

/// Returns region 1, with all keys.
fn whole(alloc: Global) -> Result<Boot, NoMemory>
    ensures { IfOk result (λ boot. boot ≡ whole) }
{
    match Range::new(None, None) {
        Err(_) => Err(NoMemory),
        Ok(range) => Ok(Boot {
            region: 1,
            range,
            peers: Rows::new(alloc),
        }),
    }
}

#[tactic(auto, unfolding(crate::specs::Inputs::rounds_of))]
fn rounds_of(n: u64) -> u64
    ensures value { result ≡ rounds_of n }
    ensures most { result ≤ 2000 }
{
    1 + n % 2000
}

#[tactic(auto, using(crate::proofs::Ranges::flat_range_more))]
fn main_log(alloc: Global, n: u64) -> Result<Log, NoMemory>
    ensures { IfOk result (λ log. log ≡ main_log n) }
{
    let rounds = rounds_of(n);
    let mut entries = Rows::with_room(alloc, 4 * rounds as usize);
    for nth in 0..rounds {
        let round = Round { number: n, nth };
        round.add_to(alloc, &mut entries)?;
    }
    Ok(Log { region: 1, entries })
}

/// Adds the logs of the regions that the rounds split off.
#[tactic(auto, using(crate::proofs::Ranges::flat_range_more))]
fn add_child_logs(alloc: Global, logs: &mut Rows<Log>, n: u64, share: Kept) -> Result<(), NoMemory>
    ensures { OnOk result (logs.new ≡ logs.old ++ flat_map (λ t. child_log n t (kept share n t)) (rounds n)) }
{
    for nth in 0..rounds_of(n) {
        let round = Round { number: n, nth };
        add_child_log(alloc, logs, round, share)?;
    }
    Ok(())
}

/// Adds the log of the region that the round split off, where the store has some of it.
fn add_child_log(
    alloc: Global,
    logs: &mut Rows<Log>,
    round: Round,
    share: Kept,
) -> Result<(), NoMemory>
    ensures { OnOk result (logs.new ≡ logs.old ++ child_log round.number round.nth (kept share round.number round.nth)) }
{
    let count = kept_of(share, round);
    if count == 0 {
        return Ok(());
    }
    logs.push(child_log(alloc, round, count)?)
}

/// Returns the log of that region, with `count` entries.
#[tactic(auto, using(crate::proofs::Ranges::one_log))]
fn child_log(alloc: Global, round: Round, count: usize) -> Result<Log, NoMemory>
    requires some { 0 < count }
    requires most { count ≤ 3 }
    ensures { IfOk result (λ log. log ∷ [] ≡ child_log round.number round.nth count) }
{
    let carried = round.carried(alloc)?;
    let (first, _) = carried.as_slice().split_at(count);
    let entries = own_entries(alloc, first)?;
    Ok(Log {
        region: round.child(),
        entries,
    })
}

/// Returns how many entries of it a store has.
#[tactic(auto, unfolding(crate::specs::Inputs::kept))]
fn kept_of(share: Kept, round: Round) -> usize
    ensures value { result ≡ kept share round.number round.nth }
    ensures most { result ≤ 3 }
{
    match share {
        Kept::All => 3,
        Kept::Few => (round.byte(12) % 4) as usize,
    }
}

/// Returns carried entries as those of their region's own log.
fn own_entries(alloc: Global, carried: &[Carried]) -> Result<Rows<Entry>, NoMemory>
    ensures { IfOk result (λ entries. entries ≡ map entry_of carried.now) }
{
    let mut entries = Rows::with_room(alloc, carried.len());
    for entry in carried {
        entries.push(own_entry(entry)?)?;
    }
    Ok(entries)
}

fn own_entry(carried: &Carried) -> Result<Entry, NoMemory>
    ensures { IfOk result (λ entry. entry ≡ entry_of carried.now) }
{
    Ok(Entry {
        index: carried.index,
        epoch: carried.epoch,
        body: own_body(&carried.body)?,
    })
}

fn own_body(body: &CarriedBody) -> Result<Body, NoMemory>
    ensures { IfOk result (λ own. own ≡ body_of body.now) }
{
    match body {
        CarriedBody::Empty => Ok(Body::Empty),
        CarriedBody::Write(ops) => Ok(Body::Write(ops.try_clone()?)),
        CarriedBody::Prepare { target } => Ok(Body::Prepare { target: *target }),
    }
}
