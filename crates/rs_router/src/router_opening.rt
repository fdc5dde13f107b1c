ghost use Rattle.std.specs.Prelude.{◌≡◌, ◌≤◌, ◌<◌, ◌^◌, ◌++◌, ◌∷◌, [], All, IfOk, length};
ghost use Rattle.rs_mailbox.specs.Stations.{mailbox_name, IsNewStation};
ghost use Rattle.rs_router.specs.Desks.{AllCalm, AllNamed, AreAddressed, AreDesksOf, AreNewDesks, Paired};

use crate::desks::Desks;
use crate::router::Router;
use crate::scheduler::Scheduler;
use rs_mailbox::{Mailbox, Station};
use rs_mailcore::{Fsm, Named};
use rs_rows::{NoMemory, Rows};
use std::alloc::Global;

// Makes `workers` desks with no stations.
fn empty_desks<F: Fsm>(
    alloc: Global,
    mailboxes: &Vec<Mailbox<F>>,
    workers: u32,
) -> Result<Vec<Desks<F>>, NoMemory>
    requires none { mailboxes.now.items ≡ [] }
    ensures count { IfOk result (λ d. length d.items ≡ workers) }
    ensures desks { IfOk result (λ d. All (λ x. AreNewDesks F.name mailboxes.now.items x.stations.items) d.items) }
{
    let mut list = Vec::with_capacity(alloc, workers as usize)?;
    for k in 0..workers {
        list.push_reserved(Desks {
            stations: Vec::new(alloc),
        });
    }
    Ok(list)
}

// Desks with one more station: that of the mailbox that comes next.
fn seated<F: Fsm>(
    mailboxes: &Vec<Mailbox<F>>,
    mailbox: &Mailbox<F>,
    mut desks: Desks<F>,
    station: Station<F>,
) -> Result<Desks<F>, NoMemory>
    requires desks { AreNewDesks F.name mailboxes.now.items desks.stations.items }
    requires station { IsNewStation F.name mailbox.now station }
    ensures { IfOk result (λ d. AreNewDesks F.name (mailboxes.now.items ++ mailbox.now ∷ []) d.stations.items) }
{
    desks.stations.push(station)?;
    Ok(desks)
}

// One more station for each of the desks: those of the mailbox that comes next.
fn deal<F: Fsm>(
    alloc: Global,
    mailboxes: &Vec<Mailbox<F>>,
    mailbox: &Mailbox<F>,
    mut desks: Vec<Desks<F>>,
    stations: Rows<Station<F>>,
    workers: u32,
) -> Result<Vec<Desks<F>>, NoMemory>
    requires desks { (length desks.items ≡ workers) × All (λ x. AreNewDesks F.name mailboxes.now.items x.stations.items) desks.items }
    requires stations { (length stations ≡ workers) × All (IsNewStation F.name mailbox.now) stations }
    ensures count { IfOk result (λ d. length d.items ≡ workers) }
    ensures desks { IfOk result (λ d. All (λ x. AreNewDesks F.name (mailboxes.now.items ++ mailbox.now ∷ []) x.stations.items) d.items) }
{
    let mut stations = stations.into_vec();
    let mut list = Vec::with_capacity(alloc, workers as usize)?;
    for k in 0..workers {
        let station = stations.pop().unwrap();
        let one = desks.pop().unwrap();
        list.push_reserved(seated(mailboxes, mailbox, one, station)?);
    }
    Ok(list)
}

// Makes a mailbox for each machine, in their order, and `workers` desks.
fn open_all<F: Fsm>(
    alloc: Global,
    machines: Rows<F>,
    workers: u32,
) -> Result<(Vec<Mailbox<F>>, Vec<Desks<F>>), NoMemory>
    requires few { length machines < 2 ^ 32 }
    requires workers { (1 ≤ workers) × (workers ≤ 4096) }
    ensures addresses { IfOk result (λ r. AreAddressed r.0.items) }
    ensures names { IfOk result (λ r. Paired (λ x b. mailbox_name F.name b ≡ F.name x) machines r.0.items) }
    ensures workers { IfOk result (λ r. length r.1.items ≡ workers) }
    ensures desks { IfOk result (λ r. All (λ x. AreNewDesks F.name r.0.items x.stations.items) r.1.items) }
{
    let mut mailboxes = Vec::new(alloc);
    let mut desks = empty_desks(alloc, &mailboxes, workers)?;
    let mut address = 0;
    for machine in machines.into_vec() {
        let (mailbox, stations) = Mailbox::new(alloc, address, machine, workers)?;
        desks = deal(alloc, &mailboxes, &mailbox, desks, stations, workers)?;
        mailboxes.push(mailbox)?;
        address += 1;
    }
    Ok((mailboxes, desks))
}

impl<F: Fsm, S: Scheduler> Router<F, S> {
    /// Returns a router with a mailbox for each machine, at the machine's place in the list, and for each worker
    /// desks, whose stations have done nothing yet. The scheduler has as many addresses as there are machines.
    ///
    /// More than 2^32 - 1 machines are refused as want of memory.
    pub fn new(
        alloc: Global,
        machines: Rows<F>,
        scheduler: S,
        workers: u32,
    ) -> Result<(Router<F, S>, Rows<Desks<F>>), NoMemory>
        requires workers { (1 ≤ workers) × (workers ≤ 4096) }
        requires size { S.size scheduler ≡ length machines }
        ensures count { IfOk result (λ r. length r.0.mailboxes.items ≡ length machines) }
        ensures scheduler { IfOk result (λ r. r.0.scheduler ≡ scheduler) }
        ensures names { IfOk result (λ r. Paired (λ x b. mailbox_name F.name b ≡ F.name x) machines r.0.mailboxes.items) }
        ensures name { IfOk result (λ r. (n : F.Name) → All (λ x. F.name x ≡ n) machines → AllNamed F.name n r.0.mailboxes.items) }
        ensures workers { IfOk result (λ r. length r.1 ≡ workers) }
        ensures new { IfOk result (λ r. All (λ d. AreNewDesks F.name r.0.mailboxes.items d.stations.items) r.1) }
        ensures desks { IfOk result (λ r. All (λ d. AreDesksOf F.name r.0.mailboxes.items d.stations.items) r.1) }
        ensures calm { IfOk result (λ r. All (λ d. AllCalm d.stations.items) r.1) }
    {
        let Ok(count) = u32::try_from(machines.len()) else {
            return Err(NoMemory);
        };
        let (mailboxes, desks) = open_all(alloc, machines, workers)?;
        let router = Router {
            mailboxes,
            scheduler,
            count,
        };
        Ok((router, Rows::from_vec(desks)))
    }
}
