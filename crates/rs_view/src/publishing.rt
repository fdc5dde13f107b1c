//! What a publisher does.

ghost use Rattle.std.specs.Prelude.{◌≡◌, ◌≢◌, ◌+◌, ◌++◌, ◌↔◌, [], ◌∷◌, ℕ, Some, None, drop, fold, IfSome, IsErrOf, MatchOption, MatchResult, OnErr, OnOk};
ghost use Rattle.std.specs.Option.{option_to_list};
ghost use Rattle.left_right.specs.Sides.{view};
ghost use Rattle.rs_check.specs.Tables.{owner};
ghost use Rattle.rs_table.specs.Covers.{IsOwner, NoneOwns};
ghost use Rattle.rs_table.specs.Cuts.{IsCut, IsFull};
ghost use Rattle.rs_table.specs.Moves.{IsLeastNext, raised};
ghost use Rattle.rs_table.specs.Rows.{table_of};
ghost use Rattle.rs_view.specs.Cuts.{cut_of, numbers_of, stepped};
ghost use Rattle.rs_view.specs.Publishing.{pending, pending_cut, published, published_store};
ghost use Rattle.rs_view.specs.Views.{IfNoted, IsOf, noted};

use crate::add_error::AddError;
use crate::door::tell_in;
use crate::publisher::Publisher;
use crate::rule::{Sees, TableWriter, take_next};
use crate::step::Step;
use crate::view::Told;
use core::mem::replace_with;
use rs_key::{Key, NoMemory};
use rs_table::CutTable;
use std::alloc::AllocError;
use std::sync::Wait;

/// Shows readers each operation of the log, at one step.
pub(crate) fn show<'p, R: Wait>(
    rt: &R,
    writer: TableWriter<'p>,
) -> (TableWriter<'p>, Result<(), AllocError>)
    ensures { MatchResult result.1
        (λ _. (cut_of result.0.desk.shown.value ≡ fold stepped (cut_of writer.entry.desk.shown.value) (drop writer.entry.behind writer.entry.log.items)) × (drop result.0.behind result.0.log.items ≡ []) × (view result.0.desk.place ≡ Some (cut_of result.0.desk.shown.value)))
        (λ _. (result.0.desk.shown.value ≡ writer.entry.desk.shown.value) × (drop result.0.behind result.0.log.items ≡ drop writer.entry.behind writer.entry.log.items) × (view result.0.desk.place ≡ view writer.entry.desk.place)) }
{
    writer.publish_as::<Sees, R>(rt)
}

fn show_in<'p, R: Wait>(rt: &R, writer: &mut TableWriter<'p>) -> Result<(), AllocError>
    ensures { MatchResult result
        (λ _. (cut_of writer.new.desk.shown.value ≡ fold stepped (cut_of writer.old.desk.shown.value) (drop writer.old.behind writer.old.log.items)) × (drop writer.new.behind writer.new.log.items ≡ []) × (view writer.new.desk.place ≡ Some (cut_of writer.new.desk.shown.value)))
        (λ _. (writer.new.desk.shown.value ≡ writer.old.desk.shown.value) × (drop writer.new.behind writer.new.log.items ≡ drop writer.old.behind writer.old.log.items) × (view writer.new.desk.place ≡ view writer.old.desk.place)) }
{
    replace_with(writer, rt, |writer, rt| show(rt, writer))
}

/// Notes the reshaping that waits in the writer's log.
fn note(writer: &mut TableWriter<'_>, waiting: &mut Option<Step>) -> Result<(), NoMemory>
    ensures desk { writer.new.desk ≡ writer.old.desk }
    ensures steps { drop writer.new.behind writer.new.log.items ++ option_to_list waiting.new ≡ drop writer.old.behind writer.old.log.items ++ option_to_list waiting.old }
    ensures ok { OnOk result (waiting.new ≡ None) }
{
    let Some(step) = *waiting else {
        return Ok(());
    };
    if writer.append(step).is_err() {
        return Err(NoMemory);
    }
    *waiting = None;
    Ok(())
}

/// Notes one reshaping more, where none waits. Where memory runs out it waits for the next call.
fn put(writer: &mut TableWriter<'_>, waiting: &mut Option<Step>, step: Step)
    requires { waiting.old ≡ None }
    ensures desk { writer.new.desk ≡ writer.old.desk }
    ensures steps { drop writer.new.behind writer.new.log.items ++ option_to_list waiting.new ≡ drop writer.old.behind writer.old.log.items ++ step ∷ [] }
{
    *waiting = Some(step);
    let _noted = note(writer, waiting);
}

/// Takes the reshaping, which makes a greater cut, into the pending cut, and notes it for the writer.
fn add_next(
    writer: &mut TableWriter<'_>,
    pending: &mut CutTable<'_>,
    waiting: &mut Option<Step>,
    step: Step,
) -> Result<(), NoMemory>
    requires grows { IsCut (cut_of pending.old).input (cut_of pending.old).place (raised (numbers_of (cut_of pending.old)) step.address) }
    requires ahead { cut_of pending.old ≡ fold stepped (cut_of writer.old.desk.shown.value) (drop writer.old.behind writer.old.log.items ++ option_to_list waiting.old) }
    ensures desk { writer.new.desk ≡ writer.old.desk }
    ensures ahead { cut_of pending.new ≡ fold stepped (cut_of writer.new.desk.shown.value) (drop writer.new.behind writer.new.log.items ++ option_to_list waiting.new) }
    ensures ok { OnOk result (numbers_of (cut_of pending.new) ≡ raised (numbers_of (cut_of pending.old)) step.address) }
    ensures err { OnErr result (cut_of pending.new ≡ cut_of pending.old) }
{
    note(writer, waiting)?;
    take_next(pending, step)?;
    put(writer, waiting, step);
    Ok(())
}

/// Takes the reshaping into the pending cut, if it makes a greater one.
fn add_in(
    writer: &mut TableWriter<'_>,
    pending: &mut CutTable<'_>,
    waiting: &mut Option<Step>,
    step: Step,
) -> Result<(), AddError>
    requires ahead { cut_of pending.old ≡ fold stepped (cut_of writer.old.desk.shown.value) (drop writer.old.behind writer.old.log.items ++ option_to_list waiting.old) }
    ensures desk { writer.new.desk ≡ writer.old.desk }
    ensures ahead { cut_of pending.new ≡ fold stepped (cut_of writer.new.desk.shown.value) (drop writer.new.behind writer.new.log.items ++ option_to_list waiting.new) }
    ensures ok { OnOk result (numbers_of (cut_of pending.new) ≡ raised (numbers_of (cut_of pending.old)) step.address) }
    ensures err { OnErr result (cut_of pending.new ≡ cut_of pending.old) }
    ensures next { IsErrOf result AddError.NotNext ↔ (IsCut (cut_of pending.old).input (cut_of pending.old).place (raised (numbers_of (cut_of pending.old)) step.address) × (step.nth ≡ numbers_of (cut_of pending.old) step.address + 1) → ⊥) }
{
    if !pending.is_next(step.address, step.nth) {
        return Err(AddError::NotNext);
    }
    match add_next(writer, pending, waiting, step) {
        Ok(()) => Ok(()),
        Err(_) => Err(AddError::NoMemory),
    }
}

impl<'p> Publisher<'p> {
    /// The least address whose next reshaping makes the pending cut a greater cut, and that reshaping's number, counted
    /// from 1. None exactly where the pending cut has every reshaping of the store. It takes no memory.
    pub fn next(&self) -> Option<(u32, u64)>
        ensures { MatchOption result (IsFull (published_store self.now).0 (published_store self.now).1 (pending_cut self.now)) (λ r. IsLeastNext (published_store self.now).0 (published_store self.now).1 (pending_cut self.now) r.0 × (r.1 ≡ pending_cut self.now r.0 + 1)) }
    {
        self.pending.next()
    }

    /// Takes the address's nth reshaping, counted from 1, into the pending cut.
    ///
    /// NotNext comes exactly where the pending cut with it isn't a cut whose size is greater by one. After an error nothing
    /// changed.
    pub fn add(&mut self, address: u32, nth: u64) -> Result<(), AddError>
        ensures store { published_store self.new ≡ published_store self.old }
        ensures published { published self.new ≡ published self.old }
        ensures ok { OnOk result (pending_cut self.new ≡ raised (pending_cut self.old) address) }
        ensures err { OnErr result (pending self.new ≡ pending self.old) }
        ensures next { IsErrOf result AddError.NotNext ↔ (IsCut (published_store self.old).0 (published_store self.old).1 (raised (pending_cut self.old) address) × (nth ≡ pending_cut self.old address + 1) → ⊥) }
    {
        let step = Step { address, nth };
        add_in(&mut self.writer, &mut self.pending, &mut self.waiting, step)
    }

    /// Shows readers the pending cut, at one step. It waits for those that still read the table before.
    ///
    /// After NoMemory readers see what they saw, and what is pending stays so.
    pub fn publish<R: Wait>(&mut self, rt: &R) -> Result<(), NoMemory>
        ensures store { published_store self.new ≡ published_store self.old }
        ensures pending { pending self.new ≡ pending self.old }
        ensures published { MatchResult result (λ _. published self.new ≡ pending self.old) (λ _. published self.new ≡ published self.old) }
    {
        note(&mut self.writer, &mut self.waiting)?;
        show_in(rt, &mut self.writer)?;
        Ok(())
    }

    /// A note of what is published, for a view of this publisher to learn. It takes no memory.
    pub fn tell(&mut self) -> Told<'p>
        ensures store { (published_store self.new ≡ published_store self.old) × IsOf result (published_store self.old) }
        ensures pending { pending self.new ≡ pending self.old }
        ensures published { published self.new ≡ published self.old }
        ensures told { IfNoted result (noted result ≡ Some (published self.old)) }
    {
        let reader = tell_in(&mut self.writer);
        Told {
            plan: self.plan,
            place: self.place,
            reader,
        }
    }

    /// The live region that holds the key in the pending cut's table; None exactly where none does. It takes no memory.
    pub fn find(&self, key: &Key) -> Option<u64>
        ensures value { result ≡ owner (table_of (published_store self.now).0 (published_store self.now).1 (pending_cut self.now)) key.now }
        ensures owner { MatchOption result (NoneOwns (table_of (published_store self.now).0 (published_store self.now).1 (pending_cut self.now)) key.now) (IsOwner (table_of (published_store self.now).0 (published_store self.now).1 (pending_cut self.now)) key.now) }
    {
        self.pending.find(key)
    }

    /// Ends it, and waits for those that still read. From then on each entry of a view is refused.
    pub fn end<R: Wait>(self, rt: &R) {
        let Publisher {
            plan: _,
            place: _,
            writer,
            pending,
            waiting: _,
        } = self;
        drop(pending);
        drop(writer.take(rt));
    }
}
