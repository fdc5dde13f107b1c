//! A publisher and its views.

ghost use Rattle.std.specs.Prelude.{◌≡◌, ◌≤◌, [], All, Some, drop, length, IfOk};
ghost use Rattle.left_right.specs.Sides.{view};
ghost use Rattle.rs_view.specs.Cuts.{cut_of, empty_cut};
ghost use Rattle.rs_view.specs.Publishing.{IsNewView, pending, published, published_store};

use crate::door::Door;
use crate::publisher::Publisher;
use crate::publishing::show;
use crate::rule::TableWriter;
use crate::view::{Told, View};
use left_right::writer::Writer;
use rs_check::Plan;
use rs_key::{NoMemory, Rows};
use rs_table::CutTable;
use std::alloc::Global;
use std::sync::Wait;

/// How many readers there may be at once: views, and notes that aren't learnt yet.
const READERS: usize = 64;

/// The table of the cut that covers nothing.
fn empty<'p>(alloc: Global, plan: &'p Plan, place: u32) -> Result<CutTable<'p>, NoMemory>
    ensures { IfOk result (λ t. cut_of t ≡ empty_cut plan.now place) }
{
    let table = CutTable::new(alloc, plan, place)?;
    Ok(table)
}

/// A writer that has published the cut that covers nothing.
fn first_writer<'p, R: Wait>(
    rt: &R,
    alloc: Global,
    plan: &'p Plan,
    place: u32,
) -> Result<TableWriter<'p>, NoMemory>
    ensures shown { IfOk result (λ w. cut_of w.desk.shown.value ≡ empty_cut plan.now place) }
    ensures known { IfOk result (λ w. view w.desk.place ≡ Some (cut_of w.desk.shown.value)) }
    ensures none { IfOk result (λ w. drop w.behind w.log.items ≡ []) }
{
    let first = empty(alloc, plan, place)?;
    let second = empty(alloc, plan, place)?;
    let writer: TableWriter<'p> = Writer::new(alloc, first, second, READERS)?;
    let (writer, shown) = show(rt, writer);
    if shown.is_err() {
        drop(writer.take(rt));
        return Err(NoMemory);
    }
    Ok(writer)
}

fn views_of<'p>(
    alloc: Global,
    publisher: &mut Publisher<'p>,
    readers: u32,
) -> Result<Rows<View<'p>>, NoMemory>
    ensures store { published_store publisher.new ≡ published_store publisher.old }
    ensures cuts { (pending publisher.new ≡ pending publisher.old) × (published publisher.new ≡ published publisher.old) }
    ensures views { IfOk result (λ vs. (length vs ≡ readers) × All (IsNewView (published_store publisher.old).0 (published_store publisher.old).1 (published publisher.old)) vs) }
{
    let mut views = Rows::new(alloc);
    for _k in 0..readers {
        let Told {
            plan,
            place,
            reader,
        } = publisher.tell();
        views.push(View {
            plan,
            place,
            door: Door { reader, refused: 0 },
        })?;
    }
    Ok(views)
}

/// A publisher of the store at the place, counted from 0, and 1 to 16 views of it. The empty cut is published.
///
/// A view that `left_right` has no place for has a shut door.
pub fn start<'p, R: Wait>(
    rt: &R,
    alloc: Global,
    plan: &'p Plan,
    place: u32,
    readers: u32,
) -> Result<(Publisher<'p>, Rows<View<'p>>), NoMemory>
    requires readers { (1 ≤ readers) × (readers ≤ 16) }
    ensures store { IfOk result (λ r. published_store r.0 ≡ (plan.now, place)) }
    ensures empty { IfOk result (λ r. (published r.0 ≡ empty_cut plan.now place) × (pending r.0 ≡ empty_cut plan.now place)) }
    ensures views { IfOk result (λ r. (length r.1 ≡ readers) × All (IsNewView plan.now place (empty_cut plan.now place)) r.1) }
{
    let pending = empty(alloc, plan, place)?;
    let writer = first_writer(rt, alloc, plan, place)?;
    let mut publisher = Publisher {
        plan,
        place,
        writer,
        pending,
        waiting: None,
    };
    match views_of(alloc, &mut publisher, readers) {
        Ok(views) => Ok((publisher, views)),
        Err(refused) => {
            publisher.end(rt);
            Err(refused)
        }
    }
}
