//! A reader's way in.

ghost use Rattle.std.specs.Prelude.{◌≡◌, ◌≤◌, ◌<◌, ℕ, Some, None, MatchOption, IfSome, IfNone, IsTrue, length};
ghost use Rattle.left_right.specs.Sides.{view};
ghost use Rattle.rs_table.specs.Tellings.{numbers};
ghost use Rattle.rs_view.specs.Cuts.{Remembers, Within, cut_of};
ghost use Rattle.rs_view.specs.Doors.{Rose, input_behind, input_known, known, place_behind, place_known};
ghost use Rattle.rs_view.specs.Finding.{Answers, Finds};

use crate::found::Found;
use crate::rule::{Notes, Sees, TableReader, TableWriter};
use rs_check::Plan;
use rs_key::Key;
use rs_table::CutTable;

/// A reader's way in to the published table, where `left_right` has given it a place, and how many entries were refused.
///
/// Nothing is proved about when `left_right` refuses a place or an entry: with ample places it doesn't.
#[derive(Drop)]
pub struct Door<'p> {
    pub(crate) reader: Option<TableReader<'p>>,
    pub(crate) refused: u64,
}

impl<'p> Door<'p> {
    /// One entry. A refused entry raises the count.
    pub(crate) fn look(&mut self, plan: &Plan, place: u32, key: &Key) -> Option<Found>
        requires plan { input_behind self.old.reader plan.now ≡ Some plan.now }
        requires place { place_behind self.old.reader place ≡ Some place }
        ensures plan { input_behind self.new.reader plan.now ≡ Some plan.now }
        ensures place { place_behind self.new.reader place ≡ Some place }
        ensures found { IfSome result (λ f. Finds plan.now place (known self.old.reader) key.now f (known self.new.reader)) }
        ensures none { IfNone result (Rose self.old.refused self.new.refused × (known self.new.reader ≡ known self.old.reader)) }
    {
        if let Some(own) = self.reader.take() {
            let (own, found) = look_up(own, plan, place, key);
            self.reader = Some(own);
            if let Some(found) = found {
                return Some(found);
            }
        }
        self.refused = self.refused.saturating_add(1);
        None
    }

    /// Takes in what another reader knows. Where that fails the door is shut, which counts as a refused entry.
    pub(crate) fn take_in(&mut self, theirs: Option<TableReader<'p>>, plan: &Plan, place: u32)
        requires plan { input_behind self.old.reader plan.now ≡ Some plan.now }
        requires place { place_behind self.old.reader place ≡ Some place }
        requires their_plan { input_behind theirs plan.now ≡ Some plan.now }
        requires their_place { place_behind theirs place ≡ Some place }
        ensures plan { input_behind self.new.reader plan.now ≡ Some plan.now }
        ensures place { place_behind self.new.reader place ≡ Some place }
        ensures learnt { IfSome self.new.reader (λ _. Remembers (known self.new.reader) (known self.old.reader) × Remembers (known self.new.reader) (known theirs.entry)) }
        ensures shut { IfSome self.old.reader (λ _. IfSome theirs.entry (λ _. IfNone self.new.reader (Rose self.old.refused self.new.refused))) }
        ensures count { IfSome self.new.reader (λ _. self.new.refused ≡ self.old.refused) }
    {
        let Some(mine) = self.reader.take() else {
            return;
        };
        let Some(theirs) = theirs else {
            return;
        };
        match meet(mine, theirs, plan, place) {
            Some(greater) => self.reader = Some(greater),
            None => self.refused = self.refused.saturating_add(1),
        }
    }
}

/// One entry by the reader, which comes back.
fn look_up<'p>(
    reader: TableReader<'p>,
    plan: &Plan,
    place: u32,
    key: &Key,
) -> (TableReader<'p>, Option<Found>)
    requires plan { input_known (view reader.place) ≡ Some plan.now }
    requires place { place_known (view reader.place) ≡ Some place }
    ensures plan { input_known (view result.0.place) ≡ Some plan.now }
    ensures place { place_known (view result.0.place) ≡ Some place }
    ensures found { MatchOption result.1 (view result.0.place ≡ view reader.entry.place) (λ f. Finds plan.now place (view reader.entry.place) key.now f (view result.0.place)) }
{
    match reader.enter_as::<Sees>() {
        Ok(reading) => {
            let found = answer(reading.get(), key);
            (reading.leave(), Some(found))
        }
        Err(reader) => (reader, None),
    }
}

/// What the table answers at the key.
fn answer(table: &CutTable<'_>, key: &Key) -> Found
    ensures { Answers (cut_of table.now) key.now result }
{
    let _ = table.table();
    Found {
        region: table.find(key),
        size: table.size(),
    }
}

/// Whether each number of `more` is at least that of `less`.
fn contains(more: &[u64], less: &[u64]) -> bool
    ensures { IsTrue result → (i : ℕ) → numbers less.now i ≤ numbers more.now i }
{
    if less.len() > more.len() {
        return false;
    }
    for i in 0..less.len() {
        if less[i] > more[i] {
            return false;
        }
    }
    true
}

/// The reader that sees the greater cut.
fn meet<'p>(
    mine: TableReader<'p>,
    theirs: TableReader<'p>,
    plan: &Plan,
    place: u32,
) -> Option<TableReader<'p>>
    requires plan { (input_known (view mine.place) ≡ Some plan.now) × (input_known (view theirs.place) ≡ Some plan.now) }
    requires place { (place_known (view mine.place) ≡ Some place) × (place_known (view theirs.place) ≡ Some place) }
    ensures plan { IfSome result (λ r. input_known (view r.place) ≡ Some plan.now) }
    ensures place { IfSome result (λ r. place_known (view r.place) ≡ Some place) }
    ensures learnt { IfSome result (λ r. Remembers (view r.place) (view mine.entry.place) × Remembers (view r.place) (view theirs.entry.place)) }
{
    let Ok(mine) = mine.enter_as::<Sees>() else {
        return None;
    };
    let Ok(theirs) = theirs.enter_as::<Sees>() else {
        drop(mine.leave());
        return None;
    };
    let up = contains(theirs.get().counts(), mine.get().counts());
    let down = contains(mine.get().counts(), theirs.get().counts());
    let mine = mine.leave();
    let theirs = theirs.leave();
    if up {
        return Some(theirs);
    }
    if down {
        return Some(mine);
    }
    None
}

/// A reader that knows what is published; none where each place is in use.
pub(crate) fn tell_in<'p>(writer: &mut TableWriter<'p>) -> Option<TableReader<'p>>
    requires shows { view writer.old.desk.place ≡ Some (cut_of writer.old.desk.shown.value) }
    ensures kept { (writer.new.desk.shown ≡ writer.old.desk.shown) × (writer.new.log ≡ writer.old.log) × (writer.new.behind ≡ writer.old.behind) × (view writer.new.desk.place ≡ view writer.old.desk.place) }
    ensures told { IfSome result (λ r. view r.place ≡ Some (cut_of writer.old.desk.shown.value)) }
{
    let made = writer.factory().reader();
    let Ok(mut reader) = made else {
        return None;
    };
    reader.learn::<Notes>(writer.tell::<Notes>());
    Some(reader)
}
