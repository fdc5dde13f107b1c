//! The readers' side.

ghost use Rattle.std.specs.Prelude.{◌≡◌, Some, IfSome, IfNone};
ghost use Rattle.rs_view.specs.Cuts.{Remembers};
ghost use Rattle.rs_view.specs.Doors.{Rose, input_behind, place_behind};
ghost use Rattle.rs_view.specs.Finding.{Finds};

use crate::door::Door;
use crate::found::Found;
use crate::rule::TableReader;
use rs_check::Plan;
use rs_key::Key;

/// Looks keys up in what is published of one store. It may move to another thread.
///
/// A view whose [`Door`] is shut finds nothing: `left_right` had no place for it, or a [`learn`](View::learn) failed.
#[derive(Drop)]
pub struct View<'p> {
    pub(crate) plan: &'p Plan,
    pub(crate) place: u32,
    pub(crate) door: Door<'p>,
    ghost of_plan: { input_behind door.reader plan.now ≡ Some plan.now },
    ghost of_store: { place_behind door.reader place ≡ Some place },
}

/// A note of what was published, for one view to learn. It holds a reader's place until it is learnt or dropped.
#[derive(Drop)]
pub struct Told<'p> {
    pub(crate) plan: &'p Plan,
    pub(crate) place: u32,
    pub(crate) reader: Option<TableReader<'p>>,
    ghost of_plan: { input_behind reader plan.now ≡ Some plan.now },
    ghost of_store: { place_behind reader place ≡ Some place },
}

impl<'p> View<'p> {
    ghost use Rattle.rs_view.specs.Views.{IfNoted, IfOpen, IfShut, IsOf, noted, refused_by, seen, store_of};

    /// The live region that holds the key in the table of the cut that is published at one step of this call, and that
    /// cut's size. The cut contains each cut that this view found before or was told of.
    ///
    /// None comes only with an entry that was refused. It takes no memory, no lock and no wait.
    pub fn find(&mut self, key: &Key) -> Option<Found>
        ensures store { store_of self.new ≡ store_of self.old }
        ensures found { IfSome result (λ f. Finds (store_of self.old).0 (store_of self.old).1 (seen self.old) key.now f (seen self.new)) }
        ensures none { IfNone result (Rose (refused_by self.old) (refused_by self.new) × (seen self.new ≡ seen self.old)) }
    {
        self.door.look(self.plan, self.place, key)
    }

    /// Takes in a note of the same store. From now on each cut that the view finds contains what was published when the
    /// note was told.
    ///
    /// A note that has no place at the table shuts the view's door. It takes no memory.
    pub fn learn(&mut self, told: Told<'p>)
        requires store { IsOf told (store_of self.old) }
        ensures store { store_of self.new ≡ store_of self.old }
        ensures learnt { IfOpen self.new (Remembers (seen self.new) (seen self.old) × Remembers (seen self.new) (noted told.entry)) }
        ensures refused { IfOpen self.new (refused_by self.new ≡ refused_by self.old) }
        ensures shut { IfOpen self.old (IfNoted told.entry (IfShut self.new (Rose (refused_by self.old) (refused_by self.new)))) }
    {
        let Told {
            plan: _,
            place: _,
            reader,
        } = told;
        self.door.take_in(reader, self.plan, self.place);
    }
}

fn is_sent<T: Send + Drop>(value: T) {
    drop(value);
}

/// A view and a note may move to another thread.
pub(crate) fn are_sent<'p>(view: View<'p>, told: Told<'p>) {
    is_sent(view);
    is_sent(told);
}
