//! The writer's side.

ghost use Rattle.std.specs.Prelude.{◌≡◌, ◌++◌, Some, drop, fold};
ghost use Rattle.std.specs.Option.{option_to_list};
ghost use Rattle.left_right.specs.Sides.{view};
ghost use Rattle.rs_view.specs.Cuts.{cut_of, stepped};

use crate::rule::TableWriter;
use crate::step::Step;
use rs_check::Plan;
use rs_table::CutTable;

/// Takes reshapings of one store into a pending cut, and publishes that.
///
/// It can't be dropped, since its writer can't: whoever has one ends it by [`end`](Publisher::end).
pub struct Publisher<'p> {
    pub(crate) plan: &'p Plan,
    pub(crate) place: u32,
    pub(crate) writer: TableWriter<'p>,
    pub(crate) pending: CutTable<'p>,
    /// The last reshaping that the pending cut has and the writer's log doesn't.
    pub(crate) waiting: Option<Step>,
    ghost of_plan: { (cut_of writer.desk.shown.value).input ≡ plan.now },
    ghost of_store: { (cut_of writer.desk.shown.value).place ≡ place },
    ghost shows: { view writer.desk.place ≡ Some (cut_of writer.desk.shown.value) },
    ghost ahead: { cut_of pending ≡ fold stepped (cut_of writer.desk.shown.value) (drop writer.behind writer.log.items ++ option_to_list waiting) },
}
