ghost use Rattle.rs_store.specs.Runs.{line_entry};
ghost use Rattle.rs_apply.specs.Steps.{HasNext};

use rs_check::{Line, Plan};

/// The entry that a region applies next.
#[derive(Clone, Copy)]
pub struct Next<'p> {
    pub plan: &'p Plan,
    pub address: u32,
    /// The index that the region has applied.
    pub index: u64,
    pub line: Line<'p>,
    ghost entry: { HasNext plan.now address index (line_entry line) },
}
