use rs_entry::{Op, Reply};

/// The effect of a region's entry at an index, beside the change of the regions.
#[derive(Drop)]
pub struct Effect<'a> {
    pub region: u64,
    pub index: u64,
    /// The operations that it writes; none if it isn't accepted.
    pub ops: &'a [Op],
    /// How it is answered.
    pub reply: Option<Reply>,
}
