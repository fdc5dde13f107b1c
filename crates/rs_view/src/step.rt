/// One reshaping more: an address, and the number of its reshaping, counted from 1.
#[derive(Clone, Copy, Debug, Drop)]
pub struct Step {
    pub address: u32,
    pub nth: u64,
}
