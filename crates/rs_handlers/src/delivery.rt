/// An address, and the index up to which its log was told to be there.
#[derive(Clone, Copy, Debug)]
pub struct Told {
    pub address: u32,
    pub upto: u64,
}
