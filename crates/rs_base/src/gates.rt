use std::sync::Wait;

/// A gate that each worker passes before it handles a machine. It has no answer, and it may hold
/// the worker up, so nothing says that a call returns.
pub trait Gate: Sync {
    /// Lets the worker of this number pass, which is about to handle the machine at this address.
    fn pass<R: Wait>(&self, rt: &R, worker: u32, address: u32);
}

/// A gate that holds no worker up: to pass it is to do nothing.
#[derive(Clone, Copy, Debug, Default, PartialEq, Eq)]
pub struct OpenGate;

impl Gate for OpenGate {
    fn pass<R: Wait>(&self, _rt: &R, _worker: u32, _address: u32) {}
}
