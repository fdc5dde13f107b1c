use crate::stored::{HasCount, Stored};
use crate::view::View;
use atomic_table::Seat;
use rs_mailcore::Named;

/// One caller's seat at a handover. It has no bytes at run time.
#[derive(Drop)]
pub struct Hand<T: HasCount> {
    pub seat: Seat<Option<Stored<T>>, View<T::Name>>,
}
