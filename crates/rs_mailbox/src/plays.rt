ghost use Rattle.rs_mailbox.specs.Order.{IsOrderly, newcomer};
ghost use Rattle.rs_mailbox.specs.Steps as told;
ghost use Rattle.rs_mailbox.specs.Stood.{looked_at};

use crate::stored::{HasCount, Stored};
use crate::view::View;
use atomic_table::{Play, Split, TableRule};
use rs_mailcore::Named;
use std::marker::PhantomData;

/// The rule of a handover's table.
pub struct Order<T> {
    marker: PhantomData<T>,
}

impl<T: HasCount> TableRule<Option<Stored<T>>, View<T::Name>, T> for Order<T> {
    ghost holds = { λ key. IsOrderly T.name T.count key };

    ghost first = { λ key. newcomer (T.name key) };
}

/// What an announcement tells its hand.
pub struct Announce;

impl<T: HasCount> Play<Option<Stored<T>>, View<T::Name>> for Announce {
    ghost then = { λ _. told.announced };
}

/// What a notification tells.
pub struct Notify;

impl<T: HasCount> Play<Option<Stored<T>>, View<T::Name>> for Notify {
    ghost then = { λ _. told.notified };
}

/// What a take tells.
pub struct Take;

impl<T: HasCount> Play<Option<Stored<T>>, View<T::Name>> for Take {
    ghost then = { λ _. told.taken T.name T.count };
}

/// What a release tells.
pub struct Release;

impl<T: HasCount> Play<Option<Stored<T>>, View<T::Name>> for Release {
    ghost then = { λ _. told.released };
}

/// What the look at the announcements after a release tells.
pub struct Recheck;

impl<T: HasCount> Play<Option<Stored<T>>, View<T::Name>> for Recheck {
    ghost then = { λ _. told.rechecked };
}

/// What a take after a release tells.
pub struct Retake;

impl<T: HasCount> Play<Option<Stored<T>>, View<T::Name>> for Retake {
    ghost then = { λ _. told.retaken T.name T.count };
}

/// What a close tells.
pub struct Close;

impl<T: HasCount> Play<Option<Stored<T>>, View<T::Name>> for Close {
    ghost then = { λ _. told.closed T.name T.count };
}

/// What a look at the state word tells.
pub struct Look;

impl<T: HasCount> Play<Option<Stored<T>>, View<T::Name>> for Look {
    ghost then = { λ _. looked_at T.name T.count };
}

/// What a reschedule tells.
pub struct Reschedule;

impl<T: HasCount> Play<Option<Stored<T>>, View<T::Name>> for Reschedule {
    ghost then = { λ _. told.rescheduled };
}

/// What the first hand is told as it takes the slot, while nothing lies in it.
pub struct Empty;

impl<T: HasCount> Play<Option<Stored<T>>, View<T::Name>> for Empty {
    ghost then = { λ _. told.emptied };
}

/// What the first hand is told as it brings the value home for the first time.
pub struct Settle;

impl<T: HasCount> Play<Option<Stored<T>>, View<T::Name>> for Settle {
    ghost then = { λ _. told.settled };
}

/// How the first hand makes one more.
pub struct Next;

impl<N> Split<View<N>> for Next {
    ghost use Rattle.rs_mailbox.specs.Making.{with_more, newest};

    ghost left = { with_more };

    ghost right = { newest };
}
