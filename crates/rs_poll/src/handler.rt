ghost use Rattle.std.specs.Prelude.{◌≡◌, ℕ, IfOk, MatchResult, OnOk, length};
ghost use Rattle.rs_router.specs.Desks.{AreDesksOf, AllCalm, AllNamed};
ghost use Rattle.rs_router.specs.Lists.{Rose, SameBag, StartsWith};
ghost use Rattle.rs_router.specs.Turns.{turn_steps};
ghost use Rattle.rs_poll.specs.Counts.{RoseBy};
ghost use Rattle.rs_poll.specs.Handing.{all_known};

use rs_mailcore::{Fsm, Named};
use rs_router::{Desks, Router, Scheduler};
use rs_rows::NoMemory;
use std::sync::Wait;

/// Whether the machine is to run again, though it has no message.
#[derive(Clone, Copy, Debug, PartialEq, Eq)]
pub enum More {
    Yes,
    No,
}

/// The handler of a worker: it handles machines and their messages.
///
/// A handler has a name, and is lent machines, messages and a router of that name alone. What it has to tell others it
/// puts into its `Out`, and `send_out` sends that once the machine is given back. It counts the messages that it
/// handled and how often it advanced, and knows what `advance` answered last. Where it has no memory its counts stay.
pub trait Handler<F: Fsm, S: Scheduler>: Drop {
    ghost use Rattle.std.specs.Prelude.{List};
    ghost use Rattle.rs_poll.specs.Handing.{Known};
    ghost use Rattle.rs_poll.specs.declared.handler.More.{More};

    /// The messages that come out of the machines, until they are sent.
    type Out: Drop;

    /// The name of the machines and messages that it is lent.
    ghost name: { Self → F.Name };

    /// The number of mailboxes of the router that it is lent.
    ghost count: { Self → ℕ };

    /// The number of messages that `handle` answered Ok. It saturates at its last value.
    ghost handles: { Self → ℕ };

    /// The number of times that `advance` answered Ok. It saturates at its last value.
    ghost advances: { Self → ℕ };

    /// The last Ok answer of `advance`.
    ghost asked: { Self → More };

    /// The values of `Out` that it may be lent.
    ghost fits: { Self → Self.Out → Type 0 };

    ghost one_fit: { (h : Self) (o : Self.Out) → IsProp (fits h o) };

    /// What a `handle` that answers Ok made of the machine and of `Out`, in the handler's own words: of the machine, the
    /// message and `Out` before, and of machine and `Out` after.
    ghost handled: { F → F.Message → Self.Out → F → Self.Out → Type 0 };

    /// What an `advance` that answers Ok made of them: of the machine, the budget and `Out` before, the answer, and of
    /// machine and `Out` after.
    ghost advanced: { F → ℕ → Self.Out → More → F → Self.Out → Type 0 };

    /// What a `send_out` that answers Ok did, in the handler's own words: of the handler, its `Out` and what the lent
    /// stations know before, and of all three after.
    ghost sent: { Self → Self.Out → List (Known F.Name F.Message) → Self → Self.Out → List (Known F.Name F.Message) → Type 0 };

    /// Lets the machine handle a message.
    fn handle(
        &mut self,
        machine: &mut F,
        message: F::Message,
        out: &mut Self::Out,
    ) -> Result<(), NoMemory>
        requires machine { F.name machine.old ≡ name self.old }
        requires message { F.Message.name message ≡ name self.old }
        requires out { fits self.old out.old }
        ensures machine { F.name machine.new ≡ name self.old }
        ensures name { name self.new ≡ name self.old }
        ensures count { count self.new ≡ count self.old }
        ensures out { fits self.new out.new }
        ensures handled { OnOk result (handled machine.old message out.old machine.new out.new) }
        ensures handles { MatchResult result (λ _. RoseBy 1 (handles self.old) (handles self.new)) (λ _. handles self.new ≡ handles self.old) }
        ensures advances { advances self.new ≡ advances self.old };

    /// Lets the machine go on, by so much at most.
    fn advance(
        &mut self,
        machine: &mut F,
        budget: u32,
        out: &mut Self::Out,
    ) -> Result<More, NoMemory>
        requires machine { F.name machine.old ≡ name self.old }
        requires out { fits self.old out.old }
        ensures machine { F.name machine.new ≡ name self.old }
        ensures name { name self.new ≡ name self.old }
        ensures count { count self.new ≡ count self.old }
        ensures out { fits self.new out.new }
        ensures handles { handles self.new ≡ handles self.old }
        ensures advances { MatchResult result (λ _. Rose (advances self.old) (advances self.new)) (λ _. advances self.new ≡ advances self.old) }
        ensures advanced { IfOk result (λ more. advanced machine.old budget out.old more machine.new out.new) }
        ensures asked { IfOk result (λ more. asked self.new ≡ more) };

    /// Sends what came out. With Ok it took, gave back and closed nothing by these desks, and popped nothing.
    fn send_out<R: Wait>(
        &mut self,
        rt: &R,
        router: &Router<F, S>,
        desks: &mut Desks<F>,
        pass: &mut S::Pass,
        out: &mut Self::Out,
    ) -> Result<(), NoMemory>
        requires desks { AreDesksOf F.name router.now.mailboxes.items desks.old.stations.items }
        requires pass { S.id router.now.scheduler ≡ S.pass_id pass.old }
        requires calm { AllCalm desks.old.stations.items }
        requires router { AllNamed F.name (name self.old) router.now.mailboxes.items }
        requires count { length router.now.mailboxes.items ≡ count self.old }
        requires out { fits self.old out.old }
        ensures desks { AreDesksOf F.name router.now.mailboxes.items desks.new.stations.items }
        ensures pass { S.id router.now.scheduler ≡ S.pass_id pass.new }
        ensures calm { AllCalm desks.new.stations.items }
        ensures name { name self.new ≡ name self.old }
        ensures count { count self.new ≡ count self.old }
        ensures out { fits self.new out.new }
        ensures handles { handles self.new ≡ handles self.old }
        ensures advances { advances self.new ≡ advances self.old }
        ensures asked { asked self.new ≡ asked self.old }
        ensures pushed { StartsWith (S.pushed pass.new) (S.pushed pass.old) }
        ensures popped { OnOk result (SameBag (S.popped pass.old) (S.popped pass.new)) }
        ensures empties { OnOk result (S.empties pass.new ≡ S.empties pass.old) }
        ensures sent { OnOk result (sent self.old out.old (all_known desks.old.stations.items) self.new out.new (all_known desks.new.stations.items)) }
        ensures turns { OnOk result (turn_steps desks.new.stations.items ≡ turn_steps desks.old.stations.items) };
}
