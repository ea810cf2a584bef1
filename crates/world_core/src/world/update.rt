//! The outcome of an update: it is decided, and then made at one moment.

ghost use Rattle.std.specs.Prelude.{◌≡◌, ◌≢◌, IsTrue, IfOk};
ghost use Rattle.c_tree.specs.Plan as plan;
ghost use Rattle.c_tree.specs.declared.event.EventKind.TheVariants as e;
ghost use Rattle.c_tree.specs.declared.event.Reason.TheVariants as why;
ghost use Rattle.plain_run.specs.Decision.{is_short, kind_decided, kind_of, IsDecision, IsReason, IsUpdate, Stays};
ghost use Rattle.world_core.specs.History.{core, may_commit, IsMade};

use super::World;
use c_tree::{Event, EventKind, Places, Reason};
use plain_run::decision::{Committed, Decision, committed_by, decide, refuse, update};
use plain_run::named::named_in;
use state_transform::Parts;
use std::alloc::AllocError;

impl World {
    /// What becomes of the update. It takes all the memory that the update needs.
    ///
    /// An `Err` is want of memory, so a reason that it gives is always another.
    pub fn decide(&self) -> Result<Decision, AllocError>
        requires { IsTrue (may_commit self.now) }
        ensures decided { IfOk result
            (λ d. IsDecision self.now.settings (core self.now) d) }
        ensures named { IfOk result (λ d. kind_decided d ≢ e.Refuse why.Memory) }
    {
        let alloc = self.events.alloc();
        decide(alloc, &self.settings, &self.places, &self.here)
    }

    /// Makes the outcome that was decided, as a worker. It takes no memory and can't be refused.
    pub fn settle(&mut self, worker: u32, decision: Decision)
        requires may { IsTrue (may_commit self.old) }
        requires decided { IsDecision self.old.settings (core self.old) decision }
        ensures { IsMade self.old self.new worker (kind_decided decision) }
    {
        match decision {
            Decision::Updated(parts, places) => self.update(worker, parts, places),
            Decision::Refused(reason) => self.refuse(worker, reason),
        }
    }

    /// Goes over to the new state and the new program.
    fn update(&mut self, worker: u32, parts: Parts, places: Places)
        requires may { IsTrue (may_commit self.old) }
        requires decided { IsUpdate self.old.settings (core self.old) parts places }
        ensures { IsMade self.old self.new worker e.Update }
    {
        update(&mut self.places, &mut self.here, parts, places);
        self.events.push_reserved(Event {
            worker,
            kind: EventKind::Update,
        });
    }

    /// Refuses the update: the program goes on as it was.
    fn refuse(&mut self, worker: u32, reason: Reason)
        requires may { IsTrue (may_commit self.old) }
        requires decided { IsReason self.old.settings (core self.old) reason }
        ensures { IsMade self.old self.new worker (e.Refuse reason) }
    {
        self.named = named_in(&self.here.state, reason);
        refuse(&mut self.here, reason);
        self.events.push_reserved(Event {
            worker,
            kind: EventKind::Refuse(reason),
        });
    }

    /// Decides the update and makes its outcome, as a worker: a refusal where memory is short.
    pub fn commit(&mut self, worker: u32) -> Committed
        requires { IsTrue (may_commit self.old) }
        ensures made { IsMade self.old self.new worker (kind_of result) }
        ensures outcome { kind_of result
            ≡ plan.outcome self.old.settings (is_short result) (core self.old) }
        ensures stays { Stays result (core self.old) (core self.new) }
    {
        let decision = match self.decide() {
            Ok(decision) => decision,
            Err(_) => Decision::Refused(Reason::Memory),
        };
        let committed = committed_by(&decision);
        self.settle(worker, decision);
        committed
    }
}
