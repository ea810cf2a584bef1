//! The events round the outcome of an update: it is asked for, threads are parked and resumed.

ghost use Rattle.std.specs.Prelude.{◌≡◌, IsTrue, OnOk, OnErr, None, []};
ghost use Rattle.c_tree.specs.Sound.{Sound};
ghost use Rattle.c_tree.specs.declared.event.EventKind.TheVariants as e;
ghost use Rattle.c_places.specs.Limit.{KeepsLimit};
ghost use Rattle.world_core.specs.History.{armed_with, may_park, may_request, may_resume, IsMade};

use super::World;
use c_tree::{Armed, Event, EventKind, Patch};
use plain_run::event::{park, request, resume};
use plain_run::now::owed;
use std::alloc::AllocError;

impl World {
    /// Arms an update, to be asked for after so many Steps.
    pub fn arm(&mut self, patch: Patch, at: u64)
        requires new { self.old.events ≡ [] }
        requires unarmed { self.old.settings.armed ≡ None }
        requires same { patch.old ≡ self.old.settings.program }
        requires sound { Sound patch.old patch.new patch.entries }
        requires old_placed { KeepsLimit patch.old }
        requires placed { KeepsLimit patch.new }
        ensures { self.new ≡ armed_with self.old patch at }
    {
        self.settings.armed = Some(Armed { patch, at });
    }

    /// Asks for the update, as a worker. Where memory is short all stays.
    ///
    /// It reserves room for the outcome too.
    pub fn request(&mut self, worker: u32) -> Result<(), AllocError>
        requires { IsTrue (may_request self.old) }
        ensures ok { OnOk result (IsMade self.old self.new worker e.Request) }
        ensures err { OnErr result (self.new ≡ self.old) }
    {
        self.events.reserve(owed(&self.here) + 2)?;
        request(&mut self.here);
        self.events.push_reserved(Event {
            worker,
            kind: EventKind::Request,
        });
        Ok(())
    }

    /// Parks a thread for the update, as a worker. Where memory is short all stays.
    ///
    /// It reserves room for the thread's Resume too.
    pub fn park(&mut self, worker: u32, t: u32) -> Result<(), AllocError>
        requires { IsTrue (may_park self.old t) }
        ensures ok { OnOk result (IsMade self.old self.new worker (e.Park t)) }
        ensures err { OnErr result (self.new ≡ self.old) }
    {
        self.events.reserve(owed(&self.here) + 2)?;
        park(&mut self.here, t)?;
        self.events.push_reserved(Event {
            worker,
            kind: EventKind::Park(t),
        });
        Ok(())
    }

    /// Lets a parked thread go on, as a worker. It takes no memory and can't be refused.
    pub fn resume(&mut self, worker: u32, t: u32)
        requires { IsTrue (may_resume self.old t) }
        ensures { IsMade self.old self.new worker (e.Resume t) }
    {
        resume(&mut self.here, t);
        self.events.push_reserved(Event {
            worker,
            kind: EventKind::Resume(t),
        });
    }
}
