//! The world: a run whose state is what its events lead to.

ghost use Rattle.std.specs.Prelude.{◌≡◌, ◌≤◌, ◌<◌, ◌+◌, IsTrue, IfOk, IfSome, OnOk, OnErr, length};
ghost use Rattle.std.specs.Option.{option_map};
ghost use Rattle.c_tree.specs.Able.{able, standing};
ghost use Rattle.c_tree.specs.Run.{stepped};
ghost use Rattle.c_tree.specs.Sound.{Sound};
ghost use Rattle.c_tree.specs.Step.{step};
ghost use Rattle.c_tree.specs.declared.event.EventKind.TheVariants as e;
ghost use Rattle.c_places.specs.Limit.{KeepsLimit};
ghost use Rattle.world_core.specs.History.{begun, core, over, may_turn, with_event, IsMade, IsRun};
ghost use Rattle.world_core.specs.Outcome.{outcome};
ghost use Rattle.world_core.specs.Refused.{named_at_refusal};

mod gate;
mod may;
mod update;

use crate::outcome::{Outcome, how_far};
use crate::part::Part;
use c_meaning::able::{able, standing};
use c_places::places;
use c_tree::{End, Event, EventKind, Lifted, Patch, Phase, Places, Row, Settings, State, Text};
use event_log::EventLog;
use plain_run::Now;
use plain_run::event::step;
use plain_run::now::{over, owed, present};
use std::alloc::{AllocError, Global};
use std::marker::Model;

/// A run. Contracts see what it was given and its events.
pub struct World {
    /// The parts before the present one.
    earlier: Row<Part>,
    settings: Settings,
    places: Places,
    events: EventLog,
    here: Now,
    /// What the refusal of the update names, as it stood then.
    named: (u32, u32),
}

impl Drop for World {
    fn drop(self) {
        let World {
            earlier: _,
            settings: _,
            places: _,
            events: _,
            here: _,
            named: _,
        } = self;
    }
}

impl Model for World {
    ghost use Rattle.world_core.specs.History.{History};
    ghost use Rattle.std.specs.Coded.{codes};
    ghost use Rattle.c_tree.specs.contracts.run.Settings as given;
    ghost use Rattle.world_core.specs.contracts.part.Part as part;

    ghost Value = { History };

    ghost coded = { Prim.hlevel (codes, given.the_row.coded, part.the_row.coded) };

    ghost use Rattle.world_core.specs.Sound.{history_of, IsSound};

    ghost view = { history_of };

    ghost invariant = { IsSound };
}

impl World {
    /// A run that has no event yet.
    pub fn start(
        alloc: Global,
        program: Lifted,
        input: Text,
        limit: u64,
    ) -> Result<World, AllocError>
        requires placed { KeepsLimit program }
        requires small { limit ≤ 10000000 }
        ensures { IfOk result (λ w. w ≡ begun program input limit) }
    {
        let places = places(alloc, &program)?;
        let state = State::start(alloc, &program, &input)?;
        let here = Now {
            state,
            phase: Phase::Before,
            parked: Vec::new(alloc),
            steps: 0,
            ended: None,
        };
        let settings = Settings {
            program,
            armed: None,
            input,
            limit,
        };
        let events = EventLog::new(alloc);
        Ok(World {
            earlier: Row::from_vec(Vec::new(alloc)),
            settings,
            places,
            events,
            here,
            named: (0, 0),
        })
    }

    /// How many threads were made.
    pub fn threads(&self) -> u32
        ensures value { result ≡ length (core self.now).state.threads }
        ensures few { result ≤ 1000 }
    {
        self.here.state.threads.len() as u32
    }

    /// How many Steps were made.
    pub fn steps(&self) -> u64
        ensures { result ≡ (core self.now).steps }
    {
        self.here.steps
    }

    /// What the program has printed.
    pub fn output(&self) -> &[u8]
        ensures value { result.now ≡ (core self.now).state.output }
        ensures legal { IsRun self.now }
    {
        self.here.state.output.as_bytes()
    }

    /// The events so far. They are a legal run.
    pub fn events(&self) -> &EventLog
        ensures value { result.now.items ≡ self.now.events }
        ensures legal { IsRun self.now }
    {
        &self.events
    }

    /// How the run is over, if it is.
    pub fn over(&self) -> Option<End>
        ensures { result ≡ over self.now }
    {
        over(
            &self.settings,
            present(&self.settings, self.here.phase),
            &self.places,
            &self.here,
        )
    }

    /// Whether the thread is live, at no lock that another holds and at no join of another
    /// live thread.
    pub fn able(&self, t: u32) -> bool
        ensures { result ≡ able (core self.now).program (core self.now).state t }
    {
        able(
            present(&self.settings, self.here.phase),
            &self.places,
            &self.here.state,
            t,
        )
    }

    /// Whether the thread is live and stands at an entry, a loop end, a lock or a join.
    pub fn standing(&self, t: u32) -> bool
        ensures { result ≡ standing (core self.now).program (core self.now).state t }
    {
        standing(
            present(&self.settings, self.here.phase),
            &self.places,
            &self.here.state,
            t,
        )
    }

    /// The program that the run began with.
    pub fn program(&self) -> &Lifted
        ensures { result.now ≡ self.now.settings.program }
    {
        &self.settings.program
    }

    /// The patch that is armed.
    pub fn patch(&self) -> Option<&Patch>
        ensures value { option_map (λ p. p.now) result
            ≡ option_map (λ a. a.patch) self.now.settings.armed }
        ensures sound { IfSome result (λ p. Sound p.now.old p.now.new p.now.entries) }
        ensures old_limit { IfSome result (λ p. KeepsLimit p.now.old) }
        ensures new_limit { IfSome result (λ p. KeepsLimit p.now.new) }
    {
        match &self.settings.armed {
            Some(armed) => Some(&armed.patch),
            None => None,
        }
    }

    /// How far the update has come.
    pub fn outcome(&self) -> Outcome
        ensures { result ≡ outcome self.now }
    {
        how_far(&self.settings.armed, self.here.phase)
    }

    /// What the refusal of the update names, as it stood then: of a frame its function and its
    /// place, of an object its struct and 0; zeroes where the reason names neither, or none was
    /// refused.
    pub fn named_at_refusal(&self) -> (u32, u32)
        ensures { result ≡ named_at_refusal self.now }
    {
        self.named
    }

    /// Gives the events and drops all else, with no copy.
    pub fn into_events(self) -> EventLog
        ensures value { result.items ≡ self.events }
        ensures legal { IsRun self }
    {
        let World {
            earlier: _earlier,
            settings: _settings,
            places: _places,
            events,
            here: _here,
            named: _named,
        } = self;
        events
    }

    /// Makes a Step of a thread, as a worker. Where memory is short all stays.
    pub fn turn(&mut self, worker: u32, t: u32) -> Result<(), AllocError>
        requires { IsTrue (may_turn self.old t) }
        ensures ok { OnOk result (self.new ≡ with_event self.old worker (e.Step t)) }
        ensures made { OnOk result (IsMade self.old self.new worker (e.Step t)) }
        ensures core { OnOk result (core self.new ≡ stepped (core self.old) t
            (step (core self.old).program t (core self.old).state)) }
        ensures more { OnOk result ((core self.new).steps ≡ (core self.old).steps + 1) }
        ensures within { OnOk result ((core self.old).steps < self.old.settings.limit) }
        ensures err { OnErr result (self.new ≡ self.old) }
    {
        self.events.reserve(owed(&self.here) + 1)?;
        let alloc = self.events.alloc();
        step(alloc, &self.settings, &self.places, &mut self.here, t)?;
        self.events.push_reserved(Event {
            worker,
            kind: EventKind::Step(t),
        });
        Ok(())
    }
}
