//! A part of a run that came before the present one.

use c_tree::Settings;
use event_log::EventLog;
use std::marker::Model;

/// What an earlier part of a run was given, and its events. Contracts see these as a list.
///
/// The present part goes on where the earlier ones have led, by other settings.
pub struct Part {
    pub settings: Settings,
    pub events: EventLog,
}

impl Drop for Part {
    fn drop(self) {
        let Part {
            settings: _,
            events: _,
        } = self;
    }
}

impl Model for Part {
    ghost use Rattle.world_core.specs.Part as seen;
    ghost use Rattle.std.specs.Coded.{codes};
    ghost use Rattle.c_tree.specs.contracts.run.Settings as given;

    ghost Value = { seen.Part };

    ghost coded = { Prim.hlevel (codes, given.the_row.coded) };

    ghost view = { λ p. record { settings = p.settings; events = p.events.items } };
}
