//! What the target machine keeps: it does what the source's steps do, each in a turn.
//!
//! The crate has laws alone. Of the code: each jump goes forward, or to where a turn or an
//! unwinding stops; behind an effect nothing can fail up to a mark. Of the machine: its run over
//! events is one, and its turns are never stuck.
#![tactic(auto)]

mod laws;
mod rows;

pub use laws::{
    a_rebuilding_loads, a_run_has_one_target, a_turn_is_a_step, an_unwinding_saves, jumps_stop,
    targets_follow_runs, valid_stacks_are_sound,
};
pub use rows::{
    a_thread_stands, a_turn_is_never_stuck, a_turn_leads_to_a_turn, code_lies_inside,
    effects_arrive,
};
