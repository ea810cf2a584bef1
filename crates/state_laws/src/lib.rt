//! Every state of a run is valid, and every run keeps to the order of an update.
//!
//! The crate has laws alone. Of states: a program starts in a valid state, each step and each
//! update by a sound patch leads from a valid state to a valid one, and so each state of a run is
//! valid, through an update too. Of runs: which events come when, and what an update or its refusal
//! leaves.
#![tactic(auto)]

mod laws;
mod run_laws;

pub use laws::{
    first_state_is_valid, runs_stay_valid, steps_stay_valid, updates_stay_valid,
    whole_runs_stay_valid,
};
pub use run_laws::{
    a_refused_update_changes_nothing, a_run_keeps_its_counts, an_update_has_this_shape,
    each_plan_has_a_list, parked_threads_stand, the_gate_decides, the_gate_is_never_stuck,
};
