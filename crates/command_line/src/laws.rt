//! What holds of whatever the words ask for: each function is the proof of what it promises.

ghost use Rattle.command_line.specs.Laws as laws;

/// In what is asked for as a run, the steps lie from 1 to 10,000,000, a seed is below 2^64, a seed
/// and a schedule are not both there, and an update comes after 10,000,000 steps at most. What is
/// asked for as a load lies from 1 to 1000.
pub fn command_is_fair_law()
    ensures { laws.CommandIsFair }
{}
