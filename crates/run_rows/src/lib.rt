//! The events of a plain run, each by its own call, and the log that keeps them, as tables.
#![tactic(auto)]

#[cfg(test)]
mod events;
#[cfg(test)]
mod log;
#[cfg(test)]
mod update;
