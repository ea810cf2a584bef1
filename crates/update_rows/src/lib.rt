//! Updates of running programs as whole calls, as tables of rows.
//!
//! A new row belongs in the file of its theme: `moments` has when an update comes, `stacks` what
//! becomes of frames, `splits` frames that become several, `threads` what becomes of threads and
//! mutexes, `globals` and `objects` of data, `reasons` why an update is refused, `schedules` which
//! listings can be followed, `files` the file of the patch and its fellows, `queue` a program of
//! some size. The programs of a theme stand in its `sources`.
#![tactic(auto)]

#[cfg(test)]
mod files;
#[cfg(test)]
mod globals;
#[cfg(test)]
mod moments;
#[cfg(test)]
mod objects;
#[cfg(test)]
mod queue;
#[cfg(test)]
mod reasons;
#[cfg(test)]
mod schedules;
#[cfg(test)]
mod splits;
#[cfg(test)]
mod stacks;
#[cfg(test)]
mod threads;
#[cfg(test)]
mod tool;
