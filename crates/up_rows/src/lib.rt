//! Whole calls of the tool over files and sinks in memory, as tables of rows.
//!
//! A new row belongs in the file of its theme: `checking` has what `check` answers, `lifting` the
//! points of programs and the order of calls, `running` what they print, `memory` the heap and
//! arrays, `input` what they read, `threads` several threads, `histories` files of histories and
//! schedules, `mappings` what comes of a mapping, `patches` the command `patch`, `patch_files`
//! bytes that are no patch, `transforming` transformed programs, `loading` the command `load`,
//! `upgrading` the command `upgrade`, `faults` accesses that fail, `usage` the words; `tables`
//! shows how a table is read.
#![tactic(auto)]

#[cfg(test)]
mod checking;
#[cfg(test)]
mod faults;
#[cfg(test)]
mod histories;
#[cfg(test)]
mod input;
#[cfg(test)]
mod lifting;
#[cfg(test)]
mod loading;
#[cfg(test)]
mod mappings;
#[cfg(test)]
mod memory;
#[cfg(test)]
mod patch_files;
#[cfg(test)]
mod patches;
#[cfg(test)]
mod running;
#[cfg(test)]
mod tables;
#[cfg(test)]
mod threads;
#[cfg(test)]
mod tool;
#[cfg(test)]
mod transforming;
#[cfg(test)]
mod upgrading;
#[cfg(test)]
mod usage;
