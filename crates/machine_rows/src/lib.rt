//! The target machine, each part by its own public calls, as tables of rows.
//!
//! A new row belongs in the file of its subject: `codes` of the codes of programs, which
//! `instructions` tells as text, `stacks` of the stacks on which threads run.
#![tactic(auto)]

#[cfg(test)]
mod codes;
#[cfg(test)]
mod instructions;
#[cfg(test)]
mod stacks;
