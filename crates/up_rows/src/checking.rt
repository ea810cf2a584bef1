//! What `check` answers: how many functions, structs, globals and mutexes a program has, or the
//! place and the cause of its first fault.

mod accepted;
mod assigned;
mod calls;
mod file;
mod limits;
mod operators;
mod parts;
mod reading;
mod twice;
mod unknown;

use crate::tool::Upstare;
use row_calls::{
    Row, RowsDiffer, Shown, Trial, called_on, compare, differing_long_sources, differing_rows,
    judged,
};
use std::alloc::{AllocError, Global};

/// What a call comes to that gives this answer: `ok` and the counts, or the offset and the cause.
fn wanted_of(alloc: Global, answer: &str) -> Result<String, AllocError> {
    if answer.starts_with("ok") {
        return format!(in alloc; "{answer}\nstatus 0\n");
    }
    format!(in alloc; "err: source a.c at {answer}\nstatus 2\n")
}

/// The call of `check` over a file that holds the text of a row.
struct Checked;

impl Trial for Checked {
    fn put(&self, differing: &mut String, alloc: Global, row: &Row<'_>) -> Result<(), AllocError> {
        let wanted = wanted_of(alloc, row.answer)?;
        let got = called_on(alloc, &Upstare, "check a.c", row.text, Shown::All)?;
        compare(differing, row.name, &wanted, &got)
    }
}

#[test]
fn accepted_programs_are_counted(rt: HostRuntime) -> Result<(), RowsDiffer> {
    judged(differing_rows(rt.alloc(), &Checked, accepted::ROWS))
}

#[test]
fn faults_of_a_file_are_told(rt: HostRuntime) -> Result<(), RowsDiffer> {
    judged(differing_rows(rt.alloc(), &Checked, file::ROWS))
}

#[test]
fn faults_of_assigned_values_are_told(rt: HostRuntime) -> Result<(), RowsDiffer> {
    judged(differing_rows(rt.alloc(), &Checked, assigned::ROWS))
}

#[test]
fn faults_of_calls_are_told(rt: HostRuntime) -> Result<(), RowsDiffer> {
    judged(differing_rows(rt.alloc(), &Checked, calls::ROWS))
}

#[test]
fn faults_of_operators_are_told(rt: HostRuntime) -> Result<(), RowsDiffer> {
    judged(differing_rows(rt.alloc(), &Checked, operators::ROWS))
}

#[test]
fn faults_of_parts_are_told(rt: HostRuntime) -> Result<(), RowsDiffer> {
    judged(differing_rows(rt.alloc(), &Checked, parts::ROWS))
}

#[test]
fn faults_of_reading_are_told(rt: HostRuntime) -> Result<(), RowsDiffer> {
    judged(differing_rows(rt.alloc(), &Checked, reading::ROWS))
}

#[test]
fn names_declared_twice_are_told(rt: HostRuntime) -> Result<(), RowsDiffer> {
    judged(differing_rows(rt.alloc(), &Checked, twice::ROWS))
}

#[test]
fn unknown_names_are_told(rt: HostRuntime) -> Result<(), RowsDiffer> {
    judged(differing_rows(rt.alloc(), &Checked, unknown::ROWS))
}

#[test]
fn each_limit_is_kept(rt: HostRuntime) -> Result<(), RowsDiffer> {
    judged(differing_long_sources(rt.alloc(), &Upstare, "check a.c", limits::ROWS))
}
