//! Rows of updates: the patch is made, the old program runs with it, and once more by the history
//! of that run.

use crate::call::{Call, Faults, Shown, called};
use crate::compared::{compare, opened};
use crate::events::{asked_events, listing};
use crate::tool::Tool;
use std::alloc::{AllocError, Global};

/// An old program, a new one, and the mapping between them.
#[derive(Clone, Copy)]
pub struct Programs<'a> {
    pub old: &'a str,
    pub new: &'a str,
    pub map: &'a str,
}

/// An update, and what is wanted of it.
#[derive(Clone, Copy)]
pub struct UpdateRow<'a> {
    pub name: &'a str,
    pub programs: Programs<'a>,
    /// The moment and other options of the run.
    pub words: &'a str,
    /// The option that picks the plan; nothing for turns.
    pub plan: &'a str,
    /// What the run comes to.
    pub wanted: &'a str,
    /// The number of events before the Request, and the events from there on, as far as the row
    /// tells them.
    pub events: &'a str,
}

/// A run by a listing: its name, the options, the listing, and what the run comes to.
pub type ListingRow<'a> = (&'a str, &'a str, &'a str, &'a str);

const PATCH_MADE: &str = "\nstatus 0\nfile p\n";

const RUN: &str = "run c1 --patch p --history h";

/// The file of the patch, behind what the call came to.
fn patched<T: Tool>(
    alloc: Global,
    tool: &T,
    programs: &Programs<'_>,
) -> Result<String, AllocError> {
    let files = [
        ("c1", opened(programs.old)),
        ("c2", opened(programs.new)),
        ("m", opened(programs.map)),
    ];
    let call = Call {
        words: "patch c1 c2 m -o p",
        files: &files,
        faults: Faults::NONE,
    };
    called(alloc, tool, &call, Shown::All)
}

/// The patch behind what the call came to that made it; where it made none, what it came to.
fn patch_in(came_to: &str) -> &str {
    match came_to.split_once(PATCH_MADE) {
        Some((_, patch)) => patch,
        None => came_to,
    }
}

/// Runs the old program `c1` with its patch `p`, an input `i` of three letters and a schedule `s`.
fn ran<'a, T: Tool>(
    alloc: Global,
    tool: &T,
    old: &'a str,
    patch: &'a str,
    schedule: &'a str,
    words: &'a str,
) -> Result<String, AllocError> {
    let files = [("c1", old), ("p", patch), ("i", "xyz"), ("s", schedule)];
    let call = Call {
        words,
        files: &files,
        faults: Faults::NONE,
    };
    called(alloc, tool, &call, Shown::All)
}

/// What a run came to, and the history behind it.
fn parted(came_to: &str) -> (&str, &str) {
    match came_to.split_once("file h\n") {
        Some(parts) => parts,
        None => (came_to, ""),
    }
}

/// Compares what a run came to, and its events as far as they are told.
fn compare_run(
    differing: &mut String,
    alloc: Global,
    row: &UpdateRow<'_>,
    came_to: &str,
) -> Result<(), AllocError> {
    let (outcome, history) = parted(came_to);
    compare(differing, row.name, row.wanted, outcome)?;
    let events = asked_events(alloc, history)?;
    let told = events.get(..row.events.len()).unwrap_or(&events);
    compare(differing, row.name, row.events, told)
}

/// Makes the update by its plan and once more by the history of that run, and compares both.
fn put_update<T: Tool>(
    differing: &mut String,
    alloc: Global,
    tool: &T,
    row: &UpdateRow<'_>,
) -> Result<(), AllocError> {
    let made = patched(alloc, tool, &row.programs)?;
    let patch = patch_in(&made);
    let old = opened(row.programs.old);
    let words = format!(in alloc; "{RUN} {} {}", row.words, row.plan)?;
    let first = ran(alloc, tool, old, patch, "", &words)?;
    compare_run(differing, alloc, row, &first)?;
    let (_, history) = parted(&first);
    let words = format!(in alloc; "{RUN} {} --schedule s", row.words)?;
    let again = ran(alloc, tool, old, patch, history, &words)?;
    compare(differing, row.name, &first, &again)
}

/// Makes the updates of a table, each by its plan and by its history, and tells of those rows that
/// came to something else.
///
/// # Errors
/// Memory for the files, the sinks and the texts.
pub fn differing_updates<T: Tool>(
    alloc: Global,
    tool: &T,
    rows: &[UpdateRow<'_>],
) -> Result<String, AllocError> {
    let mut differing = String::new(alloc);
    for row in rows {
        put_update(&mut differing, alloc, tool, row)?;
    }
    Ok(differing)
}

/// Runs the old program by a listing, and compares: where it ends with status 0, its history is the
/// listing.
fn put_listing<T: Tool>(
    differing: &mut String,
    alloc: Global,
    tool: &T,
    programs: &Programs<'_>,
    row: &ListingRow<'_>,
) -> Result<(), AllocError> {
    let (name, words, events, wanted) = row;
    let made = patched(alloc, tool, programs)?;
    let schedule = listing(alloc, events)?;
    let words = format!(in alloc; "{RUN} {words} --schedule s")?;
    let old = opened(programs.old);
    let came_to = ran(alloc, tool, old, patch_in(&made), &schedule, &words)?;
    let (outcome, history) = parted(&came_to);
    compare(differing, name, wanted, outcome)?;
    let followed = if outcome.ends_with("status 0\n") {
        schedule.as_str()
    } else {
        ""
    };
    compare(differing, name, followed, history)
}

/// Runs the old program by each listing of a table, and tells of those rows that came to something
/// else.
///
/// # Errors
/// Memory for the files, the sinks and the texts.
pub fn differing_listings<T: Tool>(
    alloc: Global,
    tool: &T,
    programs: &Programs<'_>,
    rows: &[ListingRow<'_>],
) -> Result<String, AllocError> {
    let mut differing = String::new(alloc);
    for row in rows {
        put_listing(&mut differing, alloc, tool, programs, row)?;
    }
    Ok(differing)
}
