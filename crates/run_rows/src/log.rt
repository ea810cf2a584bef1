//! The log of a run's events: what is put behind the others stands there, in each form that it is
//! read in.

use c_tree::{Event, EventKind, Reason, Row};
use event_log::EventLog;
use row_calls::{RowsDiffer, compare, judged};
use std::alloc::{AllocError, Global};
use tree_texts::put_event;

/// Steps at the edge of a word, and one event of each kind.
const EVENTS: [(u32, EventKind); 11] = [
    (0, EventKind::Step(0)),
    (4_095, EventKind::Step(524_287)),
    (4_096, EventKind::Step(0)),
    (0, EventKind::Step(524_288)),
    (7, EventKind::Request),
    (4_294_967_295, EventKind::Step(4_294_967_295)),
    (1, EventKind::Park(2)),
    (1, EventKind::Step(2)),
    (3, EventKind::Update),
    (0, EventKind::Refuse(Reason::Slot(1, 2, 3, 4))),
    (2, EventKind::Resume(5)),
];

const WANTED: &str = "0 step 0, 4095 step 524287, 4096 step 0, 0 step 524288, 7 request, \
    4294967295 step 4294967295, 1 park 2, 1 step 2, 3 update, 0 slot 1 2 3 4, 2 resume 5";

fn filled(alloc: Global) -> Result<EventLog, AllocError> {
    let mut log = EventLog::new(alloc);
    log.reserve(2)?;
    for (worker, kind) in EVENTS {
        log.push(Event { worker, kind })?;
    }
    Ok(log)
}

/// The events one by one.
fn listed(alloc: Global, log: &EventLog) -> Result<String, AllocError> {
    let mut text = String::new(alloc);
    for event in log {
        put_event(&mut text, event)?;
    }
    Ok(text)
}

/// The events by their numbers.
fn numbered(alloc: Global, log: &EventLog) -> Result<String, AllocError> {
    let mut text = String::new(alloc);
    for at in 0..log.len() {
        match log.get(at) {
            Some(event) => put_event(&mut text, event)?,
            None => text.push_str(", none")?,
        }
    }
    if log.get(log.len()).is_some() {
        text.push_str(", and one more")?;
    }
    Ok(text)
}

/// The events of a row.
fn in_row(alloc: Global, row: &Row<Event>) -> Result<String, AllocError> {
    let mut text = String::new(alloc);
    for event in row.as_slice() {
        put_event(&mut text, *event)?;
    }
    Ok(text)
}

/// A thread's Steps, put there at once.
fn put_steps(differing: &mut String, alloc: Global) -> Result<(), AllocError> {
    let mut log = EventLog::new(alloc);
    log.push_steps(1, 2, 3)?;
    log.push_steps(4_096, 2, 2)?;
    compare(
        differing,
        "Steps at once",
        "1 step 2, 1 step 2, 1 step 2, 4096 step 2, 4096 step 2",
        &listed(alloc, &log)?,
    )
}

fn differing_logs(alloc: Global) -> Result<String, AllocError> {
    let mut differing = String::new(alloc);
    let empty = EventLog::new(alloc);
    if !empty.is_empty() {
        differing.push_str("a new log has events")?;
    }
    let log = filled(alloc)?;
    compare(&mut differing, "one by one", WANTED, &listed(alloc, &log)?)?;
    compare(
        &mut differing,
        "by numbers",
        WANTED,
        &numbered(alloc, &log)?,
    )?;
    let row = log.to_row(alloc)?;
    compare(&mut differing, "as a row", WANTED, &in_row(alloc, &row)?)?;
    let again = EventLog::from_row(alloc, &row)?;
    compare(&mut differing, "of a row", WANTED, &listed(alloc, &again)?)?;
    put_steps(&mut differing, alloc)?;
    Ok(differing)
}

#[test]
fn each_event_is_kept(rt: HostRuntime) -> Result<(), RowsDiffer> {
    judged(differing_logs(rt.alloc()))
}
