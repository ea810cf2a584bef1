//! Histories in short: `3 steps, request, step 0, park 0` in place of a line for each event.
//!
//! `3 steps` are three Steps of thread 0, and `2 steps of 1` two of thread 1. An event stands there
//! without its worker where that is 0.

use std::alloc::{AllocError, Global};

fn put_steps(lines: &mut String, count: &str, thread: &str) -> Result<(), AllocError> {
    for _ in 0..count.parse::<u32>().unwrap_or(0) {
        write!(lines, "0 step {thread}\n")?;
    }
    Ok(())
}

fn put_event(lines: &mut String, event: &str) -> Result<(), AllocError> {
    if let Some((count, thread)) = event.split_once(" steps of ") {
        return put_steps(lines, count, thread);
    }
    if let Some(count) = event.strip_suffix(" steps") {
        return put_steps(lines, count, "0");
    }
    if event.starts_with(|letter: char| letter.is_ascii_digit()) {
        return write!(lines, "{event}\n");
    }
    write!(lines, "0 {event}\n")
}

/// The lines of a history that is told in short.
///
/// # Errors
/// Memory for them.
pub fn listing(alloc: Global, events: &str) -> Result<String, AllocError> {
    let mut lines = String::new(alloc);
    if events.is_empty() {
        return Ok(lines);
    }
    for event in events.split(", ") {
        put_event(&mut lines, event)?;
    }
    Ok(lines)
}

fn put_line(events: &mut String, line: &str) -> Result<(), AllocError> {
    events.push_str(", ")?;
    events.push_str(line.strip_prefix("0 ").unwrap_or(line))
}

/// The events from the Request on, behind the number of those before it; nothing where there is no
/// Request.
///
/// # Errors
/// Memory for the text.
pub(crate) fn asked_events(alloc: Global, history: &str) -> Result<String, AllocError> {
    let mut events = String::new(alloc);
    let mut before: usize = 0;
    for line in history.lines() {
        if line == "0 request" && events.is_empty() {
            write!(events, "{before} steps")?;
        }
        if events.is_empty() {
            before = before.saturating_add(1);
        } else {
            put_line(&mut events, line)?;
        }
    }
    Ok(events)
}
