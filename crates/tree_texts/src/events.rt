//! Events and kinds of places as text.

use c_tree::{Event, EventKind, PlaceKind, Reason};
use std::alloc::AllocError;

fn put_reason(text: &mut String, reason: Reason) -> Result<(), AllocError> {
    match reason {
        Reason::Unmapped(thread, frame) => write!(text, "unmapped {thread} {frame}"),
        Reason::Held(mutex) => write!(text, "held {mutex}"),
        Reason::Removed(object) => write!(text, "removed {object}"),
        Reason::Check(check, trap) => write!(text, "check {check} {trap}"),
        Reason::Global(global, trap) => write!(text, "global {global} {trap}"),
        Reason::Field(object, field, trap) => write!(text, "field {object} {field} {trap}"),
        Reason::Slot(thread, frame, slot, trap) => {
            write!(text, "slot {thread} {frame} {slot} {trap}")
        }
        Reason::Memory => text.push_str("memory"),
        Reason::Depth(depth) => write!(text, "depth {depth}"),
    }
}

fn put_kind(text: &mut String, kind: EventKind) -> Result<(), AllocError> {
    match kind {
        EventKind::Step(thread) => write!(text, "step {thread}"),
        EventKind::Request => text.push_str("request"),
        EventKind::Park(thread) => write!(text, "park {thread}"),
        EventKind::Update => text.push_str("update"),
        EventKind::Refuse(reason) => put_reason(text, reason),
        EventKind::Resume(thread) => write!(text, "resume {thread}"),
    }
}

/// An event: its worker, what it is, and the numbers that it has; a comma stands before a further
/// one.
///
/// # Errors
/// Memory for the text.
pub fn put_event(text: &mut String, event: Event) -> Result<(), AllocError> {
    if !text.is_empty() {
        text.push_str(", ")?;
    }
    write!(text, "{} ", event.worker)?;
    put_kind(text, event.kind)
}

/// The word of a kind of places.
pub fn kind_word(kind: PlaceKind) -> &'static str {
    match kind {
        PlaceKind::Entry => "entry",
        PlaceKind::LoopEnd => "loop",
        PlaceKind::Block => "block",
        PlaceKind::Call => "call",
        PlaceKind::Plain => "plain",
    }
}
