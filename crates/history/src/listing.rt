//! What a schedule lists.

ghost use Rattle.std.specs.Prelude.{IfOk};
ghost use Rattle.history.specs.Listing.{IsListing};

use crate::line::take_line;
use event_log::EventLog;
use std::alloc::{AllocError, Global};

/// The events of the lines up to the first that isn't an event's line.
#[derive(Drop)]
pub struct Listing {
    pub events: EventLog,
    /// Whether each line is an event's, the last with its newline.
    pub clean: bool,
}

/// The listing of the bytes of a schedule.
///
/// # Errors
///
/// Where the memory for the events is wanting.
pub fn read_schedule(alloc: Global, bytes: &[u8]) -> Result<Listing, AllocError>
    ensures { IfOk result (λ l. IsListing bytes.now l.events.items l.clean) }
{
    let mut events = EventLog::new(alloc);
    let mut rest = bytes;
    while let Some((event, more)) = take_line(rest) {
        events.push(event)?;
        rest = more;
    }
    let clean = rest.is_empty();
    Ok(Listing { events, clean })
}
