//! Why an update is refused: each reason, each trap, and which of two reasons is told.

mod each;
mod pairs;
mod sources;
mod traps;
mod unmapped;

use crate::reasons::sources::{NEW, OLD};
use crate::tool::Upstare;
use row_calls::{
    Programs, Row, RowsDiffer, Trial, UpdateRow, differing_rows, differing_updates, judged,
};
use std::alloc::{AllocError, Global};

/// The event of the outcome, and what the run comes to: it is made, or refused for a reason, after
/// which the old program goes on as it was.
fn wanted_of(alloc: Global, answer: &str) -> Result<(String, String), AllocError> {
    match answer.split_once(": ") {
        Some((reason, told)) => Ok((
            format!(in alloc; "refuse {reason}")?,
            format!(in alloc;
                "old 9\nerr: end exit 0 steps 95 target - update refused: {told}\nstatus 0\n"
            )?,
        )),
        None => Ok((
            String::from_str(alloc, "update")?,
            format!(in alloc;
                "new 9\nerr: end exit 0 steps 95 target - update {answer}\nstatus 0\n"
            )?,
        )),
    }
}

/// The update by the mapping that is the text of a row.
struct Refused;

impl Trial for Refused {
    fn put(&self, differing: &mut String, alloc: Global, row: &Row<'_>) -> Result<(), AllocError> {
        let (event, wanted) = wanted_of(alloc, row.answer)?;
        let events = format!(in alloc;
            "45 steps, request, park 1, step 0, park 0, {event}, resume 0, resume 1, step 1"
        )?;
        let row = UpdateRow {
            name: row.name,
            programs: Programs {
                old: OLD,
                new: NEW,
                map: row.text,
            },
            words: "--at 45",
            plan: "",
            wanted: &wanted,
            events: &events,
        };
        differing.push_str(&differing_updates(alloc, &Upstare, &[row])?)
    }
}

#[test]
fn the_first_reason_is_told(rt: HostRuntime) -> Result<(), RowsDiffer> {
    for table in [each::ROWS, pairs::ROWS, traps::ROWS] {
        judged(differing_rows(rt.alloc(), &Refused, table))?;
    }
    Ok(())
}

#[test]
fn frames_without_a_map_are_told(rt: HostRuntime) -> Result<(), RowsDiffer> {
    judged(differing_updates(rt.alloc(), &Upstare, unmapped::ROWS))
}
