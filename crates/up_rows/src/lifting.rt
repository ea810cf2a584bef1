//! What programs are lifted to, as their points and runs show it.

mod points;
mod runs;

use crate::tool::Upstare;
use row_calls::{RowsDiffer, Shown, differing_sources, judged};

#[test]
fn calls_are_made_in_order(rt: HostRuntime) -> Result<(), RowsDiffer> {
    let alloc = rt.alloc();
    for (words, rows) in [("points a.c", points::ROWS), ("run a.c", runs::ROWS)] {
        judged(differing_sources(alloc, &Upstare, words, Shown::Output, rows))?;
    }
    Ok(())
}
