//! Updates that are made from a number.

use crate::tool::Upstare;
use row_calls::{CallRow, RowsDiffer, differing_calls, judged};

/// What each call comes to, whenever it is made.
#[rattlefmt::skip]
const ROWS: &[CallRow<'static>] = &[
    ("load 1", "load 1", &[], "load 1 steps 99 update done\nnew total 12\nstatus 0\n"),
    ("load 2", "load 2", &[], "load 2 steps 167 update done\nnew total 36\nstatus 0\n"),
    ("load 3", "load 3", &[], "load 3 steps 235 update done\nnew total 72\nstatus 0\n"),
    ("load 10", "load 10", &[], "load 10 steps 711 update done\nnew total 660\nstatus 0\n"),
    ("load 010", "load 010", &[], "load 10 steps 711 update done\nnew total 660\nstatus 0\n"),
    ("load 100", "load 100", &[], "load 100 steps 6831 update done\nnew total 60600\nstatus 0\n"),
];

#[test]
fn loads_are_updated(rt: HostRuntime) -> Result<(), RowsDiffer> {
    for _ in 0..2 {
        judged(differing_calls(rt.alloc(), &Upstare, ROWS))?;
    }
    Ok(())
}
