//! What becomes of globals: scalars, arrays, pointers, names and types.

mod sources;

use crate::globals::sources::{ARRAYS, OLD, POINTERS, SCALARS};
use crate::tool::Upstare;
use row_calls::{Programs, RowsDiffer, UpdateRow, differing_updates, judged};
use std::alloc::{AllocError, Global};

/// An update of the old program: its name, the new program, the mapping, the output, and the end.
type GlobalRow<'a> = (&'a str, &'a str, &'a str, &'a str, &'a str);

/// `main` and its loop are as they were, so that no row needs a point.
#[rattlefmt::skip]
const ROWS: &[GlobalRow<'static>] = &[
    ("scalars carried by their names",
     SCALARS,
     "",
     "7 8 4 0\n",
     "exit 0 steps 31"),
    ("scalars renamed",
     SCALARS,
     "global first -> third;",
     "2 8 7 0\n",
     "exit 0 steps 31"),
    ("scalars exchanged",
     SCALARS,
     "global first -> second; global second -> first;",
     "8 7 4 0\n",
     "exit 0 steps 31"),
    ("scalars given up",
     SCALARS,
     "global first -> none;",
     "2 8 4 0\n",
     "exit 0 steps 31"),
    ("scalars filled",
     SCALARS,
     "init third = first * 10 + second;",
     "7 8 78 0\n",
     "exit 0 steps 31"),
    ("scalars filled from what they were",
     SCALARS,
     "init first = second; init second = first;",
     "8 7 4 0\n",
     "exit 0 steps 31"),
    ("scalars filled though carried",
     SCALARS,
     "init first = first + 1; init second = first + 1;",
     "8 8 4 0\n",
     "exit 0 steps 31"),
    ("scalars filled though renamed",
     SCALARS,
     "global first -> second; init second = second + first;",
     "2 15 4 0\n",
     "exit 0 steps 31"),
    ("scalars filled by elements and fields",
     SCALARS,
     "init third = a[n + 2] - a[0]; init fourth = head->value * top->right;",
     "7 8 3 30\n",
     "exit 0 steps 31"),
    ("scalars filled by tests of pointers",
     SCALARS,
     "init third = head == NULL; init fourth = !top || head != NULL;",
     "7 8 0 1\n",
     "exit 0 steps 31"),
    ("scalars filled with what wraps",
     SCALARS,
     "init third = 2147483647 + n; init fourth = 1 << 31;",
     "7 8 -2147483648 -2147483648\n",
     "exit 0 steps 31"),
    ("scalars filled with a right operand that isn't reached",
     SCALARS,
     "init third = 0 && 1 / 0; init fourth = 1 || a[9];",
     "7 8 0 1\n",
     "exit 0 steps 31"),
    ("arrays one that shrinks and one that grows",
     ARRAYS,
     "",
     "10 11, 20 21 0 0, 0 0, 0 0\n",
     "exit 0 steps 50"),
    ("arrays renamed",
     ARRAYS,
     "global a -> b; global b -> c;",
     "0 0, 10 11 12 13, 20 0, 0 0\n",
     "exit 0 steps 50"),
    ("arrays exchanged",
     ARRAYS,
     "global a -> b; global b -> a;",
     "20 21, 10 11 12 13, 0 0, 0 0\n",
     "exit 0 steps 50"),
    ("arrays given up",
     ARRAYS,
     "global a -> none;",
     "0 0, 20 21 0 0, 0 0, 0 0\n",
     "exit 0 steps 50"),
    ("arrays in place of a scalar",
     ARRAYS,
     "global first -> c; global a -> first;",
     "0 0, 20 21 0 0, 0 0, 0 0\n",
     "exit 0 steps 50"),
    ("pointers to structs that are there, renamed and gone",
     POINTERS,
     "struct pair -> couple;",
     "0 0 1 1 1 1\n",
     "exit 0 steps 32"),
    ("pointers renamed",
     POINTERS,
     "struct pair -> couple; global head -> second;",
     "1 0 1 1 0 1\n",
     "exit 0 steps 32"),
    ("pointers filled",
     POINTERS,
     r"
struct pair -> couple;
init second = head;
init any = NULL;
init head = NULL;
",
     "1 0 1 1 0 1\n",
     "exit 0 steps 32"),
];

fn differing_global(alloc: Global, row: &GlobalRow<'_>) -> Result<String, AllocError> {
    let (name, new, map, out, end) = row;
    let wanted = format!(in alloc; "{out}err: end {end} target - update done\nstatus 0\n")?;
    let row = UpdateRow {
        name,
        programs: Programs { old: OLD, new, map },
        words: "--at 21",
        plan: "",
        wanted: &wanted,
        events: "21 steps, request, park 0, update, resume 0, step 0",
    };
    differing_updates(alloc, &Upstare, &[row])
}

#[test]
fn globals_are_mapped(rt: HostRuntime) -> Result<(), RowsDiffer> {
    for row in ROWS {
        judged(differing_global(rt.alloc(), row))?;
    }
    Ok(())
}
