//! Lines and listings worked by hand.

use history::laws::{a_history_lists_its_events, no_text_has_two_listings};
use history::{Listing, history_text, read_schedule};
use row_calls::{RowsDiffer, compare, judged};
use std::alloc::{AllocError, Global};
use tree_texts::{put_event, word};

/// The lines of each kind and each reason, and the event of each: its worker, what it is, and the
/// numbers that it has.
#[rattlefmt::skip]
const LINES: &[(&str, &str)] = &[
    ("0 step 0\n", "0 step 0"),
    ("4294967295 step 4294967295\n", "4294967295 step 4294967295"),
    ("0 request\n", "0 request"),
    ("1 park 10\n", "1 park 10"),
    ("0 update\n", "0 update"),
    ("2 resume 3\n", "2 resume 3"),
    ("0 refuse 1 2 0\n", "0 unmapped 2 0"),
    ("0 refuse 2 7\n", "0 held 7"),
    ("0 refuse 3 12\n", "0 removed 12"),
    ("0 refuse 4 1 0\n", "0 check 1 0"),
    ("0 refuse 5 3 99\n", "0 global 3 99"),
    ("0 refuse 6 12 1 4\n", "0 field 12 1 4"),
    ("0 refuse 7 2 0 5 6\n", "0 slot 2 0 5 6"),
    ("0 refuse 8\n", "0 memory"),
    ("0 refuse 9 63\n", "0 depth 63"),
    ("10 step 100\n", "10 step 100"),
];

/// Bytes that are no line of an event, after two lines or alone.
#[rattlefmt::skip]
const NO_LINES: &[&str] = &[
    "0 step 0\r\n",
    "0 step 0",
    "00 step 0\n",
    "0 step 00\n",
    "0 step 01\n",
    "4294967296 step 0\n",
    "0 step 4294967296\n",
    "99999999999999999999 step 0\n",
    "0  step 0\n",
    "0 step  0\n",
    "0 step 0 \n",
    " 0 step 0\n",
    "0 stop 0\n",
    "0 step\n",
    "0 steps 0\n",
    "0 request 0\n",
    "0 refuse\n",
    "0 refuse 0 1\n",
    "0 refuse 10 1\n",
    "0 refuse 4 1\n",
    "0 refuse 8 0\n",
    "\n",
];

/// The events of a listing, and what is left behind them.
fn listed(alloc: Global, listing: &Listing) -> Result<String, AllocError> {
    let mut text = String::new(alloc);
    for event in &listing.events {
        put_event(&mut text, event)?;
    }
    if !listing.clean {
        text.push_str(", and no line")?;
    }
    Ok(text)
}

/// A line is read as its event, and printed again.
fn put_line(
    differing: &mut String,
    alloc: Global,
    line: &str,
    wanted: &str,
) -> Result<(), AllocError> {
    let listing = read_schedule(alloc, line.as_bytes())?;
    compare(differing, line, wanted, &listed(alloc, &listing)?)?;
    let printed = history_text(alloc, &listing.events)?;
    compare(differing, line, line, word(&printed))
}

/// Bytes that are no line end the listing.
fn put_no_line(differing: &mut String, alloc: Global, rest: &str) -> Result<(), AllocError> {
    let alone = read_schedule(alloc, rest.as_bytes())?;
    compare(differing, rest, ", and no line", &listed(alloc, &alone)?)?;
    let text = format!(in alloc; "0 request\n1 park 2\n{rest}0 update\n")?;
    let listing = read_schedule(alloc, text.as_bytes())?;
    compare(
        differing,
        rest,
        "0 request, 1 park 2, and no line",
        &listed(alloc, &listing)?,
    )
}

fn differing_rows(alloc: Global) -> Result<String, AllocError> {
    let mut differing = String::new(alloc);
    for (line, wanted) in LINES {
        put_line(&mut differing, alloc, line, wanted)?;
    }
    for rest in NO_LINES {
        put_no_line(&mut differing, alloc, rest)?;
    }
    put_line(&mut differing, alloc, "", "")?;
    Ok(differing)
}

#[test]
fn each_line_is_read_and_printed(rt: HostRuntime) -> Result<(), RowsDiffer> {
    no_text_has_two_listings();
    a_history_lists_its_events();
    judged(differing_rows(rt.alloc()))
}
