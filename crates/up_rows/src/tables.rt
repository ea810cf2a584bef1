//! Tables of rows as they are read: which rows are told, and what is no row.

use row_calls::{Row, RowsDiffer, Trial, compare, differing_rows, judged};
use std::alloc::{AllocError, Global};

/// A text comes to itself.
struct Echo;

impl Trial for Echo {
    fn put(&self, differing: &mut String, _alloc: Global, row: &Row<'_>) -> Result<(), AllocError> {
        compare(differing, row.name, row.answer, row.text)
    }
}

const ALIKE: &str = r"
=== one line
a
---
a
=== two lines, of which one is empty
a

---
a

=== nothing
---

";

const ONE_DIFFERS: &str = r"
=== the first
a
---
a
=== the second
b
---
c
d
";

const NO_ANSWER: &str = r"
=== the first
a
--
a
=== the second
b
---
b
";

const NO_NAME: &str = r"
=== the first
a
---
a
==== the second
b
---
b
";

/// What is told of each table.
#[rattlefmt::skip]
const TABLES: &[(&str, &str, &str)] = &[
    ("rows that are alike", ALIKE, ""),
    ("a row that differs", ONE_DIFFERS, "\n\nrow the second\n-- wanted\nc\nd\n-- got\nb\n"),
    ("a row without an answer", NO_ANSWER, "\n\nrow the first\na\n--\na\nhas no answer\n"),
    ("a row whose name does not begin a row", NO_NAME, r"

row the first
-- wanted
a
==== the second
b
---
b
-- got
a
"),
    ("no table", "", "a table that begins with no row\n"),
    ("a text before the first row", "a\n=== b\n---\nc\n", "a table that begins with no row\n"),
];

fn differing_tables(alloc: Global) -> Result<String, AllocError> {
    let mut differing = String::new(alloc);
    for (name, table, told) in TABLES {
        compare(
            &mut differing,
            name,
            told,
            &differing_rows(alloc, &Echo, table)?,
        )?;
    }
    Ok(differing)
}

#[test]
fn tables_are_read_whole(rt: HostRuntime) -> Result<(), RowsDiffer> {
    judged(differing_tables(rt.alloc()))
}
