//! Rows of single calls.

use crate::call::{Call, Faults, Shown, called};
use crate::compared::compare;
use crate::repeated::{Repeated, text_of};
use crate::table::{Row, Trial, differing_rows};
use crate::tool::Tool;
use std::alloc::{AllocError, Global};

/// A call: its name, the words, the files by their names, and what it comes to.
pub type CallRow<'a> = (&'a str, &'a str, &'a [(&'a str, &'a str)], &'a str);

/// A call in which an access fails: its name, the words, which accesses fail, the files by their
/// names, and what it comes to.
pub type FaultRow<'a> = (&'a str, &'a str, Faults, &'a [(&'a str, &'a str)], &'a str);

/// A call over a long file `a.c`: its name, what the file holds, and what the call comes to.
pub type LongRow<'a> = (&'a str, Repeated<'a>, &'a str);

/// Makes the calls of a table, and tells of those rows that came to something else.
///
/// # Errors
/// Memory for the files, the sinks and the texts.
pub fn differing_calls<T: Tool>(
    alloc: Global,
    tool: &T,
    rows: &[CallRow<'_>],
) -> Result<String, AllocError> {
    let mut differing = String::new(alloc);
    for (name, words, files, wanted) in rows {
        let call = Call {
            words,
            files,
            faults: Faults::NONE,
        };
        let got = called(alloc, tool, &call, Shown::All)?;
        compare(&mut differing, name, wanted, &got)?;
    }
    Ok(differing)
}

/// Makes the calls of a table of faults, and tells of those rows that came to something else.
///
/// # Errors
/// Memory for the files, the sinks and the texts.
pub fn differing_faults<T: Tool>(
    alloc: Global,
    tool: &T,
    rows: &[FaultRow<'_>],
) -> Result<String, AllocError> {
    let mut differing = String::new(alloc);
    for (name, words, faults, files, wanted) in rows {
        let call = Call {
            words,
            files,
            faults: *faults,
        };
        let got = called(alloc, tool, &call, Shown::All)?;
        compare(&mut differing, name, wanted, &got)?;
    }
    Ok(differing)
}

/// What a call over a file `a.c` comes to.
///
/// # Errors
/// Memory for the files, the sinks and the text.
pub fn called_on<T: Tool>(
    alloc: Global,
    tool: &T,
    words: &str,
    source: &str,
    shown: Shown,
) -> Result<String, AllocError> {
    let files = [("a.c", source)];
    let call = Call {
        words,
        files: &files,
        faults: Faults::NONE,
    };
    called(alloc, tool, &call, shown)
}

/// A call with these words over a file `a.c` that holds the text of a row.
#[derive(Drop)]
struct Sourced<'a, T> {
    tool: &'a T,
    words: &'a str,
    shown: Shown,
}

impl<T: Tool> Trial for Sourced<'_, T> {
    fn put(&self, differing: &mut String, alloc: Global, row: &Row<'_>) -> Result<(), AllocError> {
        let wanted = format!(in alloc; "{}\n", row.answer)?;
        let got = called_on(alloc, self.tool, self.words, row.text, self.shown)?;
        compare(differing, row.name, &wanted, &got)
    }
}

/// Makes the call with these words for each source of a table, the text of a row, and tells of
/// those rows that came to something else.
///
/// # Errors
/// Memory for the files, the sinks and the texts.
pub fn differing_sources<T: Tool>(
    alloc: Global,
    tool: &T,
    words: &str,
    shown: Shown,
    table: &str,
) -> Result<String, AllocError> {
    let trial = Sourced { tool, words, shown };
    differing_rows(alloc, &trial, table)
}

/// Makes the call with these words for each long source of a table, and tells of those rows that
/// came to something else.
///
/// # Errors
/// Memory for the files, the sinks and the texts.
pub fn differing_long_sources<T: Tool>(
    alloc: Global,
    tool: &T,
    words: &str,
    rows: &[LongRow<'_>],
) -> Result<String, AllocError> {
    let mut differing = String::new(alloc);
    for (name, source, wanted) in rows {
        let source = text_of(alloc, source)?;
        let got = called_on(alloc, tool, words, &source, Shown::All)?;
        compare(&mut differing, name, wanted, &got)?;
    }
    Ok(differing)
}
