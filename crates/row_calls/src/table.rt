//! Tables as one text: a line `=== ` with the name of a row, the lines of its text, a line `---`,
//! and the lines of its answer.
//!
//! Neither text nor answer has its last newline; an answer of nothing is an empty line.
//! One constant is cheaper to prove than as many as a table has parts.

use std::alloc::{AllocError, Global};

/// A row of a table.
#[derive(Clone, Copy)]
pub struct Row<'a> {
    pub name: &'a str,
    pub text: &'a str,
    pub answer: &'a str,
}

/// What the rows of a table are put to.
pub trait Trial {
    /// Puts a row to it, and tells of the row if its text comes to something else than its answer.
    ///
    /// # Errors
    /// Memory for the files, the sinks and the texts.
    fn put(&self, differing: &mut String, alloc: Global, row: &Row<'_>) -> Result<(), AllocError>;
}

/// The row that stands behind `=== `; none if it has no answer.
fn row_of(lines: &str) -> Option<Row<'_>> {
    let (head, answer) = lines.split_once("\n---\n")?;
    let (name, text) = head.split_once('\n').unwrap_or((head, ""));
    Some(Row { name, text, answer })
}

/// Puts each row of a table to a trial, and tells of those that came to something else, and of what
/// is no row.
///
/// # Errors
/// Memory for the files, the sinks and the texts.
pub fn differing_rows<T: Trial>(
    alloc: Global,
    trial: &T,
    table: &str,
) -> Result<String, AllocError> {
    let mut differing = String::new(alloc);
    let Some(rows) = table.strip_prefix("\n=== ") else {
        differing.push_str("a table that begins with no row\n")?;
        return Ok(differing);
    };
    for lines in rows.strip_suffix('\n').unwrap_or(rows).split("\n=== ") {
        match row_of(lines) {
            Some(row) => trial.put(&mut differing, alloc, &row)?,
            None => write!(differing, "\nrow {lines}\nhas no answer\n")?,
        }
    }
    Ok(differing)
}
