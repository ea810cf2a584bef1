//! The verdict on a table, as a test gives it.

use std::alloc::AllocError;
use std::fmt;

/// Why a table does not hold.
#[derive(Drop)]
pub enum RowsDiffer {
    /// Rows came to something else: their names, and both texts of each.
    Rows(String),
    /// There was no memory for the files, the sinks or the texts of a row.
    Memory(AllocError),
}

impl fmt::Debug for RowsDiffer {
    fn fmt<W: fmt::Write>(&self, f: &mut fmt::Formatter<W>) -> fmt::Result {
        match self {
            RowsDiffer::Rows(rows) => f.write_str(rows),
            RowsDiffer::Memory(_) => f.write_str("memory"),
        }
    }
}

/// Whether no row differs.
///
/// # Errors
/// `Rows` where the text of the differing rows is not empty, `Memory` where it could not be had.
pub fn judged(differing: Result<String, AllocError>) -> Result<(), RowsDiffer> {
    match differing {
        Ok(rows) => if rows.is_empty() {
            Ok(())
        } else {
            Err(RowsDiffer::Rows(rows))
        },
        Err(e) => Err(RowsDiffer::Memory(e)),
    }
}
