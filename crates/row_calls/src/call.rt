//! One call of a tool, and the text of what it comes to.

use crate::compared::opened;
use crate::tool::Tool;
use std::alloc::{AllocError, Global};
use up_base::{Files, MemFiles, MemSink};

/// Which accesses fail, each counted from 0; none where the number is.
#[derive(Clone, Copy)]
pub struct Faults {
    /// The read or write of a file that fails, both counted together.
    pub file: Option<u64>,
    /// As many bytes as the output takes.
    pub room: Option<u64>,
    /// The put to `err` that fails.
    pub err: Option<u64>,
}

impl Faults {
    /// Nothing fails.
    pub const NONE: Faults = Faults {
        file: None,
        room: None,
        err: None,
    };
}

/// What the text of a call tells.
#[derive(Clone, Copy)]
pub enum Shown {
    /// The output, the lines of `err` and the status.
    All,
    /// The output and the status.
    Output,
}

/// What is called: the words with blanks between them, and the files by their names.
#[derive(Clone, Copy)]
pub struct Call<'a> {
    pub words: &'a str,
    pub files: &'a [(&'a str, &'a str)],
    pub faults: Faults,
}

fn words_of(alloc: Global, words: &str) -> Result<Vec<String>, AllocError> {
    let mut list = Vec::new(alloc);
    for word in words.split_whitespace() {
        list.push(String::from_str(alloc, word)?)?;
    }
    Ok(list)
}

fn numbers_of(alloc: Global, number: Option<u64>) -> Result<Vec<u64>, AllocError> {
    let mut list = Vec::new(alloc);
    if let Some(number) = number {
        list.push(number)?;
    }
    Ok(list)
}

fn shelf_of(alloc: Global, call: &Call<'_>) -> Result<MemFiles, AllocError> {
    let mut shelf = MemFiles::new(numbers_of(alloc, call.faults.file)?);
    for (name, text) in call.files {
        shelf.hold(name, opened(text).as_bytes())?;
    }
    Ok(shelf)
}

/// What the output took; a line that was cut ends in `%`.
fn put_output(text: &mut String, bytes: &[u8]) -> Result<(), AllocError> {
    let out = std::str::from_utf8(bytes).unwrap_or("no text");
    text.push_str(out)?;
    if out.is_empty() || out.ends_with('\n') {
        return Ok(());
    }
    text.push_str("%\n")
}

fn put_line(text: &mut String, bytes: &[u8]) -> Result<(), AllocError> {
    let line = std::str::from_utf8(bytes).unwrap_or("no text");
    if line.is_empty() {
        return Ok(());
    }
    text.push_str("err: ")?;
    text.push_str(line)
}

fn is_given(given: &[(&str, &str)], name: &str) -> bool {
    given.iter().any(|(other, _)| *other == name)
}

/// The file of this name as the call left it, where it is there.
fn put_file(
    text: &mut String,
    alloc: Global,
    files: &mut MemFiles,
    name: &str,
) -> Result<(), AllocError> {
    match files.read(alloc, name, u64::MAX) {
        Ok(bytes) => {
            write!(text, "file {name}\n")?;
            text.push_str(std::str::from_utf8(bytes.as_slice()).unwrap_or("no text"))
        }
        Err(_) => Ok(()),
    }
}

/// The given file as the call left it, where it holds something else.
fn put_change(
    text: &mut String,
    alloc: Global,
    files: &mut MemFiles,
    name: &str,
    given: &str,
) -> Result<(), AllocError> {
    match files.read(alloc, name, u64::MAX) {
        Ok(bytes) if bytes.as_slice() == given.as_bytes() => Ok(()),
        _ => put_file(text, alloc, files, name),
    }
}

/// The files that the call made or changed.
fn put_files(
    text: &mut String,
    alloc: Global,
    files: &mut MemFiles,
    given: &[(&str, &str)],
) -> Result<(), AllocError> {
    for (name, was) in given {
        put_change(text, alloc, files, name, opened(was))?;
    }
    for name in ["h", "p"] {
        if !is_given(given, name) {
            put_file(text, alloc, files, name)?;
        }
    }
    Ok(())
}

/// Makes the call, and tells what it comes to: what the output took, `err: ` and the line of `err`,
/// `status` and the number, and each file that it changed, or made under the name `h` or `p`,
/// behind `file` and its name.
///
/// # Errors
/// Memory for the files, the sinks and the text; want of memory within the call is a status.
pub fn called<T: Tool>(
    alloc: Global,
    tool: &T,
    call: &Call<'_>,
    shown: Shown,
) -> Result<String, AllocError> {
    let mut files = shelf_of(alloc, call)?;
    let mut out = MemSink::new(Vec::new(alloc), call.faults.room);
    let mut err = MemSink::new(numbers_of(alloc, call.faults.err)?, None);
    let words = words_of(alloc, call.words)?;
    let status = tool.call(alloc, &words, &mut files, &mut out, &mut err);
    let mut text = String::new(alloc);
    put_output(&mut text, out.bytes())?;
    if matches!(shown, Shown::All) {
        put_line(&mut text, err.bytes())?;
    }
    write!(text, "status {status}\n")?;
    put_files(&mut text, alloc, &mut files, call.files)?;
    Ok(text)
}
