//! The lines that a call tells `err` or prints itself, one function a line. An `Err` is want of
//! memory.

ghost use Rattle.std.specs.Prelude.{◌≡◌, IfOk, string_bytes};
ghost use Rattle.reports.specs.Line as spec;

use crate::cause::{entry_cause, file_cause, read_cause, source_cause};
use crate::trap::trap;
use c_tree::{End, EntryCause, FileCause, ReadCause, SourceCause, Text, Trap};
use std::alloc::{AllocError, Global};

/// The line of want of memory, which is told without taking any.
pub const MEMORY: &[u8] = b"memory\n";

/// The bytes of a line.
fn bytes_of(line: String) -> Text
    ensures { result ≡ string_bytes line }
{
    Text::from_vec(line.into_bytes())
}

/// The words ask for nothing that there is.
pub fn usage(alloc: Global) -> Result<Text, AllocError>
    ensures { IfOk result (λ line. line ≡ spec.usage) }
{
    Ok(bytes_of(String::from_str(alloc, "usage\n")?))
}

/// A file could not be read.
pub fn cannot_read(alloc: Global, name: &str) -> Result<Text, AllocError>
    ensures { IfOk result (λ line. line ≡ spec.cannot_read name.now) }
{
    Ok(bytes_of(format!(in alloc; "cannot read {name}\n")?))
}

/// A file, or the output, could not be written.
pub fn cannot_write(alloc: Global, name: &str) -> Result<Text, AllocError>
    ensures { IfOk result (λ line. line ≡ spec.cannot_write name.now) }
{
    Ok(bytes_of(format!(in alloc; "cannot write {name}\n")?))
}

/// Where a source is refused, `at` bytes from its start.
fn place_of(alloc: Global, name: &str, at: u32) -> Result<String, AllocError>
    ensures { IfOk result (λ line. string_bytes line ≡ spec.place_of name.now at) }
{
    format!(in alloc; "source {name} at {at}: ")
}

/// A source that is refused, `at` bytes from its start.
pub fn refused(alloc: Global, name: &str, at: u32, why: &SourceCause) -> Result<Text, AllocError>
    ensures { IfOk result (λ line. line ≡ spec.refused name.now at why.now) }
{
    let mut line = bytes_of(place_of(alloc, name, at)?);
    source_cause(&mut line, why)?;
    line.append(b"\n")?;
    Ok(line)
}

/// Where a mapping is refused, `at` bytes from its start.
fn map_place(alloc: Global, name: &str, at: u32) -> Result<String, AllocError>
    ensures { IfOk result (λ line. string_bytes line ≡ spec.map_place name.now at) }
{
    format!(in alloc; "map {name} at {at}: ")
}

/// A mapping that is refused, `at` bytes from its start.
pub fn map_refused(alloc: Global, name: &str, at: u32, why: &ReadCause) -> Result<Text, AllocError>
    ensures { IfOk result (λ line. line ≡ spec.map_refused name.now at why.now) }
{
    let mut line = bytes_of(map_place(alloc, name, at)?);
    read_cause(&mut line, why)?;
    line.append(b"\n")?;
    Ok(line)
}

/// A mapping whose entry of this number, from 1, is unsound.
pub fn map_unsound(
    alloc: Global,
    name: &str,
    entry: u32,
    why: EntryCause,
) -> Result<Text, AllocError>
    ensures { IfOk result (λ line. line ≡ spec.map_unsound name.now entry why) }
{
    let why = entry_cause(why);
    Ok(bytes_of(format!(in alloc; "map {name} entry {entry}: {why}\n")?))
}

/// A patch whose file would hold more than it may.
pub fn patch_too_long(alloc: Global, name: &str) -> Result<Text, AllocError>
    ensures { IfOk result (λ line. line ≡ spec.patch_too_long name.now) }
{
    Ok(bytes_of(format!(in alloc; "patch {name} at 4194304: too long\n")?))
}

/// Where a patch is refused, `at` bytes from its start.
fn patch_place(alloc: Global, name: &str, at: u32) -> Result<String, AllocError>
    ensures { IfOk result (λ line. string_bytes line ≡ spec.patch_place name.now at) }
{
    format!(in alloc; "patch {name} at {at}: ")
}

/// A patch that is refused, `at` bytes from its start.
pub fn patch_refused(
    alloc: Global,
    name: &str,
    at: u32,
    why: &FileCause,
) -> Result<Text, AllocError>
    ensures { IfOk result (λ line. line ≡ spec.patch_refused name.now at why.now) }
{
    let mut line = bytes_of(patch_place(alloc, name, at)?);
    file_cause(&mut line, why)?;
    line.append(b"\n")?;
    Ok(line)
}

/// A patch whose old source is another text: how many bytes the two have, and where they differ.
pub fn patch_differs(
    alloc: Global,
    name: &str,
    source: usize,
    old: usize,
    at: usize,
) -> Result<Text, AllocError>
    ensures { IfOk result (λ line. line ≡ spec.patch_differs name.now source old at) }
{
    let line = format!(in alloc;
        "patch {name}: old source {source} bytes, patch {old}, differ at {at}\n"
    )?;
    Ok(bytes_of(line))
}

/// How many bytes a patch has.
pub fn written(alloc: Global, bytes: usize) -> Result<Text, AllocError>
    ensures { IfOk result (λ line. line ≡ spec.written bytes) }
{
    Ok(bytes_of(format!(in alloc; "ok bytes {bytes}\n")?))
}

/// A file that holds more than it may.
pub fn too_long(alloc: Global, name: &str) -> Result<Text, AllocError>
    ensures { IfOk result (λ line. line ≡ spec.too_long name.now) }
{
    Ok(bytes_of(format!(in alloc; "too long {name}\n")?))
}

/// A schedule that is refused at its event of this number, from 1.
pub fn schedule_refused(alloc: Global, name: &str, n: u64) -> Result<Text, AllocError>
    ensures { IfOk result (λ line. line ≡ spec.schedule_refused name.now n) }
{
    Ok(bytes_of(format!(in alloc; "schedule {name} refused at {n}\n")?))
}

/// How much an accepted program has of each kind.
pub fn counts(
    alloc: Global,
    functions: usize,
    structs: usize,
    globals: usize,
    mutexes: usize,
) -> Result<Text, AllocError>
    ensures { IfOk result (λ line. line ≡ spec.counts functions structs globals mutexes) }
{
    let line = format!(in alloc;
        "ok functions {functions} structs {structs} globals {globals} mutexes {mutexes}\n"
    )?;
    Ok(bytes_of(line))
}

/// The end of a program that finished.
fn exit(alloc: Global, code: u8) -> Result<String, AllocError>
    ensures { IfOk result (λ line. string_bytes line ≡ spec.end_words (End.Finished code)) }
{
    format!(in alloc; "end exit {code}")
}

/// The end of a run that was stopped in a thread.
fn trapped(alloc: Global, thread: u32, why: Trap) -> Result<String, AllocError>
    ensures { IfOk result (λ line. string_bytes line ≡ spec.end_words (End.Trapped thread why)) }
{
    let cause = trap(why);
    format!(in alloc; "end trap {cause} thread {thread}")
}

/// How a run ended.
fn end_words(alloc: Global, end: End) -> Result<Text, AllocError>
    ensures { IfOk result (λ line. line ≡ spec.end_words end) }
{
    let words = match end {
        End::Finished(code) => exit(alloc, code)?,
        End::Trapped(thread, why) => trapped(alloc, thread, why)?,
        End::Deadlock => String::from_str(alloc, "end deadlock")?,
        End::Limit => String::from_str(alloc, "end limit")?,
    };
    Ok(bytes_of(words))
}

/// The number of Steps, and that no target code ran.
fn counted(alloc: Global, steps: u64) -> Result<String, AllocError>
    ensures { IfOk result (λ line. string_bytes line ≡ spec.counted steps) }
{
    format!(in alloc; " steps {steps} target - update ")
}

/// The report of a run: its end, its number of Steps, and what came of its update.
pub fn report(alloc: Global, end: End, steps: u64, update: &[u8]) -> Result<Text, AllocError>
    ensures { IfOk result (λ line. line ≡ spec.report end steps update.now) }
{
    let mut line = end_words(alloc, end)?;
    line.append(counted(alloc, steps)?.as_bytes())?;
    line.append(update)?;
    line.append(b"\n")?;
    Ok(line)
}

/// What is printed of a load before its output: its number, its Steps and what came of its update.
pub fn loaded(alloc: Global, n: u32, steps: u64, update: &[u8]) -> Result<Text, AllocError>
    ensures { IfOk result (λ line. line ≡ spec.loaded n steps update.now) }
{
    let mut line = bytes_of(format!(in alloc; "load {n} steps {steps} update ")?);
    line.append(update)?;
    line.append(b"\n")?;
    Ok(line)
}
