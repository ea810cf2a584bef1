//! The words for which a source, a mapping or a patch is refused.

ghost use Rattle.std.specs.Prelude.{◌≡◌, ◌++◌, OnOk};
ghost use Rattle.c_tree.specs.declared.cause.FileCause.TheVariants as file;
ghost use Rattle.reports.specs.Line as spec;

use c_tree::{CheckCause, EntryCause, FileCause, LimitKind, ReadCause, SourceCause, Text};
use itoa::Buffer;
use std::alloc::AllocError;

/// Appends the words of a fault of a text to a line.
pub fn read_cause(line: &mut Text, cause: &ReadCause) -> Result<(), AllocError>
    ensures { OnOk result (line.new ≡ line.old ++ spec.read_cause cause.now) }
{
    match cause {
        ReadCause::BadByte => line.append(b"bad byte"),
        ReadCause::BadToken => line.append(b"bad token"),
        ReadCause::Unclosed => line.append(b"unclosed"),
        ReadCause::Unexpected => line.append(b"unexpected"),
        ReadCause::LeftOut(word) => with_word(line, b"left out ", word),
        ReadCause::TooDeep => line.append(b"too deep"),
        ReadCause::TooLong => line.append(b"too long"),
        ReadCause::Literal => line.append(b"literal"),
    }
}

fn with_word(line: &mut Text, cause: &[u8], word: &Text) -> Result<(), AllocError>
    ensures { OnOk result (line.new ≡ line.old ++ (cause.now ++ word.now)) }
{
    line.append(cause)?;
    line.append(word.as_bytes())?;
    Ok(())
}

fn limit(kind: LimitKind) -> &'static [u8]
    ensures { result.now ≡ spec.limit kind }
{
    match kind {
        LimitKind::Functions => b"limit functions 2000",
        LimitKind::Locals => b"limit locals 64",
        LimitKind::ArrayLength => b"limit array 65536",
        LimitKind::GlobalWords => b"limit globals 1000000",
        LimitKind::Places => b"limit places 10000",
        LimitKind::Slots => b"limit slots 128",
    }
}

fn check_cause(line: &mut Text, cause: &CheckCause) -> Result<(), AllocError>
    ensures { OnOk result (line.new ≡ line.old ++ spec.check_cause cause.now) }
{
    match cause {
        CheckCause::Unknown(name) => with_word(line, b"unknown ", name),
        CheckCause::Twice(name) => with_word(line, b"twice ", name),
        CheckCause::BadType => line.append(b"bad type"),
        CheckCause::BadCall => line.append(b"bad call"),
        CheckCause::NoMain => line.append(b"no main"),
        CheckCause::BadMain => line.append(b"bad main"),
        CheckCause::NotInLoop => line.append(b"not in loop"),
        CheckCause::BadStart => line.append(b"bad start"),
        CheckCause::BadInit => line.append(b"bad init"),
        CheckCause::ReturnValue => line.append(b"return value"),
        CheckCause::Limit(kind) => line.append(limit(*kind)),
    }
}

/// Appends the words of a cause to a line.
pub fn source_cause(line: &mut Text, cause: &SourceCause) -> Result<(), AllocError>
    ensures { OnOk result (line.new ≡ line.old ++ spec.source_cause cause.now) }
{
    match cause {
        SourceCause::Read(cause) => read_cause(line, cause),
        SourceCause::Check(cause) => check_cause(line, cause),
        SourceCause::Lift(kind) => line.append(limit(*kind)),
    }
}

/// The words for which an entry of a mapping is unsound.
pub fn entry_cause(cause: EntryCause) -> &'static str
    ensures { result.now ≡ spec.entry_cause cause }
{
    match cause {
        EntryCause::UnknownFunction => "unknown function",
        EntryCause::UnknownPoint => "unknown point",
        EntryCause::KindDiffers => "kind differs",
        EntryCause::CalleeDiffers => "callee differs",
        EntryCause::StartDiffers => "start differs",
        EntryCause::UnknownStruct => "unknown struct",
        EntryCause::UnknownGlobal => "unknown global",
        EntryCause::BadExpr => "bad expression",
        EntryCause::Twice => "twice",
    }
}

/// Appends the words of an unsound entry to a line.
fn unsound_entry(line: &mut Text, number: u32, cause: EntryCause) -> Result<(), AllocError>
    ensures { OnOk result (line.new ≡ line.old ++ spec.file_cause (file.Entry number cause)) }
{
    let mut buffer = Buffer::new();
    line.append(b"entry ")?;
    line.append(buffer.format(number).as_bytes())?;
    line.append(b": ")?;
    line.append(entry_cause(cause).as_bytes())
}

/// Appends the words for which a source of a patch is refused to a line.
fn of_source(line: &mut Text, which: &[u8], cause: &SourceCause) -> Result<(), AllocError>
    ensures { OnOk result (line.new ≡ line.old ++ (which.now ++ spec.source_cause cause.now)) }
{
    line.append(which)?;
    source_cause(line, cause)?;
    Ok(())
}

/// Appends the words for which the bytes of a file are no patch to a line.
pub fn file_cause(line: &mut Text, cause: &FileCause) -> Result<(), AllocError>
    ensures { OnOk result (line.new ≡ line.old ++ spec.file_cause cause.now) }
{
    match cause {
        FileCause::TooLong => line.append(b"too long"),
        FileCause::Short => line.append(b"short"),
        FileCause::BadHead => line.append(b"bad head"),
        FileCause::OldSource(cause) => of_source(line, b"old source: ", cause),
        FileCause::NewSource(cause) => of_source(line, b"new source: ", cause),
        FileCause::Map(cause) => {
            line.append(b"map: ")?;
            read_cause(line, cause)
        }
        FileCause::Entry(number, cause) => unsound_entry(line, *number, *cause),
        FileCause::NotCanonical => line.append(b"not canonical"),
    }
}
