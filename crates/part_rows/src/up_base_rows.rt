//! What the forms in memory and over the machine do at stated calls.

use row_calls::{RowsDiffer, compare, judged};
use std::alloc::{AllocError, Global};
use std::io::Write;
use std::test::Fail;
use std::{fs, io};
use up_base::{
    Files, HostFiles, HostSink, MemFiles, MemSink, PutEnd, QuietSink, ReadEnd, Sink, put_all,
};

/// A writer that takes nothing.
#[derive(Drop)]
struct Full;

impl Write for Full {
    fn write(&mut self, _bytes: &[u8]) -> io::Result<usize> {
        Ok(0)
    }

    fn flush(&mut self) -> io::Result<()> {
        Ok(())
    }
}

fn put_read(text: &mut String, read: Result<Vec<u8>, ReadEnd>) -> Result<(), AllocError> {
    match read {
        Ok(bytes) => write!(
            text,
            "{} ",
            std::str::from_utf8(bytes.as_slice()).unwrap_or("?")
        ),
        Err(ReadEnd::Missing) => text.push_str("missing "),
        Err(ReadEnd::TooLong) => text.push_str("too long "),
        Err(ReadEnd::Failed) => text.push_str("read failed "),
        Err(ReadEnd::Memory(e)) => Err(e),
    }
}

fn put_write(text: &mut String, written: Result<(), PutEnd>) -> Result<(), AllocError> {
    match written {
        Ok(()) => text.push_str("written "),
        Err(PutEnd::Failed) => text.push_str("write failed "),
        Err(PutEnd::Memory(e)) => Err(e),
    }
}

fn put_taken(text: &mut String, taken: Result<usize, PutEnd>) -> Result<(), AllocError> {
    match taken {
        Ok(count) => write!(text, "took {count} "),
        Err(PutEnd::Failed) => text.push_str("put failed "),
        Err(PutEnd::Memory(e)) => Err(e),
    }
}

/// Files of which the second and the fourth call fail.
fn memory_files(alloc: Global) -> Result<String, AllocError> {
    let mut text = String::new(alloc);
    let mut files = MemFiles::new([1u64, 3].to_vec(alloc)?);
    files.hold("a", b"abc")?;
    for (name, limit) in [("a", 3), ("a", 3), ("a", 2)] {
        put_read(&mut text, files.read(alloc, name, limit))?;
    }
    put_write(&mut text, files.write("a", b"x"))?;
    put_read(&mut text, files.read(alloc, "b", 9))?;
    put_write(&mut text, files.write("b", b"new"))?;
    for name in ["b", "a"] {
        put_read(&mut text, files.read(alloc, name, 9))?;
    }
    write!(text, "{} {}", files.read_faults(), files.write_faults())?;
    Ok(text)
}

/// A sink with room for five bytes whose second call fails.
fn memory_sink(alloc: Global) -> Result<String, AllocError> {
    let mut text = String::new(alloc);
    let mut sink = MemSink::new([1u64].to_vec(alloc)?, Some(5));
    put_write(&mut text, put_all(&mut sink, b"abc"))?;
    put_taken(&mut text, sink.put(b"d"))?;
    put_taken(&mut text, sink.put(b"def"))?;
    put_write(&mut text, put_all(&mut sink, b"f"))?;
    put_taken(&mut text, sink.put(b""))?;
    text.push_str(std::str::from_utf8(sink.bytes()).unwrap_or("?"))?;
    write!(text, " {}", sink.faults())?;
    Ok(text)
}

/// A sink that takes all, one over a vector, and one over a writer that takes nothing.
fn other_sinks(alloc: Global) -> Result<String, AllocError> {
    let mut text = String::new(alloc);
    let mut quiet = QuietSink::new(alloc);
    put_write(&mut text, put_all(&mut quiet, b"ab"))?;
    put_write(&mut text, put_all(&mut quiet, b"c"))?;
    text.push_str(std::str::from_utf8(quiet.bytes()).unwrap_or("?"))?;
    let mut sink = HostSink::new(Vec::new(alloc));
    text.push_str(" ")?;
    put_write(&mut text, put_all(&mut sink, b"abc"))?;
    write!(text, "{} ", sink.faults())?;
    let mut full = HostSink::new(Full);
    put_taken(&mut text, full.put(b"abc"))?;
    put_taken(&mut text, full.put(b""))?;
    write!(text, "{}", full.faults())?;
    Ok(text)
}

fn differing_rows(alloc: Global) -> Result<String, AllocError> {
    let mut differing = String::new(alloc);
    let wanted = "abc read failed too long write failed missing written new abc 1 1";
    compare(&mut differing, "files", wanted, &memory_files(alloc)?)?;
    let wanted = "written put failed took 2 write failed took 0 abcde 2";
    compare(&mut differing, "a sink", wanted, &memory_sink(alloc)?)?;
    let wanted = "written written abc written 0 put failed took 0 1";
    compare(&mut differing, "other sinks", wanted, &other_sinks(alloc)?)?;
    Ok(differing)
}

#[test]
fn files_and_sinks_in_memory_fail_at_stated_calls(rt: HostRuntime) -> Result<(), RowsDiffer> {
    judged(differing_rows(rt.alloc()))
}

#[test]
fn host_files_count_what_is_not_there(rt: HostRuntime) -> Result<(), Fail> {
    let alloc = rt.alloc();
    let mut text = String::new(alloc);
    let mut files = HostFiles::new(&rt);
    let name = "written_by_a_test";
    put_write(&mut text, files.write(name, b"abc"))?;
    put_read(&mut text, files.read(alloc, name, 3))?;
    put_read(&mut text, files.read(alloc, name, 2))?;
    write!(text, "{} ", files.read_faults())?;
    put_read(&mut text, files.read(alloc, "no/such/file", 9))?;
    put_write(&mut text, files.write("no/such/file", b"x"))?;
    write!(text, "{} {}", files.read_faults(), files.write_faults())?;
    assert_eq!(rt;
        text.as_str(),
        "written abc too long 0 missing write failed 0 1"
    );
    assert!(rt; fs::remove_file(&rt, name).is_ok());
    Ok(())
}
