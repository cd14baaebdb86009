// Each public call once, with ample memory. Expected values are by hand.
use lam_io::{
    ByteText, CleanFiles, CleanSink, FailEntry, FailList, FileEntry, FileFail, FileList, Files,
    HostFiles, HostSink, MemFiles, MemSink, Numbers, Sink, SinkFailed,
};
use std::alloc::Global;
use std::fmt::Display;
use std::test::Fail;
use std::{fs, io};

#[test]
fn keeps_bytes_in_order(rt: HostRuntime) -> Result<(), Fail> {
    let mut text = ByteText::new(rt.alloc());
    text.push(b'a')?;
    text.push_slice(b"bc")?;
    assert_eq!(rt; text.as_slice(), b"abc".as_slice());
    assert_eq!(rt; text.len(), 3);
    let copy = ByteText::from_slice(rt.alloc(), b"abc")?;
    for (bytes, same) in [
        ("abc", true),
        ("ab", false),
        ("abd", false),
        ("abcd", false),
    ] {
        assert_eq!(rt; text.equals(bytes.as_bytes()), same, "{bytes}");
    }
    assert_eq!(rt; text, copy);
    assert_eq!(rt; text.clone()?, copy);
    text.clear();
    assert_ne!(rt; text, copy);
    assert_eq!(rt; text.len(), 0);
    let bytes = copy.into_vec();
    assert_eq!(rt; bytes.as_slice(), b"abc".as_slice());
    assert!(rt; ByteText::from_vec(bytes).equals(b"abc"));
    Ok(())
}

// Three files, of which two have one name.
fn three_files(alloc: Global) -> Result<FileList, Fail> {
    let mut files = FileList::new(alloc);
    for (name, bytes) in [("a", "one"), ("b", ""), ("a", "second")] {
        files.push(FileEntry {
            name: ByteText::from_slice(alloc, name.as_bytes())?,
            bytes: ByteText::from_slice(alloc, bytes.as_bytes())?,
        })?;
    }
    Ok(files)
}

// What a read answered, as text.
fn shown(answer: &Result<ByteText, FileFail>) -> &[u8] {
    match answer {
        Ok(bytes) => bytes.as_slice(),
        Err(FileFail::Missing) => b"missing",
        Err(FileFail::Failed) => b"failed",
        Err(FileFail::TooLong) => b"too long",
        Err(FileFail::Memory) => b"memory",
    }
}

#[test]
fn reads_in_memory_fail_where_listed(rt: HostRuntime) -> Result<(), Fail> {
    let files = three_files(rt.alloc())?;
    assert_eq!(rt; files.len(), 3);
    assert_eq!(rt; files.as_slice().len(), 3);
    let mut failing = Numbers::new(rt.alloc());
    for call in [2, 4, 5] {
        failing.push(call)?;
    }
    assert_eq!(rt; failing.len(), 3);
    assert_eq!(rt; failing.as_slice(), [2, 4, 5].as_slice());
    let mut clean = CleanFiles::new(rt.alloc(), three_files(rt.alloc())?);
    let mut listed = MemFiles::new(rt.alloc(), files, failing);
    // The name and the limit, what the reads answer that never fail, and what those answer whose
    // calls 2, 4 and 5 fail.
    for (name, limit, never, at_calls) in [
        ("a", 3, "one", "one"),
        ("a", 3, "one", "failed"),
        ("a", 2, "too long", "too long"),
        ("a", 2, "too long", "failed"),
        ("c", 3, "missing", "missing"),
        ("c", 0, "missing", "missing"),
        ("b", 0, "", ""),
        ("a", 4, "one", "one"),
    ] {
        let answer = clean.read_file(name, limit);
        assert_eq!(rt; shown(&answer), never.as_bytes(), "{name} {limit}");
        let answer = listed.read_file(name, limit);
        assert_eq!(rt; shown(&answer), at_calls.as_bytes(), "{name} {limit}");
    }
    Ok(())
}

#[test]
fn writes_in_memory_fail_where_listed(rt: HostRuntime) -> Result<(), Fail> {
    let mut failing = FailList::new(rt.alloc());
    for (call, kept) in [(2, 0), (3, 2), (3, 9), (5, 9), (6, 1)] {
        failing.push(FailEntry { call, kept })?;
    }
    assert_eq!(rt; failing.len(), 5);
    assert_eq!(rt; failing.as_slice().len(), 5);
    let mut sink = MemSink::new(rt.alloc(), 8, failing)?;
    assert_eq!(rt; sink.written(), b"".as_slice());
    // A piece, whether it is taken, and what is written then.
    for (piece, taken, written) in [
        ("ab", true, "ab"),
        // Listed, and keeps nothing.
        ("cd", false, "ab"),
        // Listed twice: the first entry counts, and keeps two bytes.
        ("cde", false, "abcd"),
        ("e", true, "abcde"),
        // Listed with more bytes than the piece has.
        ("f", false, "abcdef"),
        // Passes the room, and so keeps nothing, though it is listed with one byte.
        ("ghi", false, "abcdef"),
        // Fills the room.
        ("gh", true, "abcdefgh"),
        ("", true, "abcdefgh"),
        ("i", false, "abcdefgh"),
    ] {
        assert_eq!(rt; sink.write(piece.as_bytes()).is_ok(), taken, "{piece}");
        assert_eq!(rt; sink.written(), written.as_bytes(), "{piece}");
    }
    let mut clean = CleanSink::new();
    assert_eq!(rt; clean.write(b"abc"), Ok(()));
    Ok(())
}

#[test]
fn reads_a_file_of_the_host(rt: HostRuntime) -> Result<(), Fail> {
    const PATH: &str = "lam_io_test_file";
    // More than one read asks for.
    let mut bytes = ByteText::new(rt.alloc());
    for _ in 0..7000 {
        bytes.push_slice(b"0123456789")?;
    }
    fs::write(&rt, PATH, bytes.as_slice())?;
    let mut files = HostFiles::new(&rt);
    let whole = files.read_file(PATH, 70_000)?;
    assert_eq!(rt; whole, bytes);
    for (name, limit, want) in [
        (PATH, 69_999, "too long"),
        ("lam_io_no_file", 70_000, "missing"),
        // A folder opens, and cannot be read.
        (".", 70_000, "failed"),
    ] {
        let answer = files.read_file(name, limit);
        assert_eq!(rt; shown(&answer), want.as_bytes(), "{name} {limit}");
    }
    fs::remove_file(&rt, PATH)?;
    Ok(())
}

// An output that takes at most so many bytes of a piece.
#[derive(Drop)]
struct Narrow {
    most: usize,
}

impl Print for Narrow {
    fn print<D: Display + Drop>(&self, _value: D) -> io::Result<()> {
        Ok(())
    }

    fn println<D: Display + Drop>(&self, _value: D) -> io::Result<()> {
        Ok(())
    }

    fn write_all(&self, _bytes: &[u8]) -> io::Result<()> {
        Ok(())
    }

    fn write_some(&self, bytes: &[u8]) -> io::Result<usize> {
        Ok(bytes.len().min(self.most))
    }
}

#[test]
fn writes_to_the_host(rt: HostRuntime) -> Result<(), Fail> {
    let mut output = HostSink::new(&rt);
    assert_eq!(rt; output.write(b"to the standard output\n"), Ok(()));
    assert_eq!(rt; output.write(b""), Ok(()));
    let narrow = Narrow { most: 2 };
    assert_eq!(rt; HostSink::new(&narrow).write(b"abcde"), Ok(()));
    let full = Narrow { most: 0 };
    assert_eq!(rt; HostSink::new(&full).write(b"a"), Err(SinkFailed));
    assert_eq!(rt; HostSink::new(&full).write(b""), Ok(()));
    Ok(())
}
