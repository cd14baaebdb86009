//! A run over files and a sink in memory, and what it writes as one line.
use elpi_cli::run;
use lam_io::{ByteText, FailEntry, FailList, FileEntry, FileList, MemFiles, MemSink, Numbers};
use std::alloc::Global;
use std::test::Fail;

/// These words, of which a bar stands between two.
fn words_of(alloc: Global, line: &str) -> Result<Vec<String>, Fail> {
    let mut words = Vec::new(alloc);
    if !line.is_empty() {
        for word in line.split('¦') {
            words.push(String::from_str(alloc, word)?)?;
        }
    }
    Ok(words)
}

/// The files of a line: a name, a colon and a text for each, of which a bar stands between two.
fn files_of(alloc: Global, line: &str) -> Result<FileList, Fail> {
    let mut files = FileList::new(alloc);
    if !line.is_empty() {
        for file in line.split('¦') {
            let (name, text) = file.split_once(':').ok_or("no name")?;
            files.push(FileEntry {
                name: ByteText::from_slice(alloc, name.trim().as_bytes())?,
                bytes: ByteText::from_slice(alloc, text.trim().as_bytes())?,
            })?;
        }
    }
    Ok(files)
}

/// The file `a`, where there is one.
fn one_file(alloc: Global, bytes: Option<ByteText>) -> Result<FileList, Fail> {
    let mut files = FileList::new(alloc);
    if let Some(bytes) = bytes {
        files.push(FileEntry {
            name: ByteText::from_slice(alloc, b"a")?,
            bytes,
        })?;
    }
    Ok(files)
}

/// The bytes with ` / ` for each line's end, and the number of the status behind them.
fn shown(alloc: Global, bytes: &[u8], status: u8) -> Result<String, Fail> {
    let mut text = String::new(alloc);
    for line in str::from_utf8(bytes)?.split_inclusive('\n') {
        match line.strip_suffix('\n') {
            Some(whole) => {
                text.push_str(whole)?;
                text.push_str(" / ")?;
            }
            None => {
                text.push_str(line)?;
                text.push_str(" ")?;
            }
        }
    }
    let number = format!(in alloc; "{status}")?;
    text.push_str(number.as_str())?;
    Ok(text)
}

/// What the words write over the file `a`, with their status. The read and the write with these numbers fail, 0 being
/// none, and that write keeps so many bytes.
pub(crate) fn run_with(
    alloc: Global,
    line: &str,
    file: Option<ByteText>,
    read: u64,
    write: (u64, usize),
) -> Result<String, Fail> {
    let files = one_file(alloc, file)?;
    run_over(alloc, line, files, read, write)
}

/// The same over these files.
fn run_over(
    alloc: Global,
    line: &str,
    files: FileList,
    read: u64,
    write: (u64, usize),
) -> Result<String, Fail> {
    let words = words_of(alloc, line)?;
    let mut failing = Numbers::new(alloc);
    failing.push(read)?;
    let mut files = MemFiles::new(alloc, files, failing);
    let mut failing = FailList::new(alloc);
    let (call, kept) = write;
    failing.push(FailEntry { call, kept })?;
    let mut sink = MemSink::new(alloc, 4096, failing)?;
    let status = run(alloc, words.as_slice(), &mut files, &mut sink);
    shown(alloc, sink.written(), status.number())
}

/// Fails with the name of the case and what was shown, where that isn't what is wanted.
pub(crate) fn expect_same(case: &str, shown: &str, wanted: &str) -> Result<(), Fail> {
    if shown == wanted {
        Ok(())
    } else {
        Err(Fail::new(format_args!("{case}: {shown}")))
    }
}

/// Fails where a row of the table doesn't write what it wants: a program, which stands in `a`, the words, and the output with
/// the status.
pub(crate) fn expect_words(alloc: Global, table: &str) -> Result<(), Fail> {
    for row in table.lines() {
        let (program, rest) = row.split_once('⇒').ok_or("no words")?;
        let (words, wanted) = rest.split_once('⇒').ok_or("no output")?;
        let text = ByteText::from_slice(alloc, program.trim().as_bytes())?;
        let found = run_with(alloc, words.trim(), Some(text), 0, (0, 0))?;
        expect_same(words, found.as_str(), wanted.trim())?;
    }
    Ok(())
}

/// Fails where the query over the program in `a` doesn't write what is wanted, with its status.
pub(crate) fn expect_run(
    alloc: Global,
    program: &str,
    query: &str,
    wanted: &str,
) -> Result<(), Fail> {
    let line = format!(in alloc; "run¦--query¦{query}¦a")?;
    let text = ByteText::from_slice(alloc, program.as_bytes())?;
    let found = run_with(alloc, line.as_str(), Some(text), 0, (0, 0))?;
    expect_same(program, found.as_str(), wanted)
}

/// Fails where these words over the files of a line don't write what is wanted, with their status, when the read and the
/// write with these numbers fail.
pub(crate) fn expect_over(
    alloc: Global,
    files: &str,
    words: &str,
    read: u64,
    write: (u64, usize),
    wanted: &str,
) -> Result<(), Fail> {
    let files = files_of(alloc, files)?;
    let found = run_over(alloc, words, files, read, write)?;
    expect_same(words, found.as_str(), wanted)
}
