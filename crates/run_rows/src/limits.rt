//! Runs at the limits of files, names and nesting.
use crate::runs::{expect_run, expect_same, run_with};
use lam_io::ByteText;
use std::alloc::Global;
use std::test::Fail;

const FILE_LIMIT: usize = 4_194_304;

/// So many copies of a byte.
fn bytes(alloc: Global, byte: u8, count: usize) -> Result<ByteText, Fail> {
    let mut text = ByteText::new(alloc);
    for _ in 0..count {
        text.push(byte)?;
    }
    Ok(text)
}

/// Runs the query `p` over this text.
fn expect_file(alloc: Global, text: ByteText, wanted: &str) -> Result<(), Fail> {
    let found = run_with(alloc, "run¦--query¦p¦a", Some(text), 0, (0, 0))?;
    expect_same(wanted, found.as_str(), wanted)
}

#[test]
fn files_end_at_the_limit(rt: HostRuntime) -> Result<(), Fail> {
    let alloc = rt.alloc();
    expect_file(alloc, bytes(alloc, b' ', FILE_LIMIT)?, "fault: unknown / 4")?;
    expect_file(
        alloc,
        bytes(alloc, b' ', FILE_LIMIT + 1)?,
        "too long: a / 7",
    )
}

#[test]
fn long_names_and_other_bytes_are_refused(rt: HostRuntime) -> Result<(), Fail> {
    let alloc = rt.alloc();
    let mut name = bytes(alloc, b'b', 256)?;
    name.push(b'.')?;
    expect_file(alloc, name, "refused: a:1:1: name-length / 3")?;
    expect_file(alloc, bytes(alloc, 255, 1)?, "refused: a:1:1: utf8 / 3")
}

/// Runs as many copies of a text, and then another text, as the query.
fn expect_query(
    alloc: Global,
    part: &str,
    count: usize,
    end: &str,
    wanted: &str,
) -> Result<(), Fail> {
    let mut query = String::new(alloc);
    for _ in 0..count {
        query.push_str(part)?;
    }
    query.push_str(end)?;
    expect_run(alloc, "p :- q a. q b.", query.as_str(), wanted)
}

#[test]
fn nesting_ends_at_its_limit(rt: HostRuntime) -> Result<(), Fail> {
    let alloc = rt.alloc();
    expect_query(alloc, "(", 2001, "", "refused: query:1:2001: deep / 3")?;
    expect_query(alloc, "(", 1999, "", "refused: query:1:2000: query / 3")?;
    expect_query(alloc, "p,", 1001, "p", "failure / 1")?;
    expect_query(alloc, "p,", 2000, "p", "failure / 1")?;
    expect_query(alloc, "p,", 2001, "p", "refused: query:1:4002: deep / 3")
}
