//! Reads and writes that fail.
use crate::runs::{expect_same, run_with};
use lam_io::ByteText;
use std::alloc::Global;
use std::test::Fail;

/// Two facts.
const FACTS: &str = "p a. p b.";

/// A clause that prints, and a fact.
const PRINTS: &str = "p a :- print b. p b.";

/// Runs the query `p X` over the program, where this read and this write fail, 0 being none, and that write keeps so many
/// bytes.
fn expect_fault(
    alloc: Global,
    program: &str,
    read: u64,
    write: (u64, usize),
    wanted: &str,
) -> Result<(), Fail> {
    let text = ByteText::from_slice(alloc, program.as_bytes())?;
    let found = run_with(alloc, "run¦--query¦p X¦a", Some(text), read, write)?;
    expect_same(wanted, found.as_str(), wanted)
}

#[test]
fn faults_leave_what_was_written(rt: HostRuntime) -> Result<(), Fail> {
    let alloc = rt.alloc();
    expect_fault(alloc, FACTS, 1, (0, 0), "read fault: a / 8")?;
    expect_fault(alloc, FACTS, 1, (1, 0), "9")?;
    expect_fault(alloc, FACTS, 1, (1, 6), "read f 9")?;
    expect_fault(alloc, FACTS, 0, (1, 9), "answer 1 / 9")?;
    expect_fault(alloc, FACTS, 0, (2, 0), "answer 1 /   X = a / 9")?;
    expect_fault(alloc, FACTS, 0, (2, 3), "answer 1 /   X = a / ans 9")?;
    expect_fault(
        alloc,
        FACTS,
        0,
        (3, 3),
        "answer 1 /   X = a / answer 2 /   X = b / no  9",
    )?;
    expect_fault(
        alloc,
        FACTS,
        0,
        (4, 0),
        "answer 1 /   X = a / answer 2 /   X = b / no more / 0",
    )?;
    let found = run_with(alloc, "run¦--query¦p¦a", None, 0, (0, 0))?;
    expect_same("no file", found.as_str(), "missing: a / 6")
}

#[test]
fn printed_lines_are_pieces(rt: HostRuntime) -> Result<(), Fail> {
    let alloc = rt.alloc();
    expect_fault(alloc, PRINTS, 0, (1, 1), "b 9")?;
    expect_fault(alloc, PRINTS, 0, (2, 0), "b / 9")?;
    expect_fault(alloc, PRINTS, 0, (3, 0), "b / answer 1 /   X = a / 9")
}
