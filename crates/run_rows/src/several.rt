//! Runs over several files, or none: what the files say together, and which refusal is the first.
use crate::runs::expect_over;
use std::test::Fail;

/// The files, the words, and what is written.
const FILES: &str =
    "a: p a. ¦ b: p b. ⇒ run¦--query¦p X¦a¦b ⇒ answer 1 /   X = a / answer 2 /   X = b / no more / 0
a: p a. ¦ b: p b. ⇒ run¦b¦--query¦p X¦a ⇒ answer 1 /   X = b / answer 2 /   X = a / no more / 0
a: p a. ⇒ run¦a¦--query¦p X¦a ⇒ answer 1 /   X = a / answer 2 /   X = a / no more / 0
a: p :- q. ¦ b: q :- r. ¦ c: r. ⇒ run¦--query¦p¦a¦b¦c ⇒ answer 1 / no more / 0
a: p X :- q X. ¦ b: pred q i:t. q a. ⇒ run¦--query¦p X¦a¦b ⇒ failure / 1
⇒ run¦--query¦true ⇒ answer 1 / no more / 0
⇒ run¦--query¦p ⇒ fault: unknown / 4
a: p. ⇒ run¦--query¦p¦a¦a¦a¦a¦a¦a¦a¦a¦a¦a¦a¦a¦a¦a¦a¦a ⇒ answer 1 / answer 2 / answer 3 / answer 4 / answer 5 / answer 6 / answer 7 / answer 8 / answer 9 / answer 10 / answer 11 / answer 12 / answer 13 / answer 14 / answer 15 / answer 16 / no more / 0
a: p. ⇒ run¦--query¦p¦a¦b ⇒ missing: b / 6
a: p ) ¦ b: p. ⇒ run¦--query¦p¦a¦c¦b ⇒ missing: c / 6
a: p ) ¦ b: p ) ⇒ run¦--query¦p )¦a¦b ⇒ refused: a:1:3: clause / 3
a: p. ¦ b: p ) ⇒ run¦--query¦p )¦a¦b ⇒ refused: b:1:3: clause / 3
a: fail. ¦ b: p $. ⇒ run¦--query¦p )¦a¦b ⇒ refused: b:1:3: char / 3
a: p a. ¦ b: p. ⇒ run¦--query¦p )¦a¦b ⇒ refused: b:1:1: S3 / 3
a: p a. ¦ b: p. ⇒ run¦--query¦p )¦b¦a ⇒ refused: a:1:1: S3 / 3
a: pred p i:t. ¦ b: pred p i:t. ⇒ run¦--query¦p a¦a¦b ⇒ refused: b:1:6: S1 / 3
a: pred p i:t. ¦ b: pred p i:t. ⇒ run¦--query¦p a¦b¦a ⇒ refused: a:1:6: S1 / 3
a: p a. ¦ b: p b. ⇒ run¦--query¦p )¦a¦b ⇒ refused: query:1:3: query / 3
a: p. ¦ b: constraint q { } ¦ c: constraint r { } ⇒ run¦--query¦p¦a¦b¦c ⇒ answer 1 / no more / 0";

#[test]
fn several_files_are_one_program(rt: HostRuntime) -> Result<(), Fail> {
    for row in FILES.lines() {
        let (files, rest) = row.split_once('⇒').ok_or("no words")?;
        let (words, wanted) = rest.split_once('⇒').ok_or("no output")?;
        expect_over(
            rt.alloc(),
            files.trim(),
            words.trim(),
            0,
            (0, 0),
            wanted.trim(),
        )?;
    }
    Ok(())
}

#[test]
fn a_later_read_may_fail(rt: HostRuntime) -> Result<(), Fail> {
    let alloc = rt.alloc();
    let (files, words) = ("a: p a. ¦ b: p b.", "run¦--query¦p X¦a¦b");
    expect_over(alloc, files, words, 2, (0, 0), "read fault: b / 8")?;
    expect_over(alloc, files, words, 2, (1, 0), "9")?;
    expect_over(alloc, "a: p a.", words, 2, (0, 0), "missing: b / 6")
}

#[test]
fn the_sample_names_no_file(rt: HostRuntime) -> Result<(), Fail> {
    let alloc = rt.alloc();
    expect_over(
        alloc,
        "",
        "gen¦20",
        1,
        (0, 0),
        "20 / nat / answer 1 /   T = app (app id nat) (app s (app (app id nat) ?0)) /   delayed [] [] ?- of ?0 nat / stopped / 0",
    )
}
