//! The words of the command line: those that are bad, and options of a search.
use crate::runs::{expect_run, expect_same, expect_words, run_with};
use std::test::Fail;

/// The words, and the index of the bad one.
const WORDS: &str = "⇒ 0
walk ⇒ 0
run ⇒ 1
run¦a ⇒ 2
run¦--query ⇒ 2
run¦--query¦p¦--query¦q¦a ⇒ 3
run¦--query¦--query¦a¦--query¦p ⇒ 4
run¦--step¦5¦--query¦p¦a ⇒ 1
run¦--query¦p¦a¦--path ⇒ 4
run¦--steps ⇒ 2
run¦--steps¦5 ⇒ 3
run¦a¦--answers¦5¦--query ⇒ 5
run¦--steps¦0¦--query¦true ⇒ 2
run¦--steps¦1000000001¦--query¦p¦a ⇒ 2
run¦--steps¦00000000001¦--query¦p¦a ⇒ 2
run¦--steps¦¦--query¦p¦a ⇒ 2
run¦--steps¦5x¦--query¦p¦a ⇒ 2
run¦--steps¦-5¦--query¦p¦a ⇒ 2
run¦--query¦p¦--answers¦1000001¦a ⇒ 4
run¦--query¦p¦--answers¦10000000000¦a ⇒ 4
run¦--steps¦5¦--steps¦5¦--query¦p¦a ⇒ 3
run¦--answers¦1¦--query¦p¦--answers¦1¦a ⇒ 5
run¦--query¦p¦1¦2¦3¦4¦5¦6¦7¦8¦9¦10¦11¦12¦13¦14¦15¦16¦17 ⇒ 19
gen ⇒ 1
gen¦ ⇒ 1
gen¦ten ⇒ 1
gen¦-1 ⇒ 1
gen¦100001 ⇒ 1
gen¦00000000001 ⇒ 1
gen¦--query¦p ⇒ 1
gen¦20¦a ⇒ 2
check ⇒ 1
check¦--query¦a ⇒ 1
check¦a¦--steps ⇒ 2
check¦1¦2¦3¦4¦5¦6¦7¦8¦9¦10¦11¦12¦13¦14¦15¦16¦17 ⇒ 17
certify¦a ⇒ 0";

#[test]
fn bad_words_are_named(rt: HostRuntime) -> Result<(), Fail> {
    for row in WORDS.lines() {
        let (words, index) = row.split_once('⇒').ok_or("no index")?;
        let index = index.trim();
        let found = run_with(rt.alloc(), words.trim(), None, 0, (0, 0))?;
        let wanted = format!(in rt.alloc(); "words: bad word at {index} / 2")?;
        expect_same(words, found.as_str(), wanted.as_str())?;
    }
    Ok(())
}

/// The program in `a`, the words, and what is written.
const OPTIONS: &str = "p a. p b. ⇒ run¦--query¦p X¦--answers¦1¦a ⇒ answer 1 /   X = a / stopped / 0
p a. p b. ⇒ run¦--answers¦2¦--query¦p _¦a ⇒ answer 1 / answer 2 / stopped / 0
p a. p b. ⇒ run¦--answers¦3¦--query¦p _¦a ⇒ answer 1 / answer 2 / no more / 0
p a. p b. ⇒ run¦--answers¦0¦--query¦p _¦a ⇒ answer 1 / answer 2 / no more / 0
p a. p b. ⇒ run¦a¦--answers¦1000000¦--query¦p c ⇒ failure / 1
p :- p. ⇒ run¦--query¦p¦--steps¦100¦a ⇒ out of steps / 5
⇒ run¦--query¦true¦--steps¦3¦a ⇒ answer 1 / no more / 0
⇒ run¦--query¦true¦--steps¦2¦a ⇒ answer 1 / out of steps / 5
⇒ run¦--query¦true¦--steps¦0000000001¦a ⇒ out of steps / 5
⇒ run¦--steps¦1000000000¦--query¦true¦--answers¦1¦a ⇒ answer 1 / stopped / 0
⇒ run¦--steps¦2¦--query¦true¦--answers¦1¦a ⇒ answer 1 / stopped / 0";

#[test]
fn options_bound_a_search(rt: HostRuntime) -> Result<(), Fail> {
    expect_words(rt.alloc(), OPTIONS)
}

#[test]
fn steps_run_out(rt: HostRuntime) -> Result<(), Fail> {
    expect_run(rt.alloc(), "p :- p.", "p", "out of steps / 5")
}
