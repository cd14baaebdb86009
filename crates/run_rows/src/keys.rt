//! Calls by keys: rows of programs and of assumptions, each form of a key by each form of a goal, and a program of many
//! clauses.
use crate::rows::expect_rows;
use crate::runs::{expect_same, run_with};
use lam_io::ByteText;
use std::alloc::Global;
use std::test::Fail;

/// Keys of clauses.
const CLAUSES: &str =
    "pred k o:t, o:t. k a one. k 1 two. k \"a\" three. k (x\\ f x) four. k (x\\ x) five. k X six. ¦ k a Y ¦ answer 1 /   Y = one / answer 2 /   Y = six / no more / 0
pred k o:t, o:t. k a one. k 1 two. k \"a\" three. k (x\\ f x) four. k (x\\ x) five. k X six. ¦ k 1 Y ¦ answer 1 /   Y = two / answer 2 /   Y = six / no more / 0
pred k o:t, o:t. k a one. k 1 two. k \"a\" three. k (x\\ f x) four. k (x\\ x) five. k X six. ¦ k 2 Y ¦ answer 1 /   Y = six / no more / 0
pred k o:t, o:t. k a one. k 1 two. k \"a\" three. k (x\\ f x) four. k (x\\ x) five. k X six. ¦ k \"a\" Y ¦ answer 1 /   Y = three / answer 2 /   Y = six / no more / 0
pred k o:t, o:t. k a one. k 1 two. k \"a\" three. k (x\\ f x) four. k (x\\ x) five. k X six. ¦ k f Y ¦ answer 1 /   Y = four / answer 2 /   Y = six / no more / 0
pred k o:t, o:t. k a one. k 1 two. k \"a\" three. k (x\\ f x) four. k (x\\ x) five. k X six. ¦ k (x\\ f x) Y ¦ answer 1 /   Y = four / answer 2 /   Y = six / no more / 0
pred k o:t, o:t. k a one. k 1 two. k \"a\" three. k (x\\ f x) four. k (x\\ x) five. k X six. ¦ k (f a) Y ¦ answer 1 /   Y = six / no more / 0
pred k o:t, o:t. k a one. k 1 two. k \"a\" three. k (x\\ f x) four. k (x\\ x) five. k X six. ¦ k (x\\ x) Y ¦ answer 1 /   Y = five / answer 2 /   Y = six / no more / 0
pred k o:t, o:t. k a one. k 1 two. k \"a\" three. k (x\\ f x) four. k (x\\ x) five. k X six. ¦ k (x\\ g x x) Y ¦ answer 1 /   Y = six / no more / 0
pred k o:t, o:t. k a one. k 1 two. k \"a\" three. k (x\\ f x) four. k (x\\ x) five. k X six. ¦ k Z Y ¦ answer 1 /   Z = a /   Y = one / answer 2 /   Z = 1 /   Y = two / answer 3 /   Z = \"a\" /   Y = three / answer 4 /   Z = f /   Y = four / answer 5 /   Z = @0\\ @0 /   Y = five / answer 6 /   Z = ?0 /   Y = six / no more / 0
pred k o:t, o:t. k a one. k 1 two. k \"a\" three. k (x\\ f x) four. k (x\\ x) five. k X six. ¦ k ((x\\ f x x) V) Y ¦ fault: redex / 4
pred k o:t, o:t. k a one. k 1 two. k \"a\" three. k (x\\ f x) four. k (x\\ x) five. k X six. ¦ pi c\\ k c Y ¦ answer 1 /   Y = six / no more / 0
pred k i:t, o:t. k X one. k a two. k b three. ¦ pi c\\ k c Y ¦ answer 1 /   Y = one / no more / 0
pred k i:t, o:t. k X one. k a two. k b three. ¦ k b Y ¦ answer 1 /   Y = one / answer 2 /   Y = three / no more / 0
pred k o:t, i:t. k one a. k two b. k three a. ¦ k Y a ¦ answer 1 /   Y = one / answer 2 /   Y = three / no more / 0
pred k o:t. k (f a). k ((x\\ f x) b). ¦ k ((x\\ f x) Y) ¦ answer 1 /   Y = a / answer 2 /   Y = b / no more / 0";

/// Keys of assumptions.
const ASSUMPTIONS: &str =
    "¦ (h a one, h 1 two, h \"a\" three, h (x\\ f x) four, h (x\\ x) five, (pi X\\ h X six)) => h a Y ¦ answer 1 /   Y = one / answer 2 /   Y = six / no more / 0
¦ (h a one, h 1 two, h \"a\" three, h (x\\ f x) four, h (x\\ x) five, (pi X\\ h X six)) => h 1 Y ¦ answer 1 /   Y = two / answer 2 /   Y = six / no more / 0
¦ (h a one, h 1 two, h \"a\" three, h (x\\ f x) four, h (x\\ x) five, (pi X\\ h X six)) => h 2 Y ¦ answer 1 /   Y = six / no more / 0
¦ (h a one, h 1 two, h \"a\" three, h (x\\ f x) four, h (x\\ x) five, (pi X\\ h X six)) => h \"a\" Y ¦ answer 1 /   Y = three / answer 2 /   Y = six / no more / 0
¦ (h a one, h 1 two, h \"a\" three, h (x\\ f x) four, h (x\\ x) five, (pi X\\ h X six)) => h f Y ¦ answer 1 /   Y = four / answer 2 /   Y = six / no more / 0
¦ (h a one, h 1 two, h \"a\" three, h (x\\ f x) four, h (x\\ x) five, (pi X\\ h X six)) => h (x\\ f x) Y ¦ answer 1 /   Y = four / answer 2 /   Y = six / no more / 0
¦ (h a one, h 1 two, h \"a\" three, h (x\\ f x) four, h (x\\ x) five, (pi X\\ h X six)) => h (f a) Y ¦ answer 1 /   Y = six / no more / 0
¦ (h a one, h 1 two, h \"a\" three, h (x\\ f x) four, h (x\\ x) five, (pi X\\ h X six)) => h (x\\ x) Y ¦ answer 1 /   Y = five / answer 2 /   Y = six / no more / 0
¦ (h a one, h 1 two, h \"a\" three, h (x\\ f x) four, h (x\\ x) five, (pi X\\ h X six)) => h (x\\ g x x) Y ¦ answer 1 /   Y = six / no more / 0
¦ (h a one, h 1 two, h \"a\" three, h (x\\ f x) four, h (x\\ x) five, (pi X\\ h X six)) => h Z Y ¦ answer 1 /   Z = a /   Y = one / answer 2 /   Z = 1 /   Y = two / answer 3 /   Z = \"a\" /   Y = three / answer 4 /   Z = f /   Y = four / answer 5 /   Z = @0\\ @0 /   Y = five / answer 6 /   Z = ?0 /   Y = six / no more / 0
¦ (h a one, h 1 two, h \"a\" three, h (x\\ f x) four, h (x\\ x) five, (pi X\\ h X six)) => h ((x\\ f x x) V) Y ¦ fault: redex / 4
¦ pi c\\ ((h a one, h 1 two, h \"a\" three, h (x\\ f x) four, h (x\\ x) five, (pi X\\ h X six)) => h c Y) ¦ answer 1 /   Y = six / no more / 0
¦ pi c\\ ((h a one, h c two) => h c Y) ¦ answer 1 /   Y = two / no more / 0
¦ pi c\\ pi d\\ ((h d one, h c two, h (f d) three, h (c a) four) => h (c Z) Y) ¦ answer 1 /   Z = a /   Y = four / no more / 0
¦ pi c\\ ((pi X\\ h X one) => h c Y) ¦ answer 1 /   Y = one / no more / 0
¦ pi c\\ ((pi X\\ h (X a) one) => h (c a) Y) ¦ fault: pattern / 4
¦ (h a one, h b two, h a three) => h a Y ¦ answer 1 /   Y = one / answer 2 /   Y = three / no more / 0
¦ X = b, ((h X one, h a two) => h b Y) ¦ answer 1 /   X = b /   Y = one / no more / 0
pred h i:t, o:t. h a four. h b five. ¦ (h a one, h b two, h X three) => h a Y ¦ answer 1 /   X = ?0 /   Y = one / answer 2 /   X = ?0 /   Y = four / no more / 0
pred h o:t, i:t. h five b. ¦ (h one a, h two b) => h Y b ¦ answer 1 /   Y = two / answer 2 /   Y = five / no more / 0";

/// Calls with one clause that agrees leave no alternative, and barriers don't count any.
const ALTERNATIVES: &str =
    "pred k i:t, o:t. k a one. k b two. k b three. r Y :- k a Y, !. r nine. ¦ r Y ; Y = ten ¦ answer 1 /   Y = one / answer 2 /   Y = ten / no more / 0
pred k i:t, o:t. k a one. k b two. r Y :- (k a Y ; Y = five). ¦ r Y, true ; Y = six ¦ answer 1 /   Y = one / answer 2 /   Y = five / answer 3 /   Y = six / no more / 0
pred k i:t, o:t. k b two. k a one. k b three. r Y :- k b Y. r four. ¦ r Y ¦ answer 1 /   Y = two / answer 2 /   Y = three / answer 3 /   Y = four / no more / 0
pred k i:t, o:t. k a one. k b two. ¦ declare_constraint ! [X], (Z = 1 ; Z = 2), k a Y, X = c ¦ answer 1 /   X = c /   Z = 1 /   Y = one / answer 2 /   X = c /   Z = 2 /   Y = one / no more / 0
pred k i:t, o:t. k a one. k b two. r :- (h a, h b) => (h a, !). r. h c. ¦ k a Y, r ; Y = six ¦ answer 1 /   Y = one / answer 2 /   Y = six / no more / 0
pred k i:t. k a :- print 1. k b. k c. ¦ k a, k b, fail ; k c ¦ 1 / answer 1 / no more / 0";

/// How many facts the large program has.
const FACTS: usize = 100_000;

/// The fact `n K L` for each K below the number, with L one more, and a loop over them.
fn many_facts(alloc: Global) -> Result<ByteText, Fail> {
    let mut program = String::from_str(alloc, "pred n i:int, o:int.\n")?;
    for k in 0..FACTS {
        let next = k + 1;
        let fact = format!(in alloc; "n {k} {next}.\n")?;
        program.push_str(fact.as_str())?;
    }
    program.push_str("go 100000. go N :- lt N 100000, n N M, go M.")?;
    Ok(ByteText::from_slice(alloc, program.as_bytes())?)
}

#[test]
fn clauses_are_found_by_keys(rt: HostRuntime) -> Result<(), Fail> {
    expect_rows(rt.alloc(), CLAUSES)
}

#[test]
fn assumptions_are_found_by_keys(rt: HostRuntime) -> Result<(), Fail> {
    expect_rows(rt.alloc(), ASSUMPTIONS)
}

#[test]
fn one_candidate_leaves_no_alternative(rt: HostRuntime) -> Result<(), Fail> {
    expect_rows(rt.alloc(), ALTERNATIVES)
}

#[test]
fn many_clauses_are_passed_over(rt: HostRuntime) -> Result<(), Fail> {
    let alloc = rt.alloc();
    let program = many_facts(alloc)?;
    let found = run_with(alloc, "run¦--query¦go 0¦a", Some(program), 0, (0, 0))?;
    expect_same("go 0", found.as_str(), "answer 1 / no more / 0")
}
