//! The worked rows: the program in `a`, the query, and what is written, each line with a `/` behind it, with the status.
use crate::runs::expect_run;
use elpi_cli::Status;
use std::alloc::Global;
use std::test::Fail;

/// Goals over no program.
const GOALS: &str = "¦ true ¦ answer 1 / no more / 0
¦ fail ¦ failure / 1
¦ true ; true ¦ answer 1 / answer 2 / no more / 0
¦ (true ; true), ! ¦ answer 1 / no more / 0
¦ X = f X ¦ failure / 1
¦ pi x\\ pi y\\ X x y = Y y x ¦ answer 1 /   X = ?0 /   Y = @0\\ @1\\ ?0 @1 @0 / no more / 0
¦ pi x\\ pi y\\ X x y = X y x ¦ answer 1 /   X = @0\\ @1\\ ?0 / no more / 0
¦ (pi x\\ sigma Y\\ X x = f Y), (pi y\\ X y = f Z) ¦ answer 1 /   X = @0\\ f ?0 /   Z = ?0 / no more / 0
¦ pi x\\ X = x ¦ failure / 1
¦ pi x\\ pi y\\ x = y ¦ failure / 1
¦ pi x\\ sigma Y\\ Y = x ¦ answer 1 / no more / 0
¦ sigma Y\\ pi x\\ Y = x ¦ failure / 1
¦ sigma X\\ X = a, Y = f X ¦ answer 1 /   Y = f a / no more / 0
¦ X = (a\\ a), (X b) = c ¦ failure / 1
¦ X = c ; F a = b ¦ answer 1 /   X = c /   F = ?0 / fault: pattern / 4
¦ pi x\\ X = f (Y x) ¦ answer 1 /   X = f ?0 /   Y = @0\\ ?0 / no more / 0
¦ pi x\\ X = F a x ¦ fault: scope / 4
¦ X = (a\\ f a) ¦ answer 1 /   X = f / no more / 0
¦ X = x\\ f x , Y = a ¦ answer 1 /   X = @0\\ (f @0) , (?0 = a) /   Y = ?0 / no more / 0
¦ X = (a\\ f a a), X (b\\ g b b) = c ¦ fault: redex / 4
¦ X = (a\\ f a a), X (g Y) = Z ¦ answer 1 /   X = @0\\ f @0 @0 /   Y = ?0 /   Z = f (g ?0) (g ?0) / no more / 0
¦ X = f Y Z ¦ answer 1 /   X = f ?0 ?1 /   Y = ?0 /   Z = ?1 / no more / 0
¦ X = Y, _Z = X ¦ answer 1 /   X = ?0 /   Y = ?0 / no more / 0
¦ X = a + b * c, Y = (d :- a => b ; c) ¦ answer 1 /   X = a + (b * c) /   Y = d :- ((a => b) ; c) / no more / 0
¦ X = [\"a b\", -7 | Y] ¦ answer 1 /   X = \"a b\" :: (-7 :: ?0) /   Y = ?0 / no more / 0
¦ nope ¦ fault: unknown / 4
¦ G ¦ fault: flex-goal / 4
¦ pi x\\ x ¦ fault: not-goal / 4
¦ 3 ¦ fault: not-goal / 4
¦ p :- p ¦ fault: not-goal / 4";

/// Built-ins, over no program.
const BUILTINS: &str = "¦ beta (x\\ f x x) a R ¦ answer 1 /   R = f a a / no more / 0
¦ beta (x\\ f x x) Y R ¦ answer 1 /   Y = ?0 /   R = f ?0 ?0 / no more / 0
¦ beta F a R ¦ answer 1 /   F = ?0 /   R = ?0 a / no more / 0
¦ X is 2 * 3 - 1 ¦ answer 1 /   X = 5 / no more / 0
¦ 6 is 2 + 3 ¦ failure / 1
¦ X is 9223372036854775807 + 1 ¦ fault: number / 4
¦ X is Y + 1 ¦ fault: number / 4
¦ X is 3, lt X 4 ¦ answer 1 /   X = 3 / no more / 0
¦ lt 4 4 ¦ failure / 1
¦ lt a 1 ¦ fault: number / 4
¦ pi x\\ name x ¦ answer 1 / no more / 0
¦ pi x\\ name (f x) ¦ failure / 1
¦ name a ¦ failure / 1
¦ var X, X = a, var X ¦ failure / 1
¦ var (F a) ¦ answer 1 /   F = ?0 / no more / 0
¦ same X Y ¦ failure / 1
¦ X = Y, same X Y ¦ answer 1 /   X = ?0 /   Y = ?0 / no more / 0
¦ pi x\\ print (f x X) ¦ f #0 ?0 / answer 1 /   X = ?0 / no more / 0
¦ print (f Y), print \"a\", fail ; print Y ¦ f ?0 / \"a\" / ?0 / answer 1 /   Y = ?0 / no more / 0
¦ print a b ¦ fault: arity / 4";

/// Assumptions, `D => G`.
const ASSUMED: &str = "pred h o:t. p :- h a. ¦ (h a => p), h a ¦ failure / 1
pred h o:t. p :- h a. ¦ h a => (p, h a) ¦ answer 1 / no more / 0
p :- h a. ¦ (h a => p), h a ¦ fault: unknown / 4
¦ h a => h b ¦ failure / 1
¦ h a => h b => h X ¦ answer 1 /   X = b / answer 2 /   X = a / no more / 0
¦ (h a, h b) => h X ¦ answer 1 /   X = a / answer 2 /   X = b / no more / 0
h c. ¦ h a => h X ¦ answer 1 /   X = a / answer 2 /   X = c / no more / 0
¦ h X => (h a, h b) ¦ failure / 1
¦ (pi X\\ h X) => (h a, h b) ¦ answer 1 / no more / 0
¦ (h X :- X = a) => h Y ¦ answer 1 /   X = a /   Y = a / no more / 0
pred q o:t. r a. r b. ¦ (Z = 1 ; Z = 2), ((pi X\\ q X :- r X, !) => q Y) ¦ answer 1 /   Z = 1 /   Y = a / answer 2 /   Z = 2 /   Y = a / no more / 0
pred q i:t. ¦ pi c\\ q c => q c ¦ answer 1 / no more / 0
pred q i:t. ¦ pi c\\ q c => q X ¦ failure / 1
¦ D => true ¦ fault: flex-clause / 4
¦ (pi x\\ x) => true ¦ fault: flex-clause / 4
¦ pi x\\ x => true ¦ fault: not-goal / 4
¦ fail => true ¦ fault: not-goal / 4";

/// Programs.
const PROGRAMS: &str = "p a. p b. ¦ p b ¦ answer 1 / no more / 0
p a. p b. ¦ p c ¦ failure / 1
p a. p b. ¦ p X ¦ answer 1 /   X = a / answer 2 /   X = b / no more / 0
p a. p b. ¦ p _X ¦ answer 1 / answer 2 / no more / 0
p :- q, r. q. r. ¦ p ¦ answer 1 / no more / 0
p a. ¦ p ¦ fault: arity / 4
p a. ¦ X = p, X a b ¦ fault: arity / 4
kind t type. type a t. pred p o:t. p a. ¦ p X ¦ answer 1 /   X = a / no more / 0
kind t type. ¦ p X ¦ fault: unknown / 4
pred p o:t. ¦ p X ¦ failure / 1
pred q i:t. q (f A). ¦ q X ¦ failure / 1
pred q o:t. q (f A). ¦ q X ¦ answer 1 /   X = f ?0 / no more / 0
pred q i:t, o:t. q (f A) A. ¦ q (f a) X ¦ answer 1 /   X = a / no more / 0
pred q o:t, i:t. q Y a. q Y b. ¦ q X b ¦ answer 1 /   X = ?0 / no more / 0
pred q o:t. q f. ¦ q (x\\ f (Y x)) ¦ answer 1 /   Y = @0\\ @0 / no more / 0
pred q o:t. q g. q (x\\ f x). q X. ¦ q f ¦ answer 1 / answer 2 / no more / 0
(x\\ p x) a. ¦ p a ¦ answer 1 / no more / 0
p ((x\\ f (X x)) b). ¦ p Y ¦ answer 1 /   Y = f (?0 b) / no more / 0
p (x\\ x). ¦ p F ¦ answer 1 /   F = @0\\ @0 / no more / 0
p true. ¦ p X, X ¦ answer 1 /   X = true / no more / 0
p X X. ¦ pi x\\ p x (F x) ¦ answer 1 /   F = @0\\ @0 / no more / 0
p X :- q Y, X = f Y. q a. ¦ p X ¦ answer 1 /   X = f a / no more / 0
p. p. q. ¦ p, q, p ¦ answer 1 / answer 2 / answer 3 / answer 4 / no more / 0
p. ¦ p ; p ¦ answer 1 / answer 2 / no more / 0
p :- q a, q b. q a. q a. q b. ¦ p, nope b ¦ fault: unknown / 4
p X :- q X. ¦ p a ¦ fault: unknown / 4
p X :- q X a. q b. ¦ p a ¦ fault: arity / 4
pred q o:t. q a. q b. p X :- q X, !. p c. ¦ p X ¦ answer 1 /   X = a / no more / 0
p X :- q X. p c. q a :- !. q b. ¦ p X ¦ answer 1 /   X = a / answer 2 /   X = c / no more / 0
p :- (q, ! ; r). q. r. ¦ p ¦ answer 1 / no more / 0
(p a) :- (q), (r, q). (q) . r. ¦ (p (a)). ¦ answer 1 / no more / 0
pred q o:t. q a. pred ap o:t. ap F :- F a. ¦ ap (x\\ q x, q x) ¦ answer 1 / no more / 0";

/// Suspended goals: which wake and when, and which are left in an answer.
const SUSPENDED: &str =
    "pred s o:t. pred t o:t. s X :- declare_constraint (t X) [X]. t a. ¦ s X, fail ; X = b ¦ answer 1 /   X = b / no more / 0
pred t o:t. pred s o:t. t X :- print X. s X :- declare_constraint (t X) [X]. ¦ s X, s Y, Y = b, X = a ¦ b / a / answer 1 /   X = a /   Y = b / no more / 0
¦ declare_constraint true X ¦ fault: not-goal / 4
pred s o:t. pred t o:t. s X :- declare_constraint (t X) [X]. t a. t b. ¦ s X, (X = a, fail ; X = b) ¦ answer 1 /   X = b / no more / 0
¦ declare_constraint (print 1) [X], declare_constraint (print 2) [X], X = a ¦ 1 / 2 / answer 1 /   X = a / no more / 0
¦ declare_constraint (p X) [X], declare_constraint (q X) [X] ¦ answer 1 /   X = ?0 /   delayed [] [] ?- p ?0 /   delayed [] [] ?- q ?0 / no more / 0
¦ pi x\\ h x => declare_constraint (p x) [Y] ¦ answer 1 /   Y = ?0 /   delayed [#0] [h #0] ?- p #0 / no more / 0
¦ h a => g => declare_constraint p [X] ¦ answer 1 /   X = ?0 /   delayed [] [g; h a] ?- p / no more / 0
¦ (q X :- r X) => declare_constraint (q Y) [Y] ¦ answer 1 /   X = ?0 /   Y = ?1 /   delayed [] [(q ?0) :- (r ?0)] ?- q ?1 / no more / 0
¦ h a => declare_constraint (h Y) [X], X = b ¦ answer 1 /   Y = a /   X = b / no more / 0
¦ declare_constraint fail [] ¦ answer 1 /   delayed [] [] ?- fail / no more / 0
¦ declare_constraint (print 1) [(x\\ x)] ¦ 1 / answer 1 / no more / 0
¦ declare_constraint (print 1) [X, a] ¦ 1 / answer 1 /   X = ?0 / no more / 0
¦ declare_constraint true [X | Y] ¦ fault: not-goal / 4
¦ declare_constraint p [X], fail ; Y = b ¦ answer 1 /   X = ?0 /   Y = b / no more / 0
¦ declare_constraint (print 1) [X], (X = a ; true) ¦ 1 / answer 1 /   X = a / answer 2 /   X = ?0 /   delayed [] [] ?- print 1 / no more / 0
¦ declare_constraint ! [X], (X = a ; X = b) ¦ answer 1 /   X = a / answer 2 /   X = b / no more / 0
¦ declare_constraint (print 2) [X], X = Y, print 1, Y = a ¦ 1 / 2 / answer 1 /   X = a /   Y = a / no more / 0
¦ declare_constraint (p X Y) [X, Y], X = Y ¦ answer 1 /   X = ?0 /   Y = ?0 /   delayed [] [] ?- p ?0 ?0 / no more / 0
¦ declare_constraint (p Y X) [X], Z = f Y ¦ answer 1 /   Y = ?0 /   X = ?1 /   Z = f ?0 /   delayed [] [] ?- p ?0 ?1 / no more / 0
¦ pi x\\ declare_constraint (p (X x) (Y x)) [X x, Y x] ¦ answer 1 /   X = ?0 /   Y = ?1 /   delayed [#0] [] ?- p (?0 #0) (?1 #0) / no more / 0
¦ pi x\\ (declare_constraint (print (X x)) [X x], X = f) ¦ f #0 / answer 1 /   X = f / no more / 0
pred s o:t. s X :- declare_constraint (nope X) [X]. ¦ s X, X = a ¦ fault: unknown / 4";

/// Texts that are refused, and texts beside them that run.
const REFUSED: &str = "p a. p. ¦ p X ¦ refused: a:1:6: S3 / 3
X a. ¦ p ¦ refused: a:1:1: S2 / 3
p (X a). ¦ p ¦ refused: a:1:4: S4 / 3
fail. ¦ p ¦ refused: a:1:1: S5 / 3
pred p i:t. pred p i:t. ¦ p ¦ refused: a:1:18: S1 / 3
p true. ¦ p ) ¦ refused: query:1:3: query / 3
p true. ) ¦ p ) ¦ refused: a:1:9: item / 3
p a ) . ¦ p ¦ refused: a:1:5: clause / 3
p :- ¦ p ¦ refused: a:1:5: clause / 3
kind , type. ¦ p ¦ refused: a:1:6: kind / 3
type p. ¦ p ¦ refused: a:1:7: type / 3
pred p x:t. ¦ p ¦ refused: a:1:8: pred / 3
constraint p { q } ¦ p ¦ refused: a:1:16: constraint / 3
constraint p { rule . } ¦ p ¦ refused: a:1:21: rule / 3
¦ ¦ refused: query:1:1: query / 3
p. /* ¦ p ¦ refused: a:1:4: comment / 3
p a.b. ¦ p ¦ refused: a:1:4: char / 3
p \"abc ¦ p ¦ refused: a:1:3: string / 3
¦ X = 9223372036854775808 ¦ refused: query:1:5: number / 3
p. % no more ¦ p ¦ answer 1 / no more / 0
p X :- declare_constraint (q X) [X]. ¦ r ¦ fault: unknown / 4
p (f declare_constraint). ¦ p X ¦ answer 1 /   X = f declare_constraint / no more / 0
constraint p { } ¦ p ) ¦ refused: query:1:3: query / 3
constraint p { } fail. ¦ p ) ¦ refused: a:1:18: S5 / 3
p :- pi declare_constraint\\ q declare_constraint. q X. ¦ p ¦ answer 1 / no more / 0";

/// Runs each line of a table.
pub(crate) fn expect_rows(alloc: Global, rows: &str) -> Result<(), Fail> {
    for row in rows.lines() {
        let (program, rest) = row.split_once('¦').ok_or("no query")?;
        let (query, wanted) = rest.split_once('¦').ok_or("no output")?;
        expect_run(alloc, program.trim(), query.trim(), wanted.trim())?;
    }
    Ok(())
}

#[test]
fn goals_write_the_rows(rt: HostRuntime) -> Result<(), Fail> {
    expect_rows(rt.alloc(), GOALS)
}

#[test]
fn builtins_write_the_rows(rt: HostRuntime) -> Result<(), Fail> {
    expect_rows(rt.alloc(), BUILTINS)
}

#[test]
fn assumptions_write_the_rows(rt: HostRuntime) -> Result<(), Fail> {
    expect_rows(rt.alloc(), ASSUMED)
}

#[test]
fn programs_write_the_rows(rt: HostRuntime) -> Result<(), Fail> {
    expect_rows(rt.alloc(), PROGRAMS)
}

#[test]
fn suspended_goals_write_the_rows(rt: HostRuntime) -> Result<(), Fail> {
    expect_rows(rt.alloc(), SUSPENDED)
}

#[test]
fn refusals_write_the_rows(rt: HostRuntime) -> Result<(), Fail> {
    expect_rows(rt.alloc(), REFUSED)
}

#[test]
fn lines_and_characters_are_counted(rt: HostRuntime) -> Result<(), Fail> {
    expect_run(rt.alloc(), "p.\nfail.", ")", "refused: a:2:1: S5 / 3")?;
    expect_run(rt.alloc(), "p :- \n ", "p", "refused: a:2:2: clause / 3")?;
    expect_run(rt.alloc(), "p.\nq é $.", "p", "refused: a:2:5: char / 3")?;
    Ok(())
}

#[test]
fn statuses_have_their_numbers(rt: HostRuntime) {
    assert_eq!(rt; Status::Done.number(), 0);
    assert_eq!(rt; Status::Memory.number(), 10);
}
