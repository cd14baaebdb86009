//! The programs of `examples`, and what queries over them write, each line with a `/` behind it, with the status.
use crate::runs::expect_run;
use std::alloc::Global;
use std::test::Fail;

/// `lists.lp`.
const LISTS: &str =
    "% Lists. No predicate is declared, so that each argument may be an input or an output.
append [] Ys Ys.
append (X :: Xs) Ys (X :: Zs) :- append Xs Ys Zs.

reverse Xs Ys :- shunt Xs [] Ys.
shunt [] Ys Ys.
shunt (X :: Xs) Ys Zs :- shunt Xs (X :: Ys) Zs.

member X (X :: _).
member X (_ :: Xs) :- member X Xs.

% `map P Xs Ys`: P holds of each element of Xs with that of Ys.
map P [] [].
map P (X :: Xs) (Y :: Ys) :- P X Y, map P Xs Ys.";

/// Queries over it.
const LISTS_ROWS: &str =
    "append [a, b] [c] Zs ¦ answer 1 /   Zs = a :: (b :: (c :: [])) / no more / 0
append Xs Ys [a] ¦ answer 1 /   Xs = [] /   Ys = a :: [] / answer 2 /   Xs = a :: [] /   Ys = [] / no more / 0
append Xs [b] [a] ¦ failure / 1
reverse [a, b, c] Xs ¦ answer 1 /   Xs = c :: (b :: (a :: [])) / no more / 0
member X [a, b] ¦ answer 1 /   X = a / answer 2 /   X = b / no more / 0
member a Xs, ! ¦ answer 1 /   Xs = a :: ?0 / no more / 0
map reverse [[a, b], []] Xs ¦ answer 1 /   Xs = (b :: (a :: [])) :: ([] :: []) / no more / 0
map (x\\ y\\ y = f x) [a] Xs ¦ fault: redex / 4
map append [] Xs ¦ answer 1 /   Xs = [] / no more / 0
map nope [a] Xs ¦ fault: unknown / 4";

/// `numbers.lp`.
const NUMBERS: &str = "% Integers, cut and printed lines.
pred factorial i:int, o:int.
factorial 0 1 :- !.
factorial N F :- lt 0 N, M is N - 1, factorial M G, F is N * G.

pred down i:int.
down N :- lt N 0, !.
down N :- print N, M is N - 1, down M.";

/// Queries over it.
const NUMBERS_ROWS: &str = "factorial 5 F ¦ answer 1 /   F = 120 / no more / 0
factorial 20 F ¦ answer 1 /   F = 2432902008176640000 / no more / 0
factorial 21 F ¦ fault: number / 4
factorial -1 F ¦ failure / 1
factorial N 1 ¦ fault: number / 4
down 2 ¦ 2 / 1 / 0 / answer 1 / no more / 0";

/// `elaborator.lp`.
const ELABORATOR: &str =
    "% Simply typed terms. `elab E T A` fills in the types that `E` leaves out: `T` is `E` with them, and `A` its type.
kind exp, term, tp type.
type fn (exp -> exp) -> exp.
type lam tp -> (term -> term) -> term.
type arr tp -> tp -> tp.

pred elab i:exp, o:term, o:tp.
elab z z nat.
elab s s (arr nat nat).
elab (app M N) (app M' N') B :- elab M M' (arr A B), elab N N' A.
elab (fn F) (lam A F') (arr A B) :- pi x\\ elab x x A => elab (F x) (F' x) B.";

/// Queries over it.
const ELABORATOR_ROWS: &str =
    "elab (fn x\\ x) T A ¦ answer 1 /   T = lam ?0 (@0\\ @0) /   A = arr ?0 ?0 / no more / 0
elab (fn x\\ app s (app s x)) T A ¦ answer 1 /   T = lam nat (@0\\ app s (app s @0)) /   A = arr nat nat / no more / 0
elab (fn f\\ app f z) T A ¦ answer 1 /   T = lam (arr nat ?0) (@0\\ app @0 z) /   A = arr (arr nat ?0) ?0 / no more / 0
elab (fn f\\ fn x\\ app f x) T (arr (arr nat B) C) ¦ answer 1 /   T = lam (arr nat ?0) (@0\\ lam nat (app @0)) /   B = ?0 /   C = arr nat ?0 / no more / 0
elab (fn f\\ fn x\\ app f (app f x)) T _A ¦ answer 1 /   T = lam (arr ?0 ?0) (@0\\ lam ?0 (@1\\ app @0 (app @0 @1))) / no more / 0
elab (app (fn x\\ app s x) z) T A ¦ answer 1 /   T = app (lam nat (app s)) z /   A = nat / no more / 0
elab (fn x\\ app x x) T A ¦ failure / 1
elab (app z z) T A ¦ failure / 1
elab E T nat ¦ failure / 1";

/// `freeze.lp`.
const FREEZE: &str = "% Goals that wait: `freeze X G` runs G as soon as X isn't a variable any more.
pred freeze o:t, o:o.
freeze X G :- declare_constraint G [X].

% `plus M N K`: K is M + N, as soon as both are known; it waits for one after the other.
pred plus o:int, o:int, o:int.
plus M N K :- freeze M (freeze N (K is M + N)).

% `other X Y`: X and Y are other colours; it waits until both are known.
pred colour o:c.
colour red.
colour green.
pred other o:c, o:c.
other X Y :- freeze X (freeze Y (differ X Y)).
pred differ i:c, i:c.
differ X X :- !, fail.
differ _ _.";

/// Queries over it.
const FREEZE_ROWS: &str = "freeze X (print X), X = a ¦ a / answer 1 /   X = a / no more / 0
plus X 2 Y ¦ answer 1 /   X = ?0 /   Y = ?1 /   delayed [] [] ?- freeze 2 (?1 is (?0 + 2)) / no more / 0
plus X 2 Y, X = 1 ¦ answer 1 /   X = 1 /   Y = 3 / no more / 0
other X Y, colour X, Y = red ¦ answer 1 /   X = green /   Y = red / no more / 0
other X Y, X = red, Y = red ¦ failure / 1
pi x\\ h x => freeze Y (p x Y) ¦ answer 1 /   Y = ?0 /   delayed [#0] [h #0] ?- p #0 ?0 / no more / 0";

/// Runs each query of a table over the program.
fn expect_queries(alloc: Global, program: &str, rows: &str) -> Result<(), Fail> {
    for row in rows.lines() {
        let (query, wanted) = row.split_once('¦').ok_or("no output")?;
        expect_run(alloc, program, query.trim(), wanted.trim())?;
    }
    Ok(())
}

#[test]
fn lists_are_taken_apart(rt: HostRuntime) -> Result<(), Fail> {
    expect_queries(rt.alloc(), LISTS, LISTS_ROWS)
}

#[test]
fn numbers_are_calculated(rt: HostRuntime) -> Result<(), Fail> {
    expect_queries(rt.alloc(), NUMBERS, NUMBERS_ROWS)
}

#[test]
fn terms_are_elaborated(rt: HostRuntime) -> Result<(), Fail> {
    expect_queries(rt.alloc(), ELABORATOR, ELABORATOR_ROWS)
}

#[test]
fn goals_wait(rt: HostRuntime) -> Result<(), Fail> {
    expect_queries(rt.alloc(), FREEZE, FREEZE_ROWS)
}
