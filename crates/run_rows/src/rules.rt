//! Constraint rules: which goals they find, what they remove, what their bodies run under, and the order of it all.
use crate::rows::expect_rows;
use std::test::Fail;

/// Rules over goals that wait.
const RULES: &str =
    "pred of o:term, o:term. of X T :- declare_constraint (of X T) [X]. constraint of { rule (G ?- of X T1) \\ (D ?- of Y T2) > X ~ Y <=> (T1 = T2). } ¦ (pi x\\ of (H x) (A x)), (pi y\\ of (H y) nat) ¦ answer 1 /   H = ?0 /   A = @0\\ nat /   delayed [#0] [] ?- of (?0 #0) nat / no more / 0
pred of o:term, o:term. of X T :- declare_constraint (of X T) [X]. constraint of { rule (of X T1) \\ (of Y T2) | same X Y <=> (T1 = T2). } ¦ (pi x\\ of (H x) (A x)), (pi y\\ of (H y) nat) ¦ answer 1 /   H = ?0 /   A = ?1 /   delayed [#0] [] ?- of (?0 #0) (?1 #0) /   delayed [#0] [] ?- of (?0 #0) nat / no more / 0
pred of o:term, o:term. of X T :- declare_constraint (of X T) [X]. constraint of { rule \\ (G ?- of X T) <=> (print G). } ¦ pi x\\ of x nat => of H T ¦ (of #0 nat) :: [] / answer 1 /   H = ?0 /   T = ?1 / no more / 0
pred of o:term, o:term. of X T :- declare_constraint (of X T) [X]. constraint of { rule (of X T1) \\ (of Y T2) > X ~ Y | distinct T1 T2 <=> (T1 = T2). } ¦ (pi x\\ of (H x) (A x)), (pi y\\ of (H y) nat) ¦ answer 1 /   H = ?0 /   A = @0\\ nat /   delayed [#0] [] ?- of (?0 #0) nat / no more / 0
pred c o:t. c X :- declare_constraint (c X) [X]. constraint c { rule (c X) <=> (print fired). } ¦ c X, c Y ¦ fired / fired / answer 1 /   X = ?0 /   Y = ?1 /   delayed [] [] ?- c ?0 /   delayed [] [] ?- c ?1 / no more / 0
pred c o:t. c X :- declare_constraint (c X) [X]. constraint c { rule (c X) (c Y) | same X Y <=> (print twin). } ¦ c X, c Y, print before, X = Y ¦ before / twin / twin / answer 1 /   X = ?0 /   Y = ?0 /   delayed [] [] ?- c ?0 /   delayed [] [] ?- c ?0 / no more / 0
pred h o:t. pred c o:t. c X :- declare_constraint (c X) [X]. constraint c h { rule \\ (G ?- c X) (D ?- c Y) <=> (h Z, print Z). } ¦ (h a => c X), (h b => c Y) ¦ a / answer 1 /   X = ?0 /   Y = ?1 / no more / 0
pred c o:t. c X :- declare_constraint (c X) [X]. constraint c { rule (c X) \\ (c Y) | same X Y <=> (print twin). } ¦ c X, c X ¦ twin / answer 1 /   X = ?0 /   delayed [] [] ?- c ?0 / no more / 0
pred c o:t. c X :- declare_constraint (c X) [X]. constraint c { rule (c X) <=> fail. } ¦ c X ; Y = a ¦ answer 1 /   X = ?0 /   Y = a / no more / 0
pred c o:t. c X :- declare_constraint (c X) [X]. constraint c { rule (c X) <=> (print fired). } ¦ (c X, fail) ; c Y ¦ fired / fired / answer 1 /   X = ?0 /   Y = ?1 /   delayed [] [] ?- c ?1 / no more / 0
pred c o:t, o:int. c X N :- declare_constraint (c X N) [X]. constraint c { rule (c X M) \\ (c Y N) | lt M N. } ¦ c X 1, c Y 2 ¦ answer 1 /   X = ?0 /   Y = ?1 /   delayed [] [] ?- c ?0 1 / no more / 0
pred c o:t, o:int. c X N :- declare_constraint (c X N) [X]. constraint c { rule (c X M) \\ (c Y N) | lt M N. } ¦ c X 2, c Y 1 ¦ answer 1 /   X = ?0 /   Y = ?1 /   delayed [] [] ?- c ?1 1 / no more / 0
pred c o:t. c X :- declare_constraint (c X) [X]. constraint c { rule (c a) <=> (print never). } ¦ c X ¦ answer 1 /   X = ?0 /   delayed [] [] ?- c ?0 / no more / 0
pred c o:t. pred d o:t. c X :- declare_constraint (c X) [X]. d X :- declare_constraint (d X) [X]. constraint c d { rule (c X) <=> (print one). rule (d X) <=> (print two). } ¦ d X, c Y ¦ two / one / answer 1 /   X = ?0 /   Y = ?1 /   delayed [] [] ?- d ?0 /   delayed [] [] ?- c ?1 / no more / 0
pred c o:t. c X :- declare_constraint (c X) [X]. constraint c { rule (c X) <=> (q X). } ¦ c X ¦ fault: unknown / 4
pred c o:t. c X :- declare_constraint (c X) [X]. constraint c { rule \\ (c X) <=> (print a ; print b). } ¦ c X, print end ¦ a / end / answer 1 /   X = ?0 / b / end / answer 2 /   X = ?0 / no more / 0
constraint p { } ¦ p ¦ fault: unknown / 4
p. constraint p { rule (p) <=> true. } ¦ p ¦ answer 1 / no more / 0
constraint p { } ¦ declare_constraint true X ¦ fault: not-goal / 4";

#[test]
fn rules_write_the_rows(rt: HostRuntime) -> Result<(), Fail> {
    expect_rows(rt.alloc(), RULES)
}
