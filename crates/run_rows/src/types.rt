//! Types: what `check` writes of a file, or what refuses it.
use crate::runs::expect_words;
use std::test::Fail;

/// The program in `a`, the words, and what is written.
const TYPES: &str = "p a. p b. ⇒ check¦a ⇒ a : A0 / b : A0 / p : A0 -> prop / typed / 0
p (x\\ x 1) [2]. ⇒ check¦a ⇒ p : ((int -> A0) -> A0) -> list int -> prop / typed / 0
⇒ check¦a ⇒ typed / 0
p 1. p \"a\". ⇒ check¦a ⇒ refused: a:1:6: Y4 / 3
pred q i:t. ⇒ check¦a ⇒ refused: a:1:10: Y3 / 3
kind int type. ⇒ check¦a ⇒ refused: a:1:6: Y1 / 3
type a prop. pred a. ⇒ check¦a ⇒ refused: a:1:19: Y2 / 3
p a ⇒ check¦a ⇒ refused: a:1:4: clause / 3
p a. ⇒ check¦a¦b ⇒ missing: b / 6
p a. q 1. ⇒ check¦a¦a ⇒ a : A0 / p : A0 -> prop / q : int -> prop / typed / 0
pred c o:int. c X :- declare_constraint (c X) [X]. constraint c { rule (c X) (c Y) | same X Y <=> (print X). } ⇒ check¦a ⇒ typed / 0
pred c o:int. constraint c { rule (c X) <=> (X = a). } ⇒ check¦a ⇒ a : int / typed / 0
kind t type. type f t -> t. p (f X) :- p X. ⇒ check¦a ⇒ p : t -> prop / typed / 0";

#[test]
fn types_are_written(rt: HostRuntime) -> Result<(), Fail> {
    expect_words(rt.alloc(), TYPES)
}
