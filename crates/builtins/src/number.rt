//! Integers and their operators.

ghost use Rattle.std.specs.Prelude.{◌≡◌, MatchOption, List, length, false, Some, ℕ};
ghost use Rattle.level_terms.specs.Graph.{Graph};
ghost use Rattle.ref_terms.specs.terms.Term.{Term, At};
ghost use Rattle.ref_terms.specs.unification.Spine.{apply_all};
ghost use Rattle.ref_terms.specs.search.Arithmetic.{operand, is_operator};
ghost use Rattle.ref_terms.specs.search.Reserved.{word_of};
ghost use Rattle.beta_fragment.specs.HeadForm.{IsHeadForm, rigid_head};
ghost use Rattle.builtins.specs.inside.Numbers.{operator_word, IsCalculated, IsNumber};

use beta_fragment::{RigidHead, Whnf};
use ref_terms::{Fault, Reserved, Sym};

/// An operator of expressions.
#[derive(Clone, Copy)]
pub(crate) enum Operator {
    /// `+`
    Plus,
    /// `-`
    Minus,
    /// `*`
    Times,
}

/// The operator that a constant is.
pub(crate) fn operator_of(c: Sym) -> Option<Operator>
    ensures { MatchOption result (is_operator (word_of c.0) ≡ false) (λ operator. word_of c.0 ≡ Some (operator_word operator)) }
{
    match Reserved::of(c) {
        Some(Reserved::Plus) => Some(Operator::Plus),
        Some(Reserved::Minus) => Some(Operator::Minus),
        Some(Reserved::Times) => Some(Operator::Times),
        _ => None,
    }
}

/// The result of an operator, where 64 bits hold it.
pub(crate) fn calculate(operator: Operator, left: i64, right: i64) -> Option<i64>
    ensures { IsCalculated operator left right result }
{
    match operator {
        Operator::Plus => left.checked_add(right),
        Operator::Minus => left.checked_sub(right),
        Operator::Times => left.checked_mul(right),
    }
}

/// The integer that a head with so many arguments is, or the fault of any other one.
pub(crate) fn number_of_head(head: RigidHead, count: usize) -> Result<i64, Fault>
    ensures { (u : Term) (xs : List Term) → length xs ≡ count → u ≡ apply_all (At (rigid_head head)) xs → IsNumber (operand u) result }
{
    match head {
        RigidHead::Int(z) => {
            if count == 0 {
                return Ok(z);
            }
            Err(Fault::Number)
        }
        RigidHead::Con(_) => Err(Fault::Number),
        RigidHead::Str(_) => Err(Fault::Number),
        RigidHead::Level(_) => Err(Fault::Number),
    }
}

/// The integer that a term of this form is, or the fault of any other term.
pub(crate) fn number_of(form: Whnf) -> Result<i64, Fault>
    ensures { (g : Graph) (depth : ℕ) (u : Term) → IsHeadForm g depth u form → IsNumber (operand u) result }
{
    match form {
        Whnf::Lam(_) => Err(Fault::Number),
        Whnf::Flex(_, _) => Err(Fault::Number),
        Whnf::Redex(_, _) => Err(Fault::Redex),
        Whnf::Rigid(head, args) => number_of_head(head, args.len()),
    }
}
