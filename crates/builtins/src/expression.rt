//! Expressions, by what stands at their heads.

ghost use Rattle.std.specs.Prelude.{◌≡◌, ℕ, List, [], ◌∷◌, length};
ghost use Rattle.level_terms.specs.Graph.{Graph};
ghost use Rattle.ref_terms.specs.terms.Term.{Term, At, Con};
ghost use Rattle.ref_terms.specs.unification.Spine.{apply_all};
ghost use Rattle.beta_fragment.specs.HeadForm.{IsHeadForm, AllValidAt, all_read, rigid_head};
ghost use Rattle.builtins.specs.inside.Numbers.{IsExpression};

use crate::number::{Operator, number_of_head, operator_of};
use beta_fragment::{RigidHead, Whnf};
use level_terms::TermId;
use ref_terms::{Fault, Sym};

/// What is seen of an expression.
pub(crate) enum Expression {
    /// An integer.
    Value(i64),
    /// An operator with its operands.
    Operation(Operator, TermId, TermId),
    /// None, for this fault.
    Wrong(Fault),
}

/// What is seen of an expression of this form.
pub(crate) fn expression_of(form: Whnf) -> Expression
    ensures { (g : Graph) (depth : ℕ) (u : Term) → IsHeadForm g depth u form → IsExpression g depth u result }
{
    match form {
        Whnf::Lam(_) => Expression::Wrong(Fault::Number),
        Whnf::Flex(_, _) => Expression::Wrong(Fault::Number),
        Whnf::Redex(_, _) => Expression::Wrong(Fault::Redex),
        Whnf::Rigid(head, args) => rigid_expression(head, args.as_slice()),
    }
}

/// What is seen of an expression that is this head with arguments.
fn rigid_expression(head: RigidHead, args: &[TermId]) -> Expression
    ensures { (g : Graph) (depth : ℕ) (u : Term) → AllValidAt g args.now depth → u ≡ apply_all (At (rigid_head head)) (all_read g args.now) → IsExpression g depth u result }
{
    match head {
        RigidHead::Con(c) => constant_expression(c, args),
        RigidHead::Int(_) => numeral(head, args.len()),
        RigidHead::Str(_) => numeral(head, args.len()),
        RigidHead::Level(_) => numeral(head, args.len()),
    }
}

/// What is seen of an expression that is another head with so many arguments.
fn numeral(head: RigidHead, count: usize) -> Expression
    requires { (c : ℕ) → rigid_head head ≡ Con c → ⊥ }
    ensures { (g : Graph) (depth : ℕ) (u : Term) (xs : List Term) → length xs ≡ count → u ≡ apply_all (At (rigid_head head)) xs → IsExpression g depth u result }
{
    match number_of_head(head, count) {
        Ok(z) => integer_value(z),
        Err(e) => Expression::Wrong(e),
    }
}

/// An integer.
fn integer_value(z: i64) -> Expression
    ensures { result ≡ Expression.Value z }
{
    Expression::Value(z)
}

/// What is seen of an expression that is a constant with arguments.
fn constant_expression(c: Sym, args: &[TermId]) -> Expression
    ensures { (g : Graph) (depth : ℕ) (u : Term) → AllValidAt g args.now depth → u ≡ apply_all (At (Con c.0)) (all_read g args.now) → IsExpression g depth u result }
{
    match args {
        [a, b] => operation(c, *a, *b),
        _ => Expression::Wrong(Fault::Number),
    }
}

/// What is seen of an expression that is a constant with two arguments.
fn operation(c: Sym, a: TermId, b: TermId) -> Expression
    ensures { (g : Graph) (depth : ℕ) (u : Term) → AllValidAt g (a ∷ b ∷ []) depth → u ≡ apply_all (At (Con c.0)) (all_read g (a ∷ b ∷ [])) → IsExpression g depth u result }
{
    match operator_of(c) {
        Some(operator) => Expression::Operation(operator, a, b),
        None => Expression::Wrong(Fault::Number),
    }
}
