//! Goals that no variable heads.

ghost use Rattle.std.specs.Prelude.{◌≡◌, ℕ, [], ◌∷◌, length};
ghost use Rattle.level_terms.specs.Graph.{Graph};
ghost use Rattle.level_terms.specs.Reading.{read};
ghost use Rattle.level_terms.specs.Valid.{IsValid};
ghost use Rattle.ref_terms.specs.search.Formula.{reserved_goal, word_goal, shape_goal};
ghost use Rattle.ref_terms.specs.search.Reserved.{word_of};
ghost use Rattle.ref_terms.specs.unification.Shape.{Rigid};
ghost use Rattle.beta_fragment.specs.HeadForm.{AllValidAt, all_read, rigid_head};
ghost use Rattle.beta_fragment.specs.Names.{names};
ghost use Rattle.goal_form.specs.Builtins.{builtin_word, IsNoBuiltin};
ghost use Rattle.goal_form.specs.Kinds.{IsKindAt, misfit_of};

use crate::builtin::Builtin;
use crate::kind::GoalKind;
use beta_fragment::RigidHead;
use level_terms::{TermId, TermIds};
use ref_terms::{Fault, Reserved, Sym};

/// The kind of a goal that is this head with arguments.
pub(crate) fn rigid_kind(head: RigidHead, args: TermIds) -> GoalKind
    ensures { (g : Graph) (depth : ℕ) → AllValidAt g args depth → IsKindAt g depth (shape_goal (Rigid (rigid_head head) (all_read g args))) result }
{
    match head {
        RigidHead::Con(c) => constant_kind(c, args),
        RigidHead::Int(_) => GoalKind::Wrong(Fault::NotGoal),
        RigidHead::Str(_) => GoalKind::Wrong(Fault::NotGoal),
        RigidHead::Level(_) => GoalKind::Wrong(Fault::NotGoal),
    }
}

/// The kind of a goal that is a constant with arguments.
fn constant_kind(c: Sym, args: TermIds) -> GoalKind
    ensures { (g : Graph) (depth : ℕ) → AllValidAt g args depth → IsKindAt g depth (word_goal (word_of c.0) c.0 (all_read g args)) result }
{
    match Reserved::of(c) {
        None => GoalKind::Atom(c, args),
        Some(Reserved::Nonvar) => GoalKind::Atom(c, args),
        Some(Reserved::Distinct) => GoalKind::Atom(c, args),
        Some(word) => reserved_kind(word, args),
    }
}

/// The kind of a goal that is a reserved name with arguments.
fn reserved_kind(word: Reserved, args: TermIds) -> GoalKind
    ensures { (g : Graph) (depth : ℕ) → AllValidAt g args depth → IsKindAt g depth (reserved_goal word (all_read g args)) result }
{
    if let Some(builtin) = Builtin::of(word) {
        return builtin_kind(builtin, args);
    }
    formula_kind(word, args.as_slice())
}

/// The kind of a goal that is a built-in with arguments.
fn builtin_kind(builtin: Builtin, args: TermIds) -> GoalKind
    ensures { (g : Graph) (depth : ℕ) → AllValidAt g args depth → IsKindAt g depth (reserved_goal (builtin_word builtin) (all_read g args)) result }
{
    if args.len() == builtin.arity() {
        return GoalKind::Builtin(builtin, args);
    }
    GoalKind::Wrong(Fault::Arity)
}

/// The kind of a goal that is another reserved name with arguments.
fn formula_kind(word: Reserved, args: &[TermId]) -> GoalKind
    requires { IsNoBuiltin word }
    ensures { (g : Graph) (depth : ℕ) → AllValidAt g args.now depth → IsKindAt g depth (reserved_goal word (all_read g args.now)) result }
{
    match args {
        [] => bare_kind(word),
        [a] => kind_of_one(word, *a),
        [a, b] => kind_of_two(word, *a, *b),
        _ => GoalKind::Wrong(misfit(word)),
    }
}

/// The kind of a goal that is a reserved name alone.
fn bare_kind(word: Reserved) -> GoalKind
    requires { IsNoBuiltin word }
    ensures { (g : Graph) (depth : ℕ) → IsKindAt g depth (reserved_goal word []) result }
{
    match word {
        Reserved::True => GoalKind::Truth,
        Reserved::Fail => GoalKind::Failing,
        Reserved::Cut => GoalKind::Cut,
        _ => GoalKind::Wrong(misfit(word)),
    }
}

/// The kind of a goal that is a reserved name with one argument.
fn kind_of_one(word: Reserved, a: TermId) -> GoalKind
    requires { IsNoBuiltin word }
    ensures { (g : Graph) (depth : ℕ) → IsValid g a.index depth → IsKindAt g depth (reserved_goal word (read g a.index names ∷ [])) result }
{
    match word {
        Reserved::Pi => GoalKind::ForAll(a),
        Reserved::Sigma => GoalKind::Exists(a),
        _ => GoalKind::Wrong(misfit(word)),
    }
}

/// The kind of a goal that is a reserved name with two arguments.
fn kind_of_two(word: Reserved, a: TermId, b: TermId) -> GoalKind
    requires { IsNoBuiltin word }
    ensures { (g : Graph) (depth : ℕ) → IsValid g a.index depth → IsValid g b.index depth
        → IsKindAt g depth (reserved_goal word (read g a.index names ∷ read g b.index names ∷ [])) result }
{
    match word {
        Reserved::And => GoalKind::Conjunction(a, b),
        Reserved::Or => GoalKind::Disjunction(a, b),
        Reserved::Implies => GoalKind::Assuming(a, b),
        Reserved::If => GoalKind::Wrong(Fault::NotGoal),
        Reserved::Suspend => GoalKind::Suspending(a, b),
        _ => GoalKind::Wrong(misfit(word)),
    }
}

/// The fault of a reserved name with another number of arguments than a goal of it has: the names of
/// terms are no predicates.
fn misfit(word: Reserved) -> Fault
    ensures { result ≡ misfit_of word }
{
    match word {
        Reserved::Nil => Fault::Unknown,
        Reserved::Cons => Fault::Unknown,
        Reserved::Plus => Fault::Unknown,
        Reserved::Minus => Fault::Unknown,
        Reserved::Times => Fault::Unknown,
        _ => Fault::Arity,
    }
}
