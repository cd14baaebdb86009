//! Keys.

ghost use Rattle.std.specs.Prelude.{◌≡◌, ℕ};
ghost use Rattle.level_terms.specs.Graph.{Graph};
ghost use Rattle.ref_terms.specs.terms.Term.{Term};
ghost use Rattle.beta_fragment.specs.HeadForm.{IsHeadForm};
ghost use Rattle.beta_fragment.specs.HeadForm.{rigid_head};
ghost use Rattle.clause_key.specs.Keys as spec;

use beta_fragment::{RigidHead, Whnf};
use ref_terms::Sym;

/// What stands at the head of an argument.
#[derive(Clone, Copy, Debug, PartialEq, Eq, Hash)]
pub enum Key {
    /// A variable or a stuck abstraction, which may become anything; or there is no argument.
    Any,
    /// A constant.
    Con(Sym),
    /// An integer.
    Int(i64),
    /// A string.
    Str(Sym),
    /// The name of a level.
    Level(usize),
    /// An abstraction.
    Lam,
}

/// Whether a key agrees with every other: that of an abstraction too, since one is applied to a fresh
/// name before its head is compared.
pub fn fits_every(key: Key) -> bool
    ensures { result ≡ spec.fits_every key }
{
    matches!(key, Key::Any | Key::Lam)
}

/// Whether a goal with one key may be solved by a clause with the other.
pub fn agree(goal: Key, clause: Key) -> bool
    ensures { result ≡ spec.agree goal clause }
{
    fits_every(goal) || fits_every(clause) || clause == goal
}

/// The key of a rigid head.
fn key_of_head(head: RigidHead) -> Key
    ensures { result ≡ spec.key_of_head (rigid_head head) }
{
    match head {
        RigidHead::Con(c) => Key::Con(c),
        RigidHead::Int(n) => Key::Int(n),
        RigidHead::Str(s) => Key::Str(s),
        RigidHead::Level(l) => Key::Level(l),
    }
}

/// The key of a term of this form. Takes no memory.
pub fn key_of_form(form: &Whnf) -> Key
    ensures { (g : Graph) (depth : ℕ) (u : Term) → IsHeadForm g depth u form.now → result ≡ spec.key_of u }
{
    match form {
        Whnf::Lam(_) => Key::Lam,
        Whnf::Rigid(head, _) => key_of_head(*head),
        Whnf::Flex(_, _) => Key::Any,
        Whnf::Redex(_, _) => Key::Any,
    }
}
