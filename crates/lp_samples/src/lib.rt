//! Programs that the interpreter brings with it.
#![tactic(auto)]

ghost use Rattle.std.specs.Prelude.{◌≡◌, IfOk};
ghost use Rattle.lp_samples.specs.Elaborator.{elaborator_text};
ghost use Rattle.lp_samples.specs.Chain.{chain_text};

use lam_io::ByteText;
use std::alloc::{AllocError, Global};

/// The elaborator: a small dependent type theory with holes, whose typing goals wait for what they type.
/// `demo` elaborates a term with three holes, and `down` opens two alternatives at each of its levels.
/// Takes no memory.
pub fn elaborator() -> &'static str
    ensures { result.now ≡ elaborator_text }
{
    "% A small dependent type theory with holes.
kind term type.
type set, nat, z, s, id term.
type app term -> term -> term.
type lam term -> (term -> term) -> term.
type prod term -> (term -> term) -> term.

pred of i:term, o:term.
of X T :- var X, !, declare_constraint (of X T) [X].
of nat set.
of z nat.
of s (prod nat x\\ nat).
of id (prod set a\\ prod a x\\ a).
of (app M N) R :- of M (prod A B), of N A, beta B N R.
of (lam A F) (prod A B) :- of A set, pi x\\ of x A => of (F x) (B x).
of (prod A B) set :- of A set, pi x\\ of x A => of (B x) set.

% Two typings of one hole agree.
constraint of {
  rule (G ?- of X T) \\ (D ?- of Y S) > X ~ Y <=> (T = S).
}

pred demo o:term.
demo M :- M = app (app id H1) (app s (app (app id H2) H3)), of M Ty, print Ty.

pred pick o:term.
pick red.
pick blue.

pred down i:int, o:term.
down 0 z.
down N (s M) :- lt 0 N, P is N - 1, pick C, down P M.

pred main o:term.
"
}

/// The elaborator's program with one clause more: `main T` goes down `k` levels, which opens `k`
/// alternatives over one growing term, prints `k`, and then runs `demo T`. Takes time and memory linear
/// in the text, which is that of the elaborator and one line: less than 1 KB for each `k`.
///
/// Errors: want of memory.
pub fn chain(alloc: Global, k: u32) -> Result<ByteText, AllocError>
    ensures { IfOk result (λ text. text ≡ chain_text k) }
{
    let mut text = ByteText::from_slice(alloc, elaborator().as_bytes())?;
    let clause = format!(in alloc; "main T :- down {k} _X, print {k}, demo T.\n")?;
    text.push_slice(clause.as_bytes())?;
    Ok(text)
}
