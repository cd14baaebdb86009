//! One step of printing: what is seen of a term is written, and what is left of it goes onto the
//! work list, whose last piece is the next one.

ghost use Rattle.std.specs.Prelude.{◌≡◌, ℕ, List, [], ◌∷◌, ◌++◌, ◌+◌, ◌*◌, ◌-◌, ◌^◌, ◌<◌, ◌≤◌, true, length, reverse, IfOk, OnOk, OnErr, MatchOption};
ghost use Rattle.level_terms.specs.Graph.{Graph};
ghost use Rattle.level_terms.specs.Growth.{Grows};
ghost use Rattle.level_terms.specs.Reading.{read};
ghost use Rattle.level_terms.specs.Valid.{IsValid};
ghost use Rattle.ref_terms.specs.terms.Term.{Term, Lam as lam_term, At, Con as con_head, Var as var_head};
ghost use Rattle.ref_terms.specs.terms.Index.{sub, first};
ghost use Rattle.ref_terms.specs.unification.Spine.{apply_all};
ghost use Rattle.ref_terms.specs.search.Reserved.{word_of};
ghost use Rattle.ref_terms.specs.texts.Text.{top, inner, infix_word};
ghost use Rattle.beta_fragment.specs.Names.{names};
ghost use Rattle.beta_fragment.specs.HeadForm.{IsHeadForm, ReadsAsLam, FirstUnready, AllValidAt, rigid_head, all_read};
ghost use Rattle.term_print.specs.Pieces.{IsNode, ArePieces, Leaves, LeavesTerm, StopsTerm, page, piece_parts, piece_size, work_parts, work_size, argument_pieces, seen_term, is_bare as bare, IsPrefixed};
ghost use Rattle.term_print.specs.Chains.{AreKept, BodyIsKept};
ghost use Rattle.term_print.specs.Written.{Stops};
ghost use Rattle.term_print.specs.declared.piece.Piece.TheVariants.{Inner as inner_piece, Infix as infix_piece};

use crate::chain::kept_below;
use crate::head::{is_infix, write_binder, write_head, write_infix, write_variable};
use crate::namer::Namer;
use crate::piece::Piece;
use beta_fragment::{RigidHead, Whnf, contract, enter, whnf};
use lam_io::ByteText;
use level_terms::{Heap, Node, TermId, VarId};
use lp_resolve::Symbols;
use ref_terms::Sym;
use std::alloc::{AllocError, Global};

/// Whether what is seen of a term is a head without arguments.
fn is_bare(form: &Whnf) -> bool
    ensures { (g : Graph) (depth : ℕ) → IsHeadForm g depth (seen_term g form.now) form.now → bare (seen_term g form.now) ≡ result }
{
    match form {
        Whnf::Rigid(_, args) => args.len() == 0,
        Whnf::Flex(_, args) => args.len() == 0,
        Whnf::Lam(_) => false,
        Whnf::Redex(_, _) => false,
    }
}

/// Puts arguments onto the work list, the first one last.
fn push_arguments(args: &[TermId], depth: usize, work: &mut Vec<Piece>) -> Result<(), AllocError>
    ensures { OnOk result (work.new.items ≡ work.old.items ++ reverse (argument_pieces depth args.now)) }
{
    let mut i = args.len();
    while i > 0 {
        i -= 1;
        work.push(Piece::Argument {
            node: args[i],
            depth,
        })?;
    }
    Ok(())
}

/// Puts an infix constant between its two arguments onto the work list.
fn push_infix(
    c: Sym,
    left: TermId,
    right: TermId,
    depth: usize,
    work: &mut Vec<Piece>,
) -> Result<(), AllocError>
    ensures { OnOk result (work.new.items ≡ work.old.items ++ inner_piece right depth ∷ infix_piece c ∷ inner_piece left depth ∷ []) }
{
    work.push(Piece::Inner { node: right, depth })?;
    work.push(Piece::Infix(c))?;
    work.push(Piece::Inner { node: left, depth })?;
    Ok(())
}

/// The infix constant that a head is before so many arguments.
fn infix_before(head: RigidHead, arguments: usize) -> Option<Sym>
    ensures { MatchOption result ((ts : List Term) → length ts ≡ arguments → IsPrefixed (rigid_head head) ts) (λ c. (rigid_head head ≡ con_head c.0) × (arguments ≡ 2) × (infix_word (word_of c.0) ≡ true)) }
{
    match head {
        RigidHead::Con(c) if arguments == 2 && is_infix(c) => Some(c),
        _ => None,
    }
}

/// One level more. Levels that pass a `usize` are want of memory.
fn next_depth(depth: usize) -> Result<usize, AllocError>
    ensures { IfOk result (λ next. next ≡ depth + 1) }
{
    match depth.checked_add(1) {
        Some(next) => Ok(next),
        None => Err(AllocError),
    }
}

/// The body of an abstraction, in which the bound name is the level of the depth.
fn body_at(alloc: Global, heap: &mut Heap, lam: TermId, depth: usize) -> Result<TermId, AllocError>
    requires lam { ReadsAsLam heap.old lam.index depth }
    requires room { depth < 2 ^ 64 - 1 }
    ensures reads { IfOk result (λ r. (b : Term) → read heap.old lam.index names ≡ lam_term b → read heap.new r.index names ≡ sub (first (names depth)) b) }
    ensures valid { IfOk result (λ r. IsValid heap.new r.index (depth + 1)) }
    ensures variables { heap.new.depths ≡ heap.old.depths }
    ensures grows { Grows heap.old heap.new [] [] }
{
    heap.is_sound();
    if let Node::Lam { depth: made, .. } = heap.view(lam) {
        if *made == depth {
            return Ok(enter(heap, lam, depth));
        }
    }
    body_copied(alloc, heap, lam, depth)
}

/// The same of an abstraction that was made further out.
fn body_copied(
    alloc: Global,
    heap: &mut Heap,
    lam: TermId,
    depth: usize,
) -> Result<TermId, AllocError>
    requires lam { ReadsAsLam heap.old lam.index depth }
    requires room { depth < 2 ^ 64 - 1 }
    ensures reads { IfOk result (λ r. (b : Term) → read heap.old lam.index names ≡ lam_term b → read heap.new r.index names ≡ sub (first (names depth)) b) }
    ensures valid { IfOk result (λ r. IsValid heap.new r.index (depth + 1)) }
    ensures variables { heap.new.depths ≡ heap.old.depths }
    ensures grows { Grows heap.old heap.new [] [] }
{
    heap.is_sound();
    let name = heap.level(depth)?;
    heap.is_sound();
    contract(alloc, heap, lam, name, depth + 1)
}

/// So many nodes from the body on that are known to stay: those below the abstraction, where the
/// body is its own.
fn kept_from(heap: &Heap, lam: TermId, body: TermId, kept: usize) -> usize
    requires there { lam.index < length heap.now.nodes }
    requires kept { BodyIsKept heap.now lam kept }
    ensures { AreKept heap.now body.index result }
{
    match heap.view(lam) {
        Node::Lam { body: own, .. } if own.index == body.index => kept,
        _ => 0,
    }
}

/// Writes the front of an abstraction, and leaves its body. So many abstractions below it are known
/// to stay.
fn write_lam(
    alloc: Global,
    heap: &mut Heap,
    base: usize,
    lam: TermId,
    kept: usize,
    depth: usize,
    work: &mut Vec<Piece>,
    out: &mut ByteText,
) -> Result<(), AllocError>
    requires lam { ReadsAsLam heap.old lam.index depth }
    requires kept { BodyIsKept heap.old lam kept }
    requires deep { base ≤ depth }
    requires pieces { ArePieces base heap.old (reverse work.old.items) }
    ensures prints { OnOk result ((table : List (List ℕ)) (seen : List ℕ) → LeavesTerm table base top heap.old (read heap.old lam.index names) depth (reverse work.old.items) (page out.old seen) heap.new (page out.new seen) (reverse work.new.items)) }
    ensures err { OnErr result (out.new ≡ out.old) }
    ensures variables { heap.new.depths ≡ heap.old.depths }
    ensures grows { Grows heap.old heap.new [] [] }
{
    heap.is_sound();
    let inside = next_depth(depth)?;
    let node = body_at(alloc, heap, lam, depth)?;
    let kept = kept_from(heap, lam, node, kept);
    work.push(Piece::Top {
        node,
        depth: inside,
        kept,
    })?;
    write_binder(alloc, depth - base, out)
}

/// The same of an abstraction that was seen just now.
fn write_seen_lam(
    alloc: Global,
    heap: &mut Heap,
    base: usize,
    lam: TermId,
    depth: usize,
    work: &mut Vec<Piece>,
    out: &mut ByteText,
) -> Result<(), AllocError>
    requires lam { ReadsAsLam heap.old lam.index depth }
    requires deep { base ≤ depth }
    requires pieces { ArePieces base heap.old (reverse work.old.items) }
    ensures prints { OnOk result ((table : List (List ℕ)) (seen : List ℕ) → LeavesTerm table base top heap.old (read heap.old lam.index names) depth (reverse work.old.items) (page out.old seen) heap.new (page out.new seen) (reverse work.new.items)) }
    ensures err { OnErr result (out.new ≡ out.old) }
    ensures variables { heap.new.depths ≡ heap.old.depths }
    ensures grows { Grows heap.old heap.new [] [] }
{
    heap.is_sound();
    let kept = kept_below(alloc, heap, lam, depth)?;
    write_lam(alloc, heap, base, lam, kept, depth, work, out)
}

/// Writes a head that isn't a variable, and leaves its arguments.
fn write_rigid(
    alloc: Global,
    symbols: &Symbols,
    base: usize,
    head: RigidHead,
    args: &[TermId],
    depth: usize,
    work: &mut Vec<Piece>,
    out: &mut ByteText,
) -> Result<(), AllocError>
    requires deep { base ≤ depth }
    ensures prints { OnOk result ((g : Graph) (seen : List ℕ) → AllValidAt g args.now depth → ArePieces base g (reverse work.old.items) → LeavesTerm symbols.now base top g (apply_all (At (rigid_head head)) (all_read g args.now)) depth (reverse work.old.items) (page out.old seen) g (page out.new seen) (reverse work.new.items)) }
    ensures stops { OnErr result ((g : Graph) (seen : List ℕ) → StopsTerm symbols.now base top g (apply_all (At (rigid_head head)) (all_read g args.now)) depth (reverse work.old.items) (page out.old seen) out.new) }
{
    match infix_before(head, args.len()) {
        Some(c) => push_infix(c, args[0], args[1], depth, work),
        None => {
            push_arguments(args, depth, work)?;
            write_head(alloc, symbols, base, head, out)
        }
    }
}

/// Writes a variable, and leaves its arguments.
fn write_flex(
    alloc: Global,
    namer: &mut Namer,
    v: VarId,
    args: &[TermId],
    depth: usize,
    work: &mut Vec<Piece>,
    out: &mut ByteText,
) -> Result<(), AllocError>
    ensures prints { OnOk result ((table : List (List ℕ)) (base : ℕ) (g : Graph) → base ≤ depth → AllValidAt g args.now depth → ArePieces base g (reverse work.old.items) → LeavesTerm table base top g (apply_all (At (var_head v.index)) (all_read g args.now)) depth (reverse work.old.items) (page out.old namer.old) g (page out.new namer.new) (reverse work.new.items)) }
    ensures err { OnErr result (out.new ≡ out.old) }
{
    push_arguments(args, depth, work)?;
    write_variable(alloc, namer, v, out)
}

/// Writes the front of an abstraction that stands before arguments, and leaves its body and them.
fn write_redex(
    alloc: Global,
    heap: &mut Heap,
    base: usize,
    lam: TermId,
    args: &[TermId],
    depth: usize,
    work: &mut Vec<Piece>,
    out: &mut ByteText,
) -> Result<(), AllocError>
    requires lam { ReadsAsLam heap.old lam.index depth }
    requires unready { FirstUnready heap.old args.now }
    requires args { AllValidAt heap.old args.now depth }
    requires deep { base ≤ depth }
    requires pieces { ArePieces base heap.old (reverse work.old.items) }
    ensures prints { OnOk result ((table : List (List ℕ)) (seen : List ℕ) → LeavesTerm table base top heap.old (apply_all (read heap.old lam.index names) (all_read heap.old args.now)) depth (reverse work.old.items) (page out.old seen) heap.new (page out.new seen) (reverse work.new.items)) }
    ensures stops { OnErr result ((table : List (List ℕ)) (seen : List ℕ) → StopsTerm table base top heap.old (apply_all (read heap.old lam.index names) (all_read heap.old args.now)) depth (reverse work.old.items) (page out.old seen) out.new) }
    ensures variables { heap.new.depths ≡ heap.old.depths }
    ensures grows { Grows heap.old heap.new [] [] }
{
    push_arguments(args, depth, work)?;
    work.push(Piece::Close)?;
    out.push(b'(')?;
    write_seen_lam(alloc, heap, base, lam, depth, work, out)
}

/// Writes the front of what is seen of a term, and leaves the rest.
fn write_form(
    alloc: Global,
    heap: &mut Heap,
    symbols: &Symbols,
    base: usize,
    form: &Whnf,
    depth: usize,
    work: &mut Vec<Piece>,
    namer: &mut Namer,
    out: &mut ByteText,
) -> Result<(), AllocError>
    requires form { IsHeadForm heap.old depth (seen_term heap.old form.now) form.now }
    requires deep { base ≤ depth }
    requires pieces { ArePieces base heap.old (reverse work.old.items) }
    ensures prints { OnOk result (LeavesTerm symbols.now base top heap.old (seen_term heap.old form.now) depth (reverse work.old.items) (page out.old namer.old) heap.new (page out.new namer.new) (reverse work.new.items)) }
    ensures stops { OnErr result (StopsTerm symbols.now base top heap.old (seen_term heap.old form.now) depth (reverse work.old.items) (page out.old namer.old) out.new) }
    ensures variables { heap.new.depths ≡ heap.old.depths }
    ensures grows { Grows heap.old heap.new [] [] }
{
    match form {
        Whnf::Lam(lam) => write_seen_lam(alloc, heap, base, *lam, depth, work, out),
        Whnf::Rigid(head, args) => write_rigid(
            alloc,
            symbols,
            base,
            *head,
            args.as_slice(),
            depth,
            work,
            out,
        ),
        Whnf::Flex(v, args) => write_flex(alloc, namer, *v, args.as_slice(), depth, work, out),
        Whnf::Redex(lam, args) => write_redex(
            alloc,
            heap,
            base,
            *lam,
            args.as_slice(),
            depth,
            work,
            out,
        ),
    }
}

/// The same in the inner form.
fn write_inner_form(
    alloc: Global,
    heap: &mut Heap,
    symbols: &Symbols,
    base: usize,
    form: &Whnf,
    depth: usize,
    work: &mut Vec<Piece>,
    namer: &mut Namer,
    out: &mut ByteText,
) -> Result<(), AllocError>
    requires form { IsHeadForm heap.old depth (seen_term heap.old form.now) form.now }
    requires deep { base ≤ depth }
    requires pieces { ArePieces base heap.old (reverse work.old.items) }
    ensures prints { OnOk result (LeavesTerm symbols.now base inner heap.old (seen_term heap.old form.now) depth (reverse work.old.items) (page out.old namer.old) heap.new (page out.new namer.new) (reverse work.new.items)) }
    ensures stops { OnErr result (StopsTerm symbols.now base inner heap.old (seen_term heap.old form.now) depth (reverse work.old.items) (page out.old namer.old) out.new) }
    ensures variables { heap.new.depths ≡ heap.old.depths }
    ensures grows { Grows heap.old heap.new [] [] }
{
    if is_bare(form) {
        return write_form(alloc, heap, symbols, base, form, depth, work, namer, out);
    }
    work.push(Piece::Close)?;
    out.push(b'(')?;
    write_form(alloc, heap, symbols, base, form, depth, work, namer, out)
}

/// Looks at a node, and writes the front of its term in the top form.
fn write_top(
    alloc: Global,
    heap: &mut Heap,
    symbols: &Symbols,
    base: usize,
    node: TermId,
    depth: usize,
    work: &mut Vec<Piece>,
    namer: &mut Namer,
    out: &mut ByteText,
) -> Result<(), AllocError>
    requires node { IsNode base heap.old node depth }
    requires pieces { ArePieces base heap.old (reverse work.old.items) }
    ensures prints { OnOk result (LeavesTerm symbols.now base top heap.old (read heap.old node.index names) depth (reverse work.old.items) (page out.old namer.old) heap.new (page out.new namer.new) (reverse work.new.items)) }
    ensures stops { OnErr result (StopsTerm symbols.now base top heap.old (read heap.old node.index names) depth (reverse work.old.items) (page out.old namer.old) out.new) }
    ensures variables { heap.new.depths ≡ heap.old.depths }
    ensures grows { Grows heap.old heap.new [] [] }
{
    heap.is_sound();
    let form = whnf(alloc, heap, node, depth)?;
    write_form(alloc, heap, symbols, base, &form, depth, work, namer, out)
}

/// The same in the inner form.
fn write_inner(
    alloc: Global,
    heap: &mut Heap,
    symbols: &Symbols,
    base: usize,
    node: TermId,
    depth: usize,
    work: &mut Vec<Piece>,
    namer: &mut Namer,
    out: &mut ByteText,
) -> Result<(), AllocError>
    requires node { IsNode base heap.old node depth }
    requires pieces { ArePieces base heap.old (reverse work.old.items) }
    ensures prints { OnOk result (LeavesTerm symbols.now base inner heap.old (read heap.old node.index names) depth (reverse work.old.items) (page out.old namer.old) heap.new (page out.new namer.new) (reverse work.new.items)) }
    ensures stops { OnErr result (StopsTerm symbols.now base inner heap.old (read heap.old node.index names) depth (reverse work.old.items) (page out.old namer.old) out.new) }
    ensures variables { heap.new.depths ≡ heap.old.depths }
    ensures grows { Grows heap.old heap.new [] [] }
{
    heap.is_sound();
    let form = whnf(alloc, heap, node, depth)?;
    write_inner_form(alloc, heap, symbols, base, &form, depth, work, namer, out)
}

/// The same in the top form, of an abstraction that is known to stay.
fn write_kept(
    alloc: Global,
    heap: &mut Heap,
    base: usize,
    node: TermId,
    depth: usize,
    kept: usize,
    work: &mut Vec<Piece>,
    out: &mut ByteText,
) -> Result<(), AllocError>
    requires node { IsNode base heap.old node depth }
    requires kept { AreKept heap.old node.index kept }
    requires some { 0 < kept }
    requires pieces { ArePieces base heap.old (reverse work.old.items) }
    ensures prints { OnOk result ((table : List (List ℕ)) (seen : List ℕ) → LeavesTerm table base top heap.old (read heap.old node.index names) depth (reverse work.old.items) (page out.old seen) heap.new (page out.new seen) (reverse work.new.items)) }
    ensures err { OnErr result (out.new ≡ out.old) }
    ensures variables { heap.new.depths ≡ heap.old.depths }
    ensures grows { Grows heap.old heap.new [] [] }
{
    write_lam(alloc, heap, base, node, kept - 1, depth, work, out)
}

/// Writes the front of a piece, and leaves the rest of it on the work list.
pub(crate) fn write_piece(
    alloc: Global,
    heap: &mut Heap,
    symbols: &Symbols,
    base: usize,
    piece: Piece,
    work: &mut Vec<Piece>,
    namer: &mut Namer,
    out: &mut ByteText,
) -> Result<(), AllocError>
    requires pieces { ArePieces base heap.old (piece ∷ reverse work.old.items) }
    ensures prints { OnOk result (Leaves symbols.now base (page out.old namer.old) (work_parts symbols.now base heap.old (piece ∷ reverse work.old.items)) (work_size base heap.old (piece ∷ reverse work.old.items)) heap.new (page out.new namer.new) (reverse work.new.items)) }
    ensures stops { OnErr result (Stops (page out.old namer.old) (work_parts symbols.now base heap.old (piece ∷ reverse work.old.items)) out.new) }
    ensures variables { heap.new.depths ≡ heap.old.depths }
    ensures grows { Grows heap.old heap.new [] [] }
{
    match piece {
        Piece::Close => {
            out.push(b')')?;
            Ok(())
        }
        Piece::Infix(c) => write_infix(symbols, c, out),
        Piece::Top { node, depth, kept } if kept > 0 => write_kept(
            alloc, heap, base, node, depth, kept, work, out,
        ),
        Piece::Top { node, depth, .. } => write_top(
            alloc, heap, symbols, base, node, depth, work, namer, out,
        ),
        Piece::Inner { node, depth } => write_inner(
            alloc, heap, symbols, base, node, depth, work, namer, out,
        ),
        Piece::Argument { node, depth } => {
            out.push(b' ')?;
            write_inner(alloc, heap, symbols, base, node, depth, work, namer, out)
        }
    }
}
