//! Compiles programs.

ghost use Rattle.std.specs.Prelude.{◌≡◌, ℕ, [], List, length, map, cond, nat_eq, false, All, Some, None, is_some, IfOk, OnOk};
ghost use Rattle.ref_terms.specs.terms.Term.{Con};
ghost use Rattle.ref_terms.specs.unification.Spine as spine;
ghost use Rattle.ref_terms.specs.search.Front.{term_of};
ghost use Rattle.level_terms.specs.Growth.{Grows};
ghost use Rattle.lp_resolve.specs.Gathered.{declared_as, undeclared_as};
ghost use Rattle.lp_resolve.specs.Heads.{args_of, constant_of};
ghost use Rattle.lp_resolve.specs.Laws.{declared_first, headed_first, is_headed};
ghost use Rattle.lp_resolve.specs.Plain.{plain_clause, plain_program};
ghost use Rattle.lp_resolve.specs.Preds.{pred_at};
ghost use Rattle.lp_resolve.specs.StaticRules.{lacks_constant};
ghost use Rattle.lp_resolve.specs.Trees.{IsWithin, as_term};
ghost use Rattle.clause_compile.specs.Programs.{IsCode};
ghost use Rattle.clause_compile.specs.inside.Codes.{IsClauseCode, AreClauseCodes};
ghost use Rattle.clause_compile.specs.inside.Compiled.{AllWithin};
ghost use Rattle.clause_compile.specs.inside.Fit.{IsClauseFit, MadeOf};

use crate::code::Code;
use crate::compiling::compile_clause;
use crate::keys::own_keys;
use crate::rules::compile_rules;
use crate::skeleton::ClauseCode;
use level_terms::Heap;
use lp_resolve::{
    Checked, ClauseTree, Pred, PredLine, Preds, arity_of, constant_of, law_first_breach,
};
use ref_terms::{Sequence, Sym, Tree};
use std::alloc::{AllocError, Global};

/// A constant with its arguments.
#[derive(Clone, Copy)]
pub(crate) struct Atom<'t> {
    pub(crate) constant: Sym,
    pub(crate) args: &'t [Tree],
}

/// The arguments of a tree that is headed by a constant.
fn args_of(tree: &Tree) -> &[Tree]
    requires { lacks_constant tree.now ≡ false }
    ensures { result.now ≡ args_of tree.now }
{
    match tree {
        Tree::Ap(_, args) => args.as_slice(),
        Tree::Lam(_) => unreachable!(),
    }
}

/// A tree that is headed by a constant, taken apart.
pub(crate) fn atom_of(tree: &Tree) -> Atom<'_>
    requires { lacks_constant tree.now ≡ false }
    ensures constant { spine.head_of (term_of 0 tree.now) ≡ Some (Con result.constant.0) }
    ensures args { spine.args_of (term_of 0 tree.now) ≡ map (term_of 0) result.args.now }
    ensures within { (variables : ℕ) → IsWithin variables 0 (as_term tree.now) → AllWithin variables 0 result.args.now }
{
    let Some(constant) = constant_of(tree) else {
        unreachable!()
    };
    let args = args_of(tree);
    Atom { constant, args }
}

/// Whether a symbol is a predicate.
fn has_pred(preds: &Preds, name: Sym) -> bool
    ensures { result ≡ is_some (pred_at name.0 preds.now) }
{
    preds.get(name).is_some()
}

/// Makes the predicate of a declaration, where its symbol has none yet.
fn put_line(alloc: Global, preds: &mut Preds, line: &PredLine) -> Result<(), AllocError>
    ensures { OnOk result (MadeOf preds.old preds.new (λ s. cond (nat_eq s line.now.name.0) (Some (declared_as line.now)) None)) }
{
    if has_pred(preds, line.name) {
        return Ok(());
    }
    let inputs = Sequence::from_vec(Vec::from_slice(alloc, line.inputs.as_slice())?);
    let declared = true;
    preds.insert(line.name, Pred { declared, inputs })?;
    Ok(())
}

/// Makes the predicates of declarations, the first one of each symbol.
fn put_lines(alloc: Global, preds: &mut Preds, lines: &[PredLine]) -> Result<(), AllocError>
    ensures { OnOk result (MadeOf preds.old preds.new (λ s. declared_first s lines.now)) }
{
    for line in lines {
        put_line(alloc, preds, line)?;
    }
    Ok(())
}

/// Makes the predicate of a clause, where the symbol at its head has none yet.
fn put_clause(alloc: Global, preds: &mut Preds, clause: &ClauseTree) -> Result<(), AllocError>
    ensures { OnOk result (MadeOf preds.old preds.new (λ s. cond (is_headed s clause.now) (Some (undeclared_as clause.now)) None)) }
{
    let Some(name) = constant_of(&clause.head) else {
        return Ok(());
    };
    if has_pred(preds, name) {
        return Ok(());
    }
    let inputs = Sequence::from_vec(vec![in alloc; false; arity_of(&clause.head)]?);
    let declared = false;
    preds.insert(name, Pred { declared, inputs })?;
    Ok(())
}

/// Makes the predicates of clauses, by the first one of each symbol.
fn put_clauses(alloc: Global, preds: &mut Preds, clauses: &[ClauseTree]) -> Result<(), AllocError>
    ensures { OnOk result (MadeOf preds.old preds.new (λ s. headed_first s clauses.now)) }
{
    for clause in clauses {
        put_clause(alloc, preds, clause)?;
    }
    Ok(())
}

/// The code of a clause.
fn clause_code(
    alloc: Global,
    heap: &mut Heap,
    clause: &ClauseTree,
) -> Result<ClauseCode, AllocError>
    requires closed { heap.old.depths ≡ [] }
    requires fit { IsClauseFit clause.now }
    ensures code { IfOk result (λ code. IsClauseCode heap.new.nodes code (plain_clause clause.now)) }
    ensures closed { OnOk result (heap.new.depths ≡ []) }
    ensures grows { Grows heap.old heap.new [] [] }
{
    let atom = atom_of(&clause.head);
    let code = compile_clause(
        alloc,
        heap,
        atom.constant,
        clause.vars,
        atom.args,
        &clause.body,
    )?;
    Ok(code)
}

/// The code of each clause.
fn clause_codes(
    alloc: Global,
    heap: &mut Heap,
    clauses: &[ClauseTree],
) -> Result<Sequence<ClauseCode>, AllocError>
    requires closed { heap.old.depths ≡ [] }
    requires fit { All IsClauseFit clauses.now }
    ensures codes { IfOk result (λ codes. AreClauseCodes heap.new.nodes codes (map plain_clause clauses.now)) }
    ensures closed { OnOk result (heap.new.depths ≡ []) }
    ensures grows { Grows heap.old heap.new [] [] }
{
    let mut codes = Sequence::new(alloc);
    for clause in clauses {
        let code = clause_code(alloc, heap, clause)?;
        codes.push(code)?;
    }
    Ok(codes)
}

/// What the clauses of a checked program are. Does nothing.
fn clauses_fit(checked: &Checked)
    ensures { All IsClauseFit checked.now.clauses }
{
    law_first_breach();
    let _program = checked.program();
}

/// Compiles a program: makes the nodes that all instances of its clauses and rules share, so the heap has no
/// variable yet. Takes time and memory linear in the program, but for the look-up of predicates.
///
/// Errors: want of memory.
pub fn compile(alloc: Global, heap: &mut Heap, checked: &Checked) -> Result<Code, AllocError>
    requires { heap.old.depths ≡ [] }
    ensures code { IfOk result (λ code. (table : List (List ℕ)) → IsCode (length heap.new.nodes) heap.new code (plain_program table checked.now)) }
    ensures closed { OnOk result (heap.new.depths ≡ []) }
    ensures grows { Grows heap.old heap.new [] [] }
{
    clauses_fit(checked);
    let rules = compile_rules(alloc, heap, checked)?;
    let program = checked.program();
    let mut preds = Preds::new(alloc);
    put_lines(alloc, &mut preds, program.decls.as_slice())?;
    put_clauses(alloc, &mut preds, program.clauses.as_slice())?;
    let clauses = clause_codes(alloc, heap, program.clauses.as_slice())?;
    let keys = own_keys(alloc, heap, clauses.as_slice(), &preds)?;
    heap.is_sound();
    Ok(Code {
        clauses,
        keys,
        preds,
        rules,
    })
}
