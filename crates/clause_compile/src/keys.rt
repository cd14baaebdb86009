//! The keys of clauses.

ghost use Rattle.std.specs.Prelude.{◌≡◌, ◌<◌, ℕ, [], List, length, map, slice_get, unwrap_or, Some, IfOk, OnOk};
ghost use Rattle.ref_terms.specs.search.Program.{Program, Clause};
ghost use Rattle.ref_terms.specs.unification.Spine.{args_of};
ghost use Rattle.ref_terms.specs.terms.Built.{IsBuilt};
ghost use Rattle.level_terms.specs.Graph.{Graph};
ghost use Rattle.level_terms.specs.Growth.{Grows};
ghost use Rattle.lp_resolve.specs.Preds.{pred_at};
ghost use Rattle.clause_key.specs.Keys.{atom_key, key_among};
ghost use Rattle.clause_compile.specs.Programs.{IsCode, inputs_of};
ghost use Rattle.clause_compile.specs.inside.Codes.{IsClauseCode, AreClauseCodes};
ghost use Rattle.clause_compile.specs.inside.Keys.{AllHeadsBuilt, key_in};

use crate::code::Code;
use crate::instance::{Instance, make_head};
use crate::skeleton::ClauseCode;
use clause_key::{Key, key_of_call};
use level_terms::Heap;
use lp_resolve::Preds;
use ref_terms::{Sequence, Sym};
use std::alloc::{AllocError, Global};
use trail::Trail;

/// For each argument of a predicate whether it is an input; nothing where it is no predicate.
fn inputs_in(preds: &Preds, name: Sym) -> &[bool]
    ensures { result.now ≡ unwrap_or (inputs_of (pred_at name.0 preds.now)) [] }
{
    match preds.get(name) {
        Some(pred) => pred.inputs.as_slice(),
        None => &[],
    }
}

/// The key of a clause, seen at an instance of its head, which is taken back.
fn own_key(
    alloc: Global,
    heap: &mut Heap,
    code: &ClauseCode,
    inputs: &[bool],
    instance: &mut Instance,
) -> Result<Key, AllocError>
    requires closed { heap.old.depths ≡ [] }
    requires code { (k : Clause) × IsClauseCode heap.old.nodes code.now k }
    ensures key { IfOk result (λ key. (k : Clause) → IsClauseCode heap.old.nodes code.now k → IsBuilt k.head → key ≡ key_among inputs.now (args_of k.head)) }
    ensures same { OnOk result (heap.new ≡ heap.old) }
    ensures grows { Grows heap.old heap.new [] [] }
{
    heap.is_sound();
    let mut trail = Trail::new(alloc);
    let mark = heap.mark(&trail);
    make_head(alloc, heap, code, 0, instance)?;
    let key = key_of_call(alloc, heap, inputs, instance.args.as_slice(), 0)?;
    heap.undo(&mut trail, mark);
    Ok(key)
}

/// The key of each clause. The heap is as before.
pub(crate) fn own_keys(
    alloc: Global,
    heap: &mut Heap,
    codes: &[ClauseCode],
    preds: &Preds,
) -> Result<Sequence<Key>, AllocError>
    requires closed { heap.old.depths ≡ [] }
    requires codes { (ks : List Clause) × AreClauseCodes heap.old.nodes codes.now ks }
    ensures keys { IfOk result (λ keys. (ks : List Clause) → AreClauseCodes heap.old.nodes codes.now ks → AllHeadsBuilt ks → keys ≡ map (key_in preds.now) ks) }
    ensures same { OnOk result (heap.new ≡ heap.old) }
    ensures grows { Grows heap.old heap.new [] [] }
{
    let mut instance = Instance::new(alloc);
    let mut keys = Sequence::new(alloc);
    for code in codes {
        let inputs = inputs_in(preds, code.pred);
        let key = own_key(alloc, heap, code, inputs, &mut instance)?;
        keys.push(key)?;
    }
    Ok(keys)
}

impl Code {
    /// The key of a clause, whose number is below the number of clauses. Takes no memory.
    pub fn key_of(&self, clause: usize) -> Key
        requires { (n : ℕ) × (g : Graph) × (p : Program) × IsCode n g self.now p × (clause < length p.clauses) }
        ensures { (n : ℕ) (g : Graph) (p : Program) (k : Clause) → IsCode n g self.now p → slice_get p.clauses clause ≡ Some k → result ≡ atom_key p k.head }
    {
        self.keys.as_slice()[clause]
    }
}
