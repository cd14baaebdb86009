//! The code of a program.

ghost use Rattle.std.specs.Prelude.{◌≡◌, ◌<◌, ℕ, length, slice_get, Some};
ghost use Rattle.ref_terms.specs.terms.Term.{Con};
ghost use Rattle.ref_terms.specs.unification.Spine.{head_of};
ghost use Rattle.ref_terms.specs.search.Program.{Program, Clause, modes_of};
ghost use Rattle.level_terms.specs.Graph.{Graph};
ghost use Rattle.clause_compile.specs.Programs.{IsCode, inputs_of};
ghost use Rattle.clause_compile.specs.Rules.{IsRulesCode};
ghost use Rattle.std.specs.Option.{option_copied};

use crate::rules::Rules;
use crate::skeleton::ClauseCode;
use clause_key::Key;
use lp_resolve::{Pred, Preds};
use ref_terms::{Sequence, Sym};

/// A program that was compiled into a heap. What it means there is `IsCode`.
#[derive(Debug, Drop)]
pub struct Code {
    pub(crate) clauses: Sequence<ClauseCode>,
    pub(crate) keys: Sequence<Key>,
    pub(crate) preds: Preds,
    pub(crate) rules: Rules,
}

impl Code {
    /// The code of a clause.
    pub(crate) fn clause(&self, clause: usize) -> &ClauseCode
        requires { clause < length self.now.clauses }
        ensures { slice_get self.now.clauses clause ≡ Some result.now }
    {
        &self.clauses.as_slice()[clause]
    }

    /// The number of clauses. Takes no memory.
    pub fn clauses(&self) -> usize
        ensures { (n : ℕ) (g : Graph) (p : Program) → IsCode n g self.now p → result ≡ length p.clauses }
    {
        self.clauses.len()
    }

    /// What a name is as a predicate: none exactly where it has neither a declaration nor a clause. Takes
    /// no memory.
    pub fn pred(&self, name: Sym) -> Option<&Pred>
        ensures { (n : ℕ) (g : Graph) (p : Program) → IsCode n g self.now p → inputs_of (option_copied result) ≡ modes_of p name.0 }
    {
        self.preds.get(name)
    }

    /// The predicate of a clause, whose number is below the number of clauses. Takes no memory.
    pub fn pred_of(&self, clause: usize) -> Sym
        requires { (n : ℕ) × (g : Graph) × (p : Program) × IsCode n g self.now p × (clause < length p.clauses) }
        ensures { (n : ℕ) (g : Graph) (p : Program) (k : Clause) → IsCode n g self.now p → slice_get p.clauses clause ≡ Some k → head_of k.head ≡ Some (Con result.0) }
    {
        self.clause(clause).pred
    }

    /// The program's rules. Takes no memory.
    pub fn rules(&self) -> &Rules
        ensures { (n : ℕ) (g : Graph) (p : Program) → IsCode n g self.now p → IsRulesCode n g result.now p }
    {
        &self.rules
    }
}
