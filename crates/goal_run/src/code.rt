//! The code of a program, with the shapes of its rules and the index of its clauses.

ghost use Rattle.std.specs.Prelude.{◌≡◌, ℕ, IfOk};
ghost use Rattle.level_terms.specs.Graph.{Graph};
ghost use Rattle.ref_terms.specs.search.Program.{Program};
ghost use Rattle.clause_compile.specs.Programs.{IsCode};
ghost use Rattle.clause_index.specs.Index.{IsIndexOf};
ghost use Rattle.goal_run.specs.inside.Shapes.{AreShapes};

use crate::shapes::shapes_of;
use clause_compile::Code;
use clause_index::{Index, build};
use sequent_rules::RuleShape;
use std::alloc::{AllocError, Global};

/// A program that was compiled into a heap, with what of its rules needs no heap, and an index by which
/// the clauses of a constant are found that agree with the key of a call.
#[derive(Drop)]
pub(crate) struct ProgramCode {
    pub(crate) code: Code,
    pub(crate) shapes: Vec<RuleShape>,
    pub(crate) index: Index,
}

impl ProgramCode {
    /// The code of a program with the shapes of its rules and its index.
    pub(crate) fn new(alloc: Global, code: Code) -> Result<ProgramCode, AllocError>
        requires { (n : ℕ) × (g : Graph) × (p : Program) × IsCode n g code p }
        ensures code { IfOk result (λ c. c.code ≡ code) }
        ensures shapes { IfOk result (λ c. (n : ℕ) (g : Graph) (p : Program) → IsCode n g code p → AreShapes c.shapes.items p.rules) }
        ensures index { IfOk result (λ c. (n : ℕ) (g : Graph) (p : Program) → IsCode n g code p → IsIndexOf p c.index) }
    {
        let shapes = shapes_of(alloc, code.rules())?;
        let index = build(alloc, &code)?;
        Ok(ProgramCode {
            code,
            shapes,
            index,
        })
    }
}
