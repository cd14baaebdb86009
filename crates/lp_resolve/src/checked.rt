//! Programs that keep all static rules.
ghost use Rattle.std.specs.Prelude.{◌≡◌, None};
ghost use Rattle.lp_resolve.specs.StaticRules.{first_breach};
ghost use Rattle.lp_resolve.specs.WellFormed.{IsWellFormed};

use crate::program::Program;
use std::marker::Model;

/// A program that keeps all static rules, which contracts see as the program.
#[derive(Debug, Drop)]
pub struct Checked {
    program: Program,
}

impl Model for Checked {
    ghost use Rattle.std.specs.Prelude.{◌≡◌, None};
    ghost use Rattle.lp_resolve.specs.declared.program.Program.{Program};
    ghost use Rattle.lp_resolve.specs.StaticRules.{first_breach};
    ghost use Rattle.lp_resolve.specs.WellFormed.{IsWellFormed};

    ghost Value = { Program };

    ghost use Rattle.std.specs.Coded.{codes};
    ghost use Rattle.ref_terms.specs.contracts.tree.Tree as tree;

    ghost coded = { Prim.hlevel (codes, tree.the_row.coded) };

    ghost view = { λ checked. checked.program };

    ghost invariant = { λ checked. IsWellFormed checked.program × (first_breach checked.program ≡ None) };
}

impl Checked {
    /// Takes a program that keeps all static rules. Takes no memory.
    pub fn admit(program: Program) -> Checked
        requires well_formed { IsWellFormed program }
        requires unbroken { first_breach program ≡ None }
        ensures { result ≡ program }
    {
        Checked { program }
    }

    /// The program. Takes no memory.
    pub fn program(&self) -> &Program
        ensures program { result.now ≡ self.now }
        ensures well_formed { IsWellFormed self.now }
        ensures unbroken { first_breach self.now ≡ None }
    {
        &self.program
    }
}
