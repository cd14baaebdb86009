// From a checked program and a goal to the machine.
ghost use Rattle.std.specs.Prelude.{◌≡◌, IfOk};
ghost use Rattle.lp_resolve.specs.Queries.{IsFormedQuery};
ghost use Rattle.elpi_cli.specs.Resolved.{program_table, resolved_program};
ghost use Rattle.elpi_cli.specs.Begins.{IsEngineFor, IsEngineOf};

use goal_run::Machine;
use lp_parser::{Ast, AstGoal};
use lp_resolve::{Checked, Query, Symbols, resolve_query};
use std::alloc::{AllocError, Global};

/// What runs a query: the machine in its first state, and the texts of symbols.
#[derive(Drop)]
pub struct Engine {
    pub machine: Machine,
    pub symbols: Symbols,
}

// The engine for a query over a program.
fn start_engine(
    alloc: Global,
    checked: &Checked,
    query: &Query,
    symbols: Symbols,
) -> Result<Engine, AllocError>
    requires { IsFormedQuery query.now }
    ensures { IfOk result (IsEngineFor checked.now query.now symbols) }
{
    let machine = Machine::start(alloc, checked, query)?;
    Ok(Engine { machine, symbols })
}

/// The engine for a goal over the items of a program.
pub fn build_engine(
    alloc: Global,
    ast: &Ast,
    checked: &Checked,
    goal: &AstGoal,
    mut symbols: Symbols,
) -> Result<Engine, AllocError>
    requires table { symbols ≡ program_table ast.now }
    requires program { checked.now ≡ resolved_program ast.now }
    ensures { IfOk result (IsEngineOf ast.now goal.now.term) }
{
    let query = resolve_query(alloc, goal, &mut symbols)?;
    let engine = start_engine(alloc, checked, &query, symbols)?;
    Ok(engine)
}
