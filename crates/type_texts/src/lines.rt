//! The lines of types.
ghost use Rattle.std.specs.Prelude.{ℕ, ◌≡◌, ◌<◌, length, map, All, IfOk};
ghost use Rattle.type_graph.specs.Graph.{node_at};
ghost use Rattle.type_terms.specs.Read.{AreNodes};
ghost use Rattle.type_check.specs.Inference.{IsInference};
ghost use Rattle.type_texts.specs.OpenTypes.{OpenType};
ghost use Rattle.type_texts.specs.TypeLines.{type_lines, AreTypeLines};
ghost use Rattle.type_texts.specs.inside.Readings.{IsReading};
ghost use Rattle.type_texts.specs.inside.Lines.{WritesLine};

use crate::shown::{name_in, shown_constants};
use crate::writing::write_type;
use decl_trees::DeclTree;
use indexmap::IndexSet;
use lp_resolve::{Program, Symbols};
use std::alloc::{AllocError, Global};
use type_check::Typing;
use type_graph::Graph;

// The line of a constant, whose type is at its node; its variables are numbered after those that are there.
fn line_of(
    alloc: Global,
    symbols: &Symbols,
    graph: &Graph,
    variables: &mut IndexSet<usize>,
    nodes: &[usize],
    constant: usize,
) -> Result<Vec<u8>, AllocError>
    requires nodes { AreNodes graph.now nodes.now }
    requires constant { constant < length nodes.now }
    ensures { IfOk result (λ line. (u : ℕ → OpenType) → IsReading (node_at graph.now) u
        → WritesLine symbols.now (map u nodes.now) variables.old.keys constant variables.new.keys line.items) }
{
    let mut text = Vec::from_slice(alloc, name_in(symbols, constant))?;
    text.extend_from_slice(b" : ")?;
    write_type(symbols, graph, variables, &mut text, nodes[constant])?;
    text.push(b'\n')?;
    Ok(text)
}

// The lines of these constants.
fn lines_of(
    alloc: Global,
    symbols: &Symbols,
    graph: &Graph,
    nodes: &[usize],
    constants: &[usize],
) -> Result<Vec<Vec<u8>>, AllocError>
    requires nodes { AreNodes graph.now nodes.now }
    requires constants { All (λ c. c < length nodes.now) constants.now }
    ensures { IfOk result (λ lines. (u : ℕ → OpenType) → IsReading (node_at graph.now) u
        → map (λ line. line.items) lines.items ≡ type_lines symbols.now (map u nodes.now) constants.now) }
{
    let mut variables = IndexSet::new(alloc);
    let mut lines = Vec::new(alloc);
    for constant in constants {
        let line = line_of(alloc, symbols, graph, &mut variables, nodes, *constant)?;
        lines.push(line)?;
    }
    Ok(lines)
}

/// The lines of a program's types, which were inferred: `NAME : TYPE` for each undeclared constant that occurs in it, in the
/// order of the names' bytes, each with its line feed. Type variables are numbered by their first places in all of the lines.
///
/// Errors: want of memory. Costs a look at each part of the clauses and rules, a sort, and as much as is written.
pub fn type_lines(
    alloc: Global,
    symbols: &Symbols,
    decls: &[DeclTree],
    program: &Program,
    typing: &Typing,
) -> Result<Vec<Vec<u8>>, AllocError>
    requires { IsInference symbols.now decls.now program.now typing.now }
    ensures { IfOk result (λ lines. AreTypeLines symbols.now decls.now program.now (map (λ line. line.items) lines.items)) }
{
    let _count = typing.graph.len();
    let constants = shown_constants(alloc, symbols, decls, program)?;
    lines_of(
        alloc,
        symbols,
        &typing.graph,
        typing.constants.as_slice(),
        constants.as_slice(),
    )
}
