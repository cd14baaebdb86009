//! Types as text.
ghost use Rattle.std.specs.Prelude.{ℕ, ◌≡◌, ◌<◌, ◌++◌, ◌∷◌, [], List, length, reverse, OnOk};
ghost use Rattle.lp_resolve.specs.Symbols.{Begins};
ghost use Rattle.type_graph.specs.Graph.{node_at};
ghost use Rattle.type_texts.specs.OpenTypes.{OpenType};
ghost use Rattle.type_texts.specs.TypeText.{word_text, type_text, variables_in, noted_all, noted, place_in};
ghost use Rattle.type_texts.specs.inside.Readings.{IsReading};
ghost use Rattle.type_texts.specs.inside.Tasks.{Writes, IsTaskWithin, AreWithin, tasks_weight, task_weight, total_weight};
ghost use Rattle.std.specs.Prelude.{codes};
ghost use Rattle.std.specs.Fmt.{decimal};
ghost use Rattle.type_texts.specs.declared.tasks.Task.TheVariants.{Node as NodeTask};

use crate::ends::end_of;
use crate::numbers::number_of;
use crate::tasks::{Task, push_applied};
use indexmap::IndexSet;
use lp_resolve::Symbols;
use ref_terms::Sym;
use std::alloc::AllocError;
use type_graph::{Graph, Node, Word};

// Writes a word of types.
fn write_word(symbols: &Symbols, text: &mut Vec<u8>, word: Word) -> Result<(), AllocError>
    ensures { OnOk result (text.new.items ≡ text.old.items ++ word_text symbols.now word) }
{
    let bytes = match word {
        Word::Int => b"int".as_slice(),
        Word::Text => b"string".as_slice(),
        Word::Prop => b"prop".as_slice(),
        Word::List => b"list".as_slice(),
        Word::Arrow => b"->".as_slice(),
        Word::Kind(number) => {
            if number < symbols.len() {
                symbols.name_of(Sym(number))
            } else {
                b"".as_slice()
            }
        }
    };
    text.extend_from_slice(bytes)
}

// Writes a variable.
fn write_variable(
    variables: &mut IndexSet<usize>,
    text: &mut Vec<u8>,
    variable: usize,
) -> Result<(), AllocError>
    ensures variables { OnOk result (variables.new.keys ≡ noted variables.old.keys variable) }
    ensures text { OnOk result (text.new.items ≡ text.old.items ++ (codes "A" ++ decimal (place_in variables.new.keys variable))) }
{
    let number = number_of(variables, variable)?;
    let alloc = *text.allocator();
    let written = format!(in alloc; "A{number}")?;
    text.extend_from_slice(written.as_bytes())
}

// Writes a part, or puts its own parts on the stack in its place.
fn write_task(
    symbols: &Symbols,
    graph: &Graph,
    variables: &mut IndexSet<usize>,
    text: &mut Vec<u8>,
    tasks: &mut Vec<Task>,
    task: Task,
) -> Result<(), AllocError>
    requires within { AreWithin (length graph.now) (reverse tasks.old.items) }
    requires task { IsTaskWithin (length graph.now) task }
    ensures within { OnOk result (AreWithin (length graph.now) (reverse tasks.new.items)) }
    ensures writes { OnOk result ((u : ℕ → OpenType) → IsReading (node_at graph.now) u
        → Writes symbols.now u variables.old.keys text.old.items (task ∷ reverse tasks.old.items) variables.new.keys text.new.items (reverse tasks.new.items)) }
    ensures fewer { OnOk result ((u : ℕ → OpenType) → IsReading (node_at graph.now) u → tasks_weight u tasks.new.items < total_weight u (task ∷ reverse tasks.old.items)) }
{
    match task {
        Task::Space => text.push(b' ')?,
        Task::Opening => text.push(b'(')?,
        Task::Closing => text.push(b')')?,
        Task::Arrow => text.extend_from_slice(b" ->")?,
        Task::Node(node) => write_node(symbols, graph, variables, text, tasks, node)?,
    }
    Ok(())
}

// The same for the type at a node.
fn write_node(
    symbols: &Symbols,
    graph: &Graph,
    variables: &mut IndexSet<usize>,
    text: &mut Vec<u8>,
    tasks: &mut Vec<Task>,
    node: usize,
) -> Result<(), AllocError>
    requires within { AreWithin (length graph.now) (reverse tasks.old.items) }
    requires node { node < length graph.now }
    ensures within { OnOk result (AreWithin (length graph.now) (reverse tasks.new.items)) }
    ensures writes { OnOk result ((u : ℕ → OpenType) → IsReading (node_at graph.now) u
        → Writes symbols.now u variables.old.keys text.old.items (NodeTask node ∷ reverse tasks.old.items) variables.new.keys text.new.items (reverse tasks.new.items)) }
    ensures fewer { OnOk result ((u : ℕ → OpenType) → IsReading (node_at graph.now) u → tasks_weight u tasks.new.items < total_weight u (NodeTask node ∷ reverse tasks.old.items)) }
{
    let _count = graph.len();
    let end = end_of(graph, node);
    match graph.node(end) {
        Node::Free => write_variable(variables, text, end),
        Node::Leaf(word) => write_word(symbols, text, word),
        Node::Apply(left, right) => push_applied(graph, tasks, left, right),
        Node::Same(_) => Ok(()),
    }
}

/// Writes the type at a node; its variables are numbered after those that are there.
///
/// Errors: want of memory. Costs as much as is written.
pub fn write_type(
    symbols: &Symbols,
    graph: &Graph,
    variables: &mut IndexSet<usize>,
    text: &mut Vec<u8>,
    node: usize,
) -> Result<(), AllocError>
    requires { node < length graph.now }
    ensures { OnOk result ((u : ℕ → OpenType) → IsReading (node_at graph.now) u
        → Writes symbols.now u variables.old.keys text.old.items (NodeTask node ∷ []) variables.new.keys text.new.items []) }
{
    let _count = graph.len();
    let mut tasks = Vec::new(*text.allocator());
    tasks.push(Task::Node(node))?;
    while let Some(task) = tasks.pop() {
        write_task(symbols, graph, variables, text, &mut tasks, task)?;
    }
    Ok(())
}
