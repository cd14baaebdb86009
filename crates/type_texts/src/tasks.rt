//! What is still to be written of a type.
ghost use Rattle.std.specs.Prelude.{ℕ, ◌≡◌, ◌<◌, ◌++◌, length, reverse, OnOk};
ghost use Rattle.type_graph.specs.Graph.{node_at};
ghost use Rattle.type_texts.specs.OpenTypes.{OpenType};
ghost use Rattle.type_texts.specs.inside.Readings.{IsReading};
ghost use Rattle.type_texts.specs.inside.Tasks.{bracketed_task, applied_tasks};

use crate::ends::{is_applied, is_arrow, is_arrow_word, is_left_of_arrow};
use std::alloc::AllocError;
use type_graph::Graph;

/// A part of a text.
#[derive(Clone, Copy)]
pub enum Task {
    /// The type at a node.
    Node(usize),
    Space,
    Opening,
    Closing,
    Arrow,
}

// Puts the type at a node on the stack, in brackets or not.
fn push_bracketed(tasks: &mut Vec<Task>, brackets: bool, node: usize) -> Result<(), AllocError>
    ensures { OnOk result (tasks.new.items ≡ tasks.old.items ++ reverse (bracketed_task brackets node)) }
{
    if brackets {
        tasks.push(Task::Closing)?;
    }
    tasks.push(Task::Node(node))?;
    if brackets {
        tasks.push(Task::Opening)?;
    }
    Ok(())
}

/// Puts the parts of the type at one node applied to that at another on the stack, the first one last.
///
/// Errors: want of memory.
pub fn push_applied(
    graph: &Graph,
    tasks: &mut Vec<Task>,
    left: usize,
    right: usize,
) -> Result<(), AllocError>
    requires left { left < length graph.now }
    requires right { right < length graph.now }
    ensures { OnOk result ((u : ℕ → OpenType) → IsReading (node_at graph.now) u → tasks.new.items ≡ tasks.old.items ++ reverse (applied_tasks u left right)) }
{
    if is_arrow_word(graph, left) {
        let brackets = is_arrow(graph, right);
        tasks.push(Task::Arrow)?;
        return push_bracketed(tasks, brackets, right);
    }
    let brackets = !is_left_of_arrow(graph, left) && is_applied(graph, right);
    push_bracketed(tasks, brackets, right)?;
    tasks.push(Task::Space)?;
    tasks.push(Task::Node(left))?;
    Ok(())
}
