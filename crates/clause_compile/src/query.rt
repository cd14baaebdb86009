//! Instances of queries.

ghost use Rattle.std.specs.Prelude.{◌≡◌, [], length, IfOk};
ghost use Rattle.level_terms.specs.Growth.{Grows};
ghost use Rattle.lp_resolve.specs.Plain.{plain_query};
ghost use Rattle.lp_resolve.specs.Trees.{IsWithin, as_term};
ghost use Rattle.clause_compile.specs.Queries.{IsQueryOf};

use crate::compiling::compile_term;
use crate::instance::{Room, first_of, make_terms, make_variables};
use level_terms::{Heap, TermId};
use lp_resolve::Query;
use std::alloc::{AllocError, Global};

/// A query in the heap.
#[derive(Drop)]
pub struct QueryInstance {
    /// The nodes of its variables, whose numbers are those of the query.
    pub variables: Vec<TermId>,
    pub goal: TermId,
}

/// Makes a query's variables at depth 0, and its goal over them. The heap has no variable yet, so that
/// the variables have the query's numbers.
///
/// Errors: want of memory.
pub fn query_of(alloc: Global, heap: &mut Heap, query: &Query) -> Result<QueryInstance, AllocError>
    requires closed { heap.old.depths ≡ [] }
    requires within { IsWithin (length query.now.vars) 0 (as_term query.now.goal) }
    ensures query { IfOk result (IsQueryOf (plain_query query.now) heap.new) }
    ensures grows { Grows heap.old heap.new [] [] }
{
    let count = query.vars.len();
    let skeleton = compile_term(alloc, heap, &query.goal, count)?;
    heap.is_sound();
    let mut variables = Vec::new(alloc);
    make_variables(heap, count, 0, &mut variables)?;
    heap.is_sound();
    let mut room = Room::new(alloc);
    let mut terms = Vec::new(alloc);
    make_terms(
        alloc,
        heap,
        &skeleton,
        0,
        variables.as_slice(),
        &mut room,
        &mut terms,
    )?;
    let goal = first_of(terms.as_slice());
    Ok(QueryInstance { variables, goal })
}
