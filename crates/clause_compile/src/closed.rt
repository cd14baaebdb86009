//! Abstractions without variables, and without names that are bound outside them.
//!
//! Trees come from texts, whose nesting is bounded, so these functions call themselves.

ghost use Rattle.std.specs.Prelude.{◌≡◌, true, [], IfOk};
ghost use Rattle.ref_terms.specs.terms.Eta.{lam};
ghost use Rattle.ref_terms.specs.terms.Term.{Term};
ghost use Rattle.ref_terms.specs.search.Front.{term_of};
ghost use Rattle.level_terms.specs.Growth.{Grows};
ghost use Rattle.level_terms.specs.Reading.{read};
ghost use Rattle.level_terms.specs.Valid.{IsValid};
ghost use Rattle.lp_resolve.specs.Trees.{as_term, head_term, IsWithin};
ghost use Rattle.clause_compile.specs.Instances.{names};
ghost use Rattle.clause_compile.specs.inside.Compiled.{AllWithin, IsDraft, IsPartOf};

use crate::instance::{Room, first_of, make_terms};
use crate::making::sum_of;
use crate::skeleton::{Part, Skeleton, Step};
use level_terms::{Heap, TermId};
use ref_terms::{Head, Sequence, Tree};
use std::alloc::{AllocError, Global};

/// Whether a tree is over no variables, under so many abstractions.
#[cycle(closed)]
pub(crate) fn is_closed(tree: &Tree, depth: usize) -> Result<bool, AllocError>
    ensures { IfOk result (λ b. b ≡ true → IsWithin 0 depth (as_term tree.now)) }
{
    match tree {
        Tree::Lam(body) => {
            let is = is_closed(body.get(), sum_of(depth, 1)?)?;
            Ok(is)
        }
        Tree::Ap(head, args) => {
            if !is_closed_head(head, depth)? {
                return Ok(false);
            }
            let are = are_closed(args.as_slice(), depth)?;
            Ok(are)
        }
    }
}

/// The same of a head, without its arguments.
#[cycle(closed)]
fn is_closed_head(head: &Head, depth: usize) -> Result<bool, AllocError>
    ensures { IfOk result (λ b. b ≡ true → IsWithin 0 depth (head_term head.now)) }
{
    match head {
        Head::Con(_) => Ok(true),
        Head::Int(_) => Ok(true),
        Head::Str(_) => Ok(true),
        Head::Bound(i) => Ok(*i < depth),
        Head::ClauseVar(_) => Ok(false),
        Head::Stuck(abstraction) => {
            let is = is_closed(abstraction.get(), depth)?;
            Ok(is)
        }
    }
}

/// The same of each of these trees.
#[cycle(closed)]
fn are_closed(trees: &[Tree], depth: usize) -> Result<bool, AllocError>
    ensures { IfOk result (λ b. b ≡ true → AllWithin 0 depth trees.now) }
{
    for tree in trees {
        if !is_closed(tree, depth)? {
            return Ok(false);
        }
    }
    Ok(true)
}

/// The node of a closed abstraction, where these steps make its body under its name.
pub(crate) fn closed_lam(
    alloc: Global,
    heap: &mut Heap,
    tree: &Tree,
    steps: Sequence<Step>,
    body: Part,
) -> Result<TermId, AllocError>
    requires draft { IsDraft 0 heap.old steps }
    requires within { IsWithin 0 0 (as_term tree.now) }
    requires body { (t : Term) × IsPartOf 0 heap.old.nodes steps 1 body t × (lam t ≡ term_of 0 tree.now) }
    ensures reads { IfOk result (λ r. read heap.new r.index names ≡ term_of 0 tree.now) }
    ensures valid { IfOk result (λ r. IsValid heap.new r.index 0) }
    ensures variables { heap.new.depths ≡ heap.old.depths }
    ensures grows { Grows heap.old heap.new [] [] }
{
    heap.is_sound();
    let mut steps = steps;
    let made = steps.len();
    steps.push(Step::Lam { level: 0, body })?;
    let mut roots = Sequence::new(alloc);
    roots.push(Part::Made(made))?;
    let skeleton = Skeleton { steps, roots };
    let variables = Vec::new(alloc);
    let mut room = Room::new(alloc);
    let mut terms = Vec::new(alloc);
    make_terms(
        alloc,
        heap,
        &skeleton,
        0,
        variables.as_slice(),
        &mut room,
        &mut terms,
    )?;
    heap.is_sound();
    let t = first_of(terms.as_slice());
    Ok(t)
}
