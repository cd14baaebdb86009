//! The value of an expression.
//!
//! What is still to be done stands in a list, so that depth is bounded by memory alone.

ghost use Rattle.std.specs.Prelude.{◌≡◌, ℕ, [], ◌∷◌, ◌++◌, map, reverse, IfOk, IfErr, OnOk};
ghost use Rattle.level_terms.specs.Graph.{Graph};
ghost use Rattle.level_terms.specs.Growth.{Grows};
ghost use Rattle.level_terms.specs.Reading.{read};
ghost use Rattle.level_terms.specs.Valid.{IsValid};
ghost use Rattle.ref_terms.specs.search.Arithmetic.{value_of};
ghost use Rattle.ref_terms.specs.search.Fault.{Good};
ghost use Rattle.beta_fragment.specs.Names.{names};
ghost use Rattle.builtins.specs.Outcome.{StopsBy};
ghost use Rattle.builtins.specs.inside.Numbers.{IsExpression};
ghost use Rattle.builtins.specs.inside.Pending.{IsNext, IsStopped};

use crate::expression::{Expression, expression_of};
use crate::number::{Operator, calculate};
use beta_fragment::{UnifyStop, whnf};
use level_terms::{Heap, TermId};
use ref_terms::Fault;
use std::alloc::{AllocError, Global};

/// An operator that waits for an operand's value.
#[derive(Clone, Copy)]
pub(crate) enum Frame {
    /// The left operand is evaluated; this is the right one.
    Left(Operator, TermId),
    /// The right operand is evaluated; this is the left one's value.
    Right(Operator, i64),
}

/// What follows once a value is known.
#[derive(Clone, Copy)]
pub(crate) enum Next {
    /// This operand is evaluated next.
    Operand(TermId),
    /// The whole has this value.
    Done(i64),
}

/// The value of an expression. Operands are looked at from left to right, and both before their
/// operator; the leftmost fault decides. Makes no variable.
pub(crate) fn evaluate(
    alloc: Global,
    heap: &mut Heap,
    e: TermId,
    depth: usize,
) -> Result<i64, UnifyStop>
    requires { IsValid heap.old e.index depth }
    ensures value { IfOk result (λ z. value_of (read heap.old e.index names) ≡ Good z) }
    ensures stops { IfErr result (StopsBy (value_of (read heap.old e.index names))) }
    ensures variables { heap.new.depths ≡ heap.old.depths }
    ensures grows { Grows heap.old heap.new [] [] }
{
    let mut work = Vec::new(alloc);
    let mut node = e;
    loop {
        heap.is_sound();
        match look(alloc, heap, node, depth)? {
            Expression::Value(z) => match finish(&mut work, z)? {
                Next::Operand(b) => node = b,
                Next::Done(z) => return Ok(z),
            },
            Expression::Operation(operator, a, b) => {
                put(&mut work, Frame::Left(operator, b))?;
                node = a;
            }
            Expression::Wrong(e) => return Err(UnifyStop::Fault(e)),
        }
    }
}

/// What is seen of an expression.
fn look(alloc: Global, heap: &mut Heap, e: TermId, depth: usize) -> Result<Expression, AllocError>
    requires { IsValid heap.old e.index depth }
    ensures seen { IfOk result (IsExpression heap.new depth (read heap.old e.index names)) }
    ensures variables { heap.new.depths ≡ heap.old.depths }
    ensures grows { Grows heap.old heap.new [] [] }
{
    let form = whnf(alloc, heap, e, depth)?;
    Ok(expression_of(form))
}

/// Puts a frame last.
fn put(work: &mut Vec<Frame>, frame: Frame) -> Result<(), AllocError>
    ensures { OnOk result (work.new.items ≡ work.old.items ++ frame ∷ []) }
{
    work.push(frame)?;
    Ok(())
}

/// The frame of a right operand, after the left one's value.
fn right_frame(operator: Operator, value: i64) -> Frame
    ensures { result ≡ Frame.Right operator value }
{
    Frame::Right(operator, value)
}

/// Hands a value to the operators that wait for it, the newest first, up to one whose right operand
/// isn't evaluated yet.
fn finish(work: &mut Vec<Frame>, z: i64) -> Result<Next, UnifyStop>
    ensures next { IfOk result (IsNext work.old.items work.new.items z) }
    ensures stops { IfErr result (IsStopped work.old.items z) }
{
    let mut value = z;
    while let Some(frame) = work.pop() {
        match frame {
            Frame::Left(operator, b) => {
                put(work, right_frame(operator, value))?;
                return Ok(Next::Operand(b));
            }
            Frame::Right(operator, left) => match calculate(operator, left, value) {
                Some(result) => value = result,
                None => return Err(UnifyStop::Fault(Fault::Number)),
            },
        }
    }
    Ok(Next::Done(value))
}
