//! The types of the reserved constants.
ghost use Rattle.std.specs.Prelude.{◌≡◌, IfOk};
ghost use Rattle.decl_types.specs.Reserved.{list, connective, quantifier, comparison, property, relation, application, operation, reserved_type, suspension, cell, A, B, to, prop, int};

use crate::schemes::{apply, to};
use ref_terms::Reserved;
use std::alloc::{AllocError, Global};
use type_graph::Word;
use type_terms::Scheme;

// `list A`
fn list(alloc: Global) -> Result<Scheme, AllocError>
    ensures { IfOk result (λ scheme. scheme ≡ list A) }
{
    apply(alloc, Scheme::Leaf(Word::List), Scheme::Variable(0))
}

// A function of two arguments.
fn binary(
    alloc: Global,
    left: Scheme,
    right: Scheme,
    result_type: Scheme,
) -> Result<Scheme, AllocError>
    ensures { IfOk result (λ scheme. scheme ≡ to left (to right result_type)) }
{
    let rest = to(alloc, right, result_type)?;
    to(alloc, left, rest)
}

// `prop -> prop -> prop`
fn connective(alloc: Global) -> Result<Scheme, AllocError>
    ensures { IfOk result (λ scheme. scheme ≡ connective) }
{
    binary(
        alloc,
        Scheme::Leaf(Word::Prop),
        Scheme::Leaf(Word::Prop),
        Scheme::Leaf(Word::Prop),
    )
}

// `A -> prop`
fn property(alloc: Global) -> Result<Scheme, AllocError>
    ensures { IfOk result (λ scheme. scheme ≡ property) }
{
    to(alloc, Scheme::Variable(0), Scheme::Leaf(Word::Prop))
}

// `(A -> prop) -> prop`
fn quantifier(alloc: Global) -> Result<Scheme, AllocError>
    ensures { IfOk result (λ scheme. scheme ≡ quantifier) }
{
    let body = property(alloc)?;
    to(alloc, body, Scheme::Leaf(Word::Prop))
}

// `A -> A -> prop`
fn comparison(alloc: Global) -> Result<Scheme, AllocError>
    ensures { IfOk result (λ scheme. scheme ≡ comparison) }
{
    binary(
        alloc,
        Scheme::Variable(0),
        Scheme::Variable(0),
        Scheme::Leaf(Word::Prop),
    )
}

// `int -> int -> prop`
fn relation(alloc: Global) -> Result<Scheme, AllocError>
    ensures { IfOk result (λ scheme. scheme ≡ relation) }
{
    binary(
        alloc,
        Scheme::Leaf(Word::Int),
        Scheme::Leaf(Word::Int),
        Scheme::Leaf(Word::Prop),
    )
}

// `int -> int -> int`
fn operation(alloc: Global) -> Result<Scheme, AllocError>
    ensures { IfOk result (λ scheme. scheme ≡ operation) }
{
    binary(
        alloc,
        Scheme::Leaf(Word::Int),
        Scheme::Leaf(Word::Int),
        Scheme::Leaf(Word::Int),
    )
}

// `(A -> B) -> A -> B -> prop`
fn application(alloc: Global) -> Result<Scheme, AllocError>
    ensures { IfOk result (λ scheme. scheme ≡ application) }
{
    let function = to(alloc, Scheme::Variable(0), Scheme::Variable(1))?;
    let rest = binary(
        alloc,
        Scheme::Variable(0),
        Scheme::Variable(1),
        Scheme::Leaf(Word::Prop),
    )?;
    to(alloc, function, rest)
}

// `prop -> list A -> prop`
fn suspension(alloc: Global) -> Result<Scheme, AllocError>
    ensures { IfOk result (λ scheme. scheme ≡ suspension) }
{
    let keys = list(alloc)?;
    binary(
        alloc,
        Scheme::Leaf(Word::Prop),
        keys,
        Scheme::Leaf(Word::Prop),
    )
}

// `A -> list A -> list A`
fn cell(alloc: Global) -> Result<Scheme, AllocError>
    ensures { IfOk result (λ scheme. scheme ≡ cell) }
{
    let rest = list(alloc)?;
    let whole = list(alloc)?;
    binary(alloc, Scheme::Variable(0), rest, whole)
}

/// The type of a reserved constant; the words of tests have none.
///
/// Errors: want of memory.
pub fn reserved_type(alloc: Global, word: Reserved) -> Result<Option<Scheme>, AllocError>
    ensures { IfOk result (λ scheme. scheme ≡ reserved_type word) }
{
    let scheme = match word {
        Reserved::True | Reserved::Fail | Reserved::Cut => Scheme::Leaf(Word::Prop),
        Reserved::And | Reserved::Or | Reserved::Implies | Reserved::If => connective(alloc)?,
        Reserved::Pi | Reserved::Sigma => quantifier(alloc)?,
        Reserved::Equal | Reserved::Same => comparison(alloc)?,
        Reserved::Var | Reserved::Name | Reserved::Print => property(alloc)?,
        Reserved::Is | Reserved::Less => relation(alloc)?,
        Reserved::Beta => application(alloc)?,
        Reserved::Suspend => suspension(alloc)?,
        Reserved::Nil => list(alloc)?,
        Reserved::Cons => cell(alloc)?,
        Reserved::Plus | Reserved::Minus | Reserved::Times => operation(alloc)?,
        Reserved::Nonvar | Reserved::Distinct => return Ok(None),
    };
    Ok(Some(scheme))
}
