//! What was read of a term.
use crate::ast::{AstTerm, AstTerms, Operator, Place, Word, WordKind, Words};
use crate::stack::Stack;
use lam_io::ByteText;

/// What stands before an atom: nothing, a head with the arguments before the atom, or a quantifier.
#[derive(Drop)]
pub enum Front {
    Nothing,
    Applied(AstTerm, AstTerms),
    Quantifier(bool, Place),
}

/// The atom that was read last. A word may be bound, and a word or a group may be a head.
#[derive(Drop)]
pub enum Latest {
    Word(WordKind, ByteText, Place),
    Group(AstTerm),
    Plain(AstTerm),
}

/// A phrase that is not over.
#[derive(Drop)]
pub enum Frame {
    /// An operator at its place, with its left side.
    Left(Operator, Place, AstTerm),
    /// The body of a binder.
    Body(Front, Word),
    /// The body of a quantifier with its words.
    Quantified(bool, Place, Words),
    /// A round bracket.
    Group(Front),
    /// A list with the elements that a comma follows.
    List(Front, Place, AstTerms),
    /// The tail of a list, behind its bar.
    Tail(Front, Place, AstTerms),
    /// A test of a rule, with nothing around it: no operator, and no body that goes on to its end.
    Test,
}

/// What was read of a term.
#[derive(Drop)]
pub enum State {
    /// An operand is awaited.
    Want(Stack<Frame>),
    /// A quantifier.
    Quantifier(bool, Place, Stack<Frame>),
    /// An operand is there, up to its last atom.
    Have(Front, Latest, Stack<Frame>),
    /// A quantifier with at least two words.
    Words(bool, Place, Words, Word, Stack<Frame>),
}
