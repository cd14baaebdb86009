//! Trees, as they are written.
use lam_io::ByteText;
use sqlite_items::{Boxed, Items};

/// A place in the texts: the number of a file and the byte in it.
#[derive(Clone, Copy, Debug, PartialEq, Eq)]
pub struct Place {
    pub file: u32,
    pub at: usize,
}

/// What a word is.
#[derive(Clone, Copy, Debug, PartialEq, Eq)]
pub enum WordKind {
    /// A name, or `!`.
    Name,
    /// A variable.
    Var,
    /// The lone `_`.
    Hole,
}

/// An infix operator.
#[derive(Clone, Copy, Debug, PartialEq, Eq)]
pub enum Operator {
    /// `:-`
    Implied,
    /// `;`
    Or,
    /// `,`
    Comma,
    /// `=>`
    Implies,
    /// `=`
    Equal,
    /// `is`
    Is,
    /// `::`
    Cons,
    /// `+`
    Plus,
    /// `-`
    Minus,
    /// `*`
    Times,
}

/// A term as it is written. The terms inside it are trees of their own.
#[derive(Debug, Drop)]
pub enum AstTerm {
    /// A word with its text.
    Word(WordKind, ByteText, Place),
    /// An integer.
    Int(i64, Place),
    /// A string, each escape replaced by its character.
    Str(ByteText, Place),
    /// A head and its arguments, of which there is at least one.
    App(Boxed<AstTerm>, AstTerms),
    /// A word that is bound, at its place, and the body. A lone `_` has the text `_`.
    Bind(ByteText, Place, Boxed<AstTerm>),
    /// An operator at its place, with its left and right side.
    Op(Operator, Place, Boxed<AstTerm>, Boxed<AstTerm>),
    /// `pi`, or else `sigma`, at its place, and what it is applied to. Each word that it binds has one of its own, at the same place.
    Quant(bool, Place, Boxed<AstTerm>),
    /// A list, at the place of its `[`: its elements, of which there is at least one where it has a tail, and its tail.
    List(Place, AstTerms, Option<Boxed<AstTerm>>),
}

/// A list of terms.
pub type AstTerms = Items<AstTerm>;

/// A word with its place.
#[derive(Debug, Drop)]
pub struct Word {
    pub text: ByteText,
    pub place: Place,
}

/// A list of words.
pub type Words = Items<Word>;

/// Two words.
#[derive(Debug, Drop)]
pub struct WordPair {
    pub left: Word,
    pub right: Word,
}

/// A list of pairs of words.
pub type WordPairs = Items<WordPair>;

/// A type as it is written.
#[derive(Debug, Drop)]
pub enum AstType {
    /// A name or variable and its arguments.
    Named(Word, AstTypes),
    /// `->`, with its left and right side.
    Arrow(Boxed<AstType>, Boxed<AstType>),
}

/// A list of types.
pub type AstTypes = Items<AstType>;

/// An argument of a `pred`: whether its mode is `i`, and its type.
#[derive(Debug, Drop)]
pub struct AstArg {
    pub input: bool,
    pub ty: AstType,
}

/// A list of arguments of a `pred`.
pub type AstArgs = Items<AstArg>;

/// A declaration.
#[derive(Debug, Drop)]
pub enum Decl {
    /// `kind`: the names, and the number of arrows of their kind.
    KindDecl(Words, usize),
    /// `type`: the names and their type.
    TypeDecl(Words, AstType),
    /// `pred`: the name and its arguments.
    PredDecl(Word, AstArgs),
}

/// A clause, with the place of its first token.
#[derive(Debug, Drop)]
pub struct Clause {
    pub term: AstTerm,
    pub place: Place,
}

/// A head of a rule: its goal, and the variable that stands for its context where it has one.
#[derive(Debug, Drop)]
pub struct RuleHead {
    pub context: Option<Word>,
    pub goal: AstTerm,
}

/// A list of heads.
pub type RuleHeads = Items<RuleHead>;

/// A rule, with the place of its `rule`.
#[derive(Debug, Drop)]
pub struct Rule {
    pub kept: RuleHeads,
    pub removed: RuleHeads,
    pub pairs: WordPairs,
    pub tests: AstTerms,
    pub body: Option<AstTerm>,
    pub place: Place,
}

/// A list of rules.
pub type RuleList = Items<Rule>;

/// A block of constraint rules: the names of its predicates, and the rules.
#[derive(Debug, Drop)]
pub struct Block {
    pub names: Words,
    pub rules: RuleList,
}

/// An item of a program.
#[derive(Debug, Drop)]
pub enum Item {
    Decl(Decl),
    Clause(Clause),
    Block(Block),
}

/// A query.
#[derive(Debug, Drop)]
pub struct AstGoal {
    pub term: AstTerm,
}
