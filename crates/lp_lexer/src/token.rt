//! Tokens.

/// A name that is no name of a constant.
#[derive(Clone, Copy, Debug, PartialEq, Eq)]
pub enum Keyword {
    /// `pi`
    Pi,
    /// `sigma`
    Sigma,
    /// `pred`
    Pred,
    /// `kind`
    Kind,
    /// `type`
    TypeWord,
    /// `constraint`
    Constraint,
    /// `rule`
    Rule,
    /// `is`
    Is,
}

/// A symbol.
#[derive(Clone, Copy, Debug, PartialEq, Eq)]
pub enum Symbol {
    /// `<=>`
    Equivalent,
    /// `:-`
    Implied,
    /// `::`
    Cons,
    /// `=>`
    Implies,
    /// `->`
    Arrow,
    /// `?-`
    Turnstile,
    /// `(`
    OpenRound,
    /// `)`
    CloseRound,
    /// `[`
    OpenSquare,
    /// `]`
    CloseSquare,
    /// `{`
    OpenCurly,
    /// `}`
    CloseCurly,
    /// `|`
    Bar,
    /// `\`
    Lambda,
    /// `,`
    Comma,
    /// `;`
    Semicolon,
    /// `.`
    Dot,
    /// `!`
    Cut,
    /// `=`
    Equal,
    /// `:`
    Colon,
    /// `+`
    Plus,
    /// `-`
    Minus,
    /// `*`
    Times,
    /// `>`
    Greater,
    /// `~`
    Tilde,
}

/// What a token is.
#[derive(Clone, Copy, Debug, PartialEq, Eq)]
pub enum TokenKind {
    Name,
    /// A name that begins with an ASCII capital letter or `_`, and isn't the lone `_`.
    Var,
    /// The lone `_`.
    Hole,
    Int(i64),
    Str,
    Key(Keyword),
    Sym(Symbol),
}

/// A token, from the byte `at` up to the byte `end`, both counted from the beginning of the text.
#[derive(Clone, Copy, Debug, PartialEq, Eq)]
pub struct Token {
    pub kind: TokenKind,
    pub at: usize,
    pub end: usize,
}
