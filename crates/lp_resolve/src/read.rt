//! Terms, from the parser's trees.
ghost use Rattle.std.specs.Prelude.{◌≡◌, [], ◌∷◌, false, IfOk, OnOk, IsTrue, length, map, flat_map};
ghost use Rattle.std.specs.Option.{option_map};
ghost use Rattle.ref_terms.specs.terms.Term as term;
ghost use Rattle.lp_resolve.specs.Symbols.{number_of, interned, interned_all, Begins};
ghost use Rattle.lp_resolve.specs.Texts.{texts_of};
ghost use Rattle.lp_resolve.specs.Trees.{as_term, head_term, shape, head_shape, all_fit};
ghost use Rattle.lp_resolve.specs.Variables.{number_in, met_word};
ghost use Rattle.lp_resolve.specs.Reading.{Reading, reading, constant, word, application, reserved, operator_name, quantifier_name, list_term};
ghost use Rattle.lp_resolve.specs.Reads.{IsReadBy, IsRead, AreRead};
ghost use Rattle.lp_resolve.specs.Queries.{query_var, query_of, IsFormedQuery};
ghost use Rattle.lp_resolve.specs.inside.Named.{IsQueryNamed};

use crate::build::{abstraction, applied_all};
use crate::query::{Query, QueryVar, QueryVars};
use crate::scope::Scope;
use crate::symbols::Symbols;
use crate::variable::Variable;
use crate::variables::Variables;
use lp_parser::{AstGoal, AstTerm, AstTerms, Operator, Place, Word, WordKind};
use ref_terms::{Args, Head, Sequence, Sym, Tree};
use std::alloc::{AllocError, Global};

// The constant `[]`.
const NIL: Sym = Sym(18);

// The constant `::`.
const CONS: Sym = Sym(19);

// The constant of an operator.
fn operator_symbol(operator: Operator) -> Sym
    ensures { term.At (term.Con result.0) ≡ reserved (operator_name operator) }
{
    match operator {
        Operator::Comma => Sym(3),
        Operator::Or => Sym(4),
        Operator::Implies => Sym(5),
        Operator::Implied => Sym(6),
        Operator::Equal => Sym(9),
        Operator::Is => Sym(13),
        Operator::Cons => Sym(19),
        Operator::Plus => Sym(20),
        Operator::Minus => Sym(21),
        Operator::Times => Sym(22),
    }
}

// The constant `pi` or `sigma`.
fn quantifier_symbol(universal: bool) -> Sym
    ensures { term.At (term.Con result.0) ≡ reserved (quantifier_name universal) }
{
    if universal { Sym(7) } else { Sym(8) }
}

// A head that isn't stuck, without arguments. Takes no memory.
fn atom(alloc: Global, head: Head) -> Tree
    requires fits { IsTrue (head_shape head).fits }
    requires plain { (head_shape head).abstraction ≡ false }
    ensures term { as_term result ≡ head_term head }
    ensures fits { IsTrue (shape result).fits }
{
    Tree::Ap(head, Sequence::new(alloc))
}

// The head of a word.
fn read_word(
    kind: WordKind,
    symbol: Sym,
    place: Place,
    scope: &Scope,
    variables: &mut Variables,
) -> Result<Head, AllocError>
    ensures read { IfOk result (λ head. word kind symbol.0 place scope.now variables.old ≡ record { term = head_term head; met = variables.new }) }
    ensures fits { IfOk result (λ head. IsTrue (head_shape head).fits) }
    ensures plain { IfOk result (λ head. (head_shape head).abstraction ≡ false) }
{
    match kind {
        WordKind::Name => match scope.index_of(symbol) {
            Some(index) => Ok(Head::Bound(index)),
            None => Ok(Head::Con(symbol)),
        },
        WordKind::Var => match scope.index_of(symbol) {
            Some(index) => Ok(Head::Bound(index)),
            None => Ok(Head::ClauseVar(variables.meet_word(symbol, place)?)),
        },
        WordKind::Hole => Ok(Head::ClauseVar(variables.meet_hole(symbol, place)?)),
    }
}

// The list of these elements before a tail.
fn list_tree(alloc: Global, elements: Args, tail: Tree) -> Result<Tree, AllocError>
    requires elements { IsTrue (all_fit (map shape elements)) }
    requires tail { IsTrue (shape tail).fits }
    ensures term { IfOk result (λ tree. as_term tree ≡ list_term (map as_term elements) (as_term tail)) }
    ensures fits { IfOk result (λ tree. IsTrue (shape tree).fits) }
{
    let mut elements = elements.into_vec();
    let mut list = tail;
    while let Some(element) = elements.pop() {
        list = constant_of_two(alloc, CONS, element, list)?;
    }
    Ok(list)
}

// The tree of a word.
fn read_word_tree(
    alloc: Global,
    term: &AstTerm,
    symbols: &mut Symbols,
    scope: &mut Scope,
    variables: &mut Variables,
) -> Result<Tree, AllocError>
    ensures table { OnOk result (symbols.new ≡ interned_all symbols.old (texts_of term.now)) }
    ensures begins { Begins symbols.old symbols.new }
    ensures scope { OnOk result (scope.new ≡ scope.old) }
    ensures read { IfOk result (IsRead symbols.new scope.old variables.old term.now variables.new) }
{
    let AstTerm::Word(kind, text, place) = term else {
        return Err(AllocError);
    };
    let symbol = symbols.intern(text.as_slice())?;
    let head = read_word(*kind, symbol, *place, scope, variables)?;
    Ok(atom(alloc, head))
}

// The tree of a string.
fn read_string(
    alloc: Global,
    term: &AstTerm,
    symbols: &mut Symbols,
    scope: &mut Scope,
    variables: &mut Variables,
) -> Result<Tree, AllocError>
    ensures table { OnOk result (symbols.new ≡ interned_all symbols.old (texts_of term.now)) }
    ensures begins { Begins symbols.old symbols.new }
    ensures scope { OnOk result (scope.new ≡ scope.old) }
    ensures read { IfOk result (IsRead symbols.new scope.old variables.old term.now variables.new) }
{
    let AstTerm::Str(text, _) = term else {
        return Err(AllocError);
    };
    let symbol = symbols.intern(text.as_slice())?;
    Ok(atom(alloc, Head::Str(symbol)))
}

// The tree of a term under the bound words of the scope, which stays; its words go into the table.
//
// Each form has a function of its own, so that little is kept for each level of a deep term; each of them answers
// for its form alone, and is called with no other.
#[cycle(read)]
fn read(
    alloc: Global,
    term: &AstTerm,
    symbols: &mut Symbols,
    scope: &mut Scope,
    variables: &mut Variables,
) -> Result<Tree, AllocError>
    ensures table { OnOk result (symbols.new ≡ interned_all symbols.old (texts_of term.now)) }
    ensures begins { Begins symbols.old symbols.new }
    ensures scope { OnOk result (scope.new ≡ scope.old) }
    ensures read { IfOk result (IsRead symbols.new scope.old variables.old term.now variables.new) }
{
    match term {
        AstTerm::Word(_, _, _) => read_word_tree(alloc, term, symbols, scope, variables),
        AstTerm::Int(value, _) => Ok(atom(alloc, Head::Int(*value))),
        AstTerm::Str(_, _) => read_string(alloc, term, symbols, scope, variables),
        AstTerm::App(_, _) => read_application(alloc, term, symbols, scope, variables),
        AstTerm::Bind(_, _, _) => read_abstraction(alloc, term, symbols, scope, variables),
        AstTerm::Op(_, _, _, _) => read_operator(alloc, term, symbols, scope, variables),
        AstTerm::Quant(_, _, _) => read_quantifier(alloc, term, symbols, scope, variables),
        AstTerm::List(_, _, _) => read_list(alloc, term, symbols, scope, variables),
    }
}

// The tree of an application.
#[cycle(read)]
fn read_application(
    alloc: Global,
    term: &AstTerm,
    symbols: &mut Symbols,
    scope: &mut Scope,
    variables: &mut Variables,
) -> Result<Tree, AllocError>
    ensures table { OnOk result (symbols.new ≡ interned_all symbols.old (texts_of term.now)) }
    ensures begins { Begins symbols.old symbols.new }
    ensures scope { OnOk result (scope.new ≡ scope.old) }
    ensures read { IfOk result (IsRead symbols.new scope.old variables.old term.now variables.new) }
{
    let AstTerm::App(head, arguments) = term else {
        return Err(AllocError);
    };
    let function = read(alloc, head.get(), symbols, scope, variables)?;
    let arguments = read_all(alloc, arguments, symbols, scope, variables)?;
    applied_all(alloc, function, arguments)
}

// The tree of an abstraction.
#[cycle(read)]
fn read_abstraction(
    alloc: Global,
    term: &AstTerm,
    symbols: &mut Symbols,
    scope: &mut Scope,
    variables: &mut Variables,
) -> Result<Tree, AllocError>
    ensures table { OnOk result (symbols.new ≡ interned_all symbols.old (texts_of term.now)) }
    ensures begins { Begins symbols.old symbols.new }
    ensures scope { OnOk result (scope.new ≡ scope.old) }
    ensures read { IfOk result (IsRead symbols.new scope.old variables.old term.now variables.new) }
{
    let AstTerm::Bind(text, _, body) = term else {
        return Err(AllocError);
    };
    let word = symbols.intern(text.as_slice())?;
    scope.enter(word)?;
    let body = read(alloc, body.get(), symbols, scope, variables)?;
    scope.leave();
    abstraction(alloc, body)
}

// The tree of an operator with its operands.
#[cycle(read)]
fn read_operator(
    alloc: Global,
    term: &AstTerm,
    symbols: &mut Symbols,
    scope: &mut Scope,
    variables: &mut Variables,
) -> Result<Tree, AllocError>
    ensures table { OnOk result (symbols.new ≡ interned_all symbols.old (texts_of term.now)) }
    ensures begins { Begins symbols.old symbols.new }
    ensures scope { OnOk result (scope.new ≡ scope.old) }
    ensures read { IfOk result (IsRead symbols.new scope.old variables.old term.now variables.new) }
{
    let AstTerm::Op(operator, _, left, right) = term else {
        return Err(AllocError);
    };
    let left = read(alloc, left.get(), symbols, scope, variables)?;
    let right = read(alloc, right.get(), symbols, scope, variables)?;
    constant_of_two(alloc, operator_symbol(*operator), left, right)
}

// The tree of a quantifier with what it is applied to.
#[cycle(read)]
fn read_quantifier(
    alloc: Global,
    term: &AstTerm,
    symbols: &mut Symbols,
    scope: &mut Scope,
    variables: &mut Variables,
) -> Result<Tree, AllocError>
    ensures table { OnOk result (symbols.new ≡ interned_all symbols.old (texts_of term.now)) }
    ensures begins { Begins symbols.old symbols.new }
    ensures scope { OnOk result (scope.new ≡ scope.old) }
    ensures read { IfOk result (IsRead symbols.new scope.old variables.old term.now variables.new) }
{
    let AstTerm::Quant(universal, _, body) = term else {
        return Err(AllocError);
    };
    let body = read(alloc, body.get(), symbols, scope, variables)?;
    constant_of_one(alloc, quantifier_symbol(*universal), body)
}

// The tree of a list.
#[cycle(read)]
fn read_list(
    alloc: Global,
    term: &AstTerm,
    symbols: &mut Symbols,
    scope: &mut Scope,
    variables: &mut Variables,
) -> Result<Tree, AllocError>
    ensures table { OnOk result (symbols.new ≡ interned_all symbols.old (texts_of term.now)) }
    ensures begins { Begins symbols.old symbols.new }
    ensures scope { OnOk result (scope.new ≡ scope.old) }
    ensures read { IfOk result (IsRead symbols.new scope.old variables.old term.now variables.new) }
{
    let AstTerm::List(_, elements, tail) = term else {
        return Err(AllocError);
    };
    let elements = read_all(alloc, elements, symbols, scope, variables)?;
    match tail {
        Some(tail) => {
            let tail = read(alloc, tail.get(), symbols, scope, variables)?;
            list_tree(alloc, elements, tail)
        }
        None => list_tree(alloc, elements, atom(alloc, Head::Con(NIL))),
    }
}

// The trees of these terms.
#[cycle(read)]
fn read_all(
    alloc: Global,
    terms: &AstTerms,
    symbols: &mut Symbols,
    scope: &mut Scope,
    variables: &mut Variables,
) -> Result<Args, AllocError>
    ensures table { OnOk result (symbols.new ≡ interned_all symbols.old (flat_map texts_of terms.now)) }
    ensures begins { Begins symbols.old symbols.new }
    ensures scope { OnOk result (scope.new ≡ scope.old) }
    ensures read { IfOk result (AreRead symbols.new scope.old variables.old terms.now variables.new) }
{
    let mut trees = Sequence::new(alloc);
    for term in terms.as_slice() {
        let tree = read(alloc, term, symbols, scope, variables)?;
        trees.push(tree)?;
    }
    Ok(trees)
}

// A constant applied to a tree.
fn constant_of_one(alloc: Global, constant: Sym, argument: Tree) -> Result<Tree, AllocError>
    requires { IsTrue (shape argument).fits }
    ensures term { IfOk result (λ tree. as_term tree ≡ term.App (term.At (term.Con constant.0)) (as_term argument)) }
    ensures fits { IfOk result (λ tree. IsTrue (shape tree).fits) }
{
    let mut arguments = Args::new(alloc);
    arguments.push(argument)?;
    Ok(Tree::Ap(Head::Con(constant), arguments))
}

// A constant applied to two trees.
fn constant_of_two(
    alloc: Global,
    constant: Sym,
    left: Tree,
    right: Tree,
) -> Result<Tree, AllocError>
    requires left { IsTrue (shape left).fits }
    requires right { IsTrue (shape right).fits }
    ensures term { IfOk result (λ tree. as_term tree ≡ term.App (term.App (term.At (term.Con constant.0)) (as_term left)) (as_term right)) }
    ensures fits { IfOk result (λ tree. IsTrue (shape tree).fits) }
{
    let mut arguments = Args::new(alloc);
    arguments.push(left)?;
    arguments.push(right)?;
    Ok(Tree::Ap(Head::Con(constant), arguments))
}

/// The tree of a term of a clause, a rule or a query, whose words go into the table and whose variables go on from those
/// that were met.
///
/// Errors: want of memory, after which the table only has grown, and the variables aren't used again.
pub(crate) fn read_term(
    alloc: Global,
    term: &AstTerm,
    symbols: &mut Symbols,
    variables: &mut Variables,
) -> Result<Tree, AllocError>
    ensures table { OnOk result (symbols.new ≡ interned_all symbols.old (texts_of term.now)) }
    ensures begins { Begins symbols.old symbols.new }
    ensures read { IfOk result (IsRead symbols.new [] variables.old term.now variables.new) }
{
    let mut scope = Scope::new(alloc);
    read(alloc, term, symbols, &mut scope, variables)
}

/// The number of a word that stands for a variable outside terms, and that is met there.
///
/// Errors: want of memory, after which the table only has grown, and the variables aren't used again.
pub(crate) fn read_variable(
    word: &Word,
    symbols: &mut Symbols,
    variables: &mut Variables,
) -> Result<usize, AllocError>
    ensures table { OnOk result (symbols.new ≡ interned symbols.old word.now.text) }
    ensures begins { Begins symbols.old symbols.new }
    ensures number { IfOk result (λ number. number ≡ number_in variables.old.names (number_of symbols.new word.now.text)) }
    ensures met { OnOk result (variables.new ≡ met_word (number_of symbols.new word.now.text) word.now.place variables.old) }
{
    let symbol = symbols.intern(word.text.as_slice())?;
    variables.meet_word(symbol, word.place)
}

// The variables of a query.
fn query_vars(alloc: Global, names: &[Variable], symbols: &Symbols) -> Result<QueryVars, AllocError>
    ensures { IfOk result (λ vars. vars ≡ map (query_var symbols.now) names.now) }
{
    let mut vars = QueryVars::new(alloc);
    for variable in names {
        vars.push(QueryVar {
            name: variable.name,
            shown: !symbols.begins_low(variable.name),
        })?;
    }
    Ok(vars)
}

/// The query of a goal, whose words go into the table.
///
/// Errors: want of memory, after which the table only has grown.
pub fn resolve_query(
    alloc: Global,
    goal: &AstGoal,
    symbols: &mut Symbols,
) -> Result<Query, AllocError>
    ensures table { OnOk result (symbols.new ≡ interned_all symbols.old (texts_of goal.now.term)) }
    ensures begins { Begins symbols.old symbols.new }
    ensures query { IfOk result (λ query. query ≡ query_of symbols.new goal.now) }
    ensures formed { IfOk result IsFormedQuery }
    ensures named { IfOk result (IsQueryNamed (length symbols.new)) }
{
    symbols.begins_reserved();
    let mut variables = Variables::new(alloc);
    let tree = read_term(alloc, &goal.term, symbols, &mut variables)?;
    let vars = query_vars(alloc, variables.names(), symbols)?;
    Ok(Query { vars, goal: tree })
}
