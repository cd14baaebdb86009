//! Laws of the definitions. The functions do nothing.
ghost use Rattle.std.specs.Prelude.{◌≡◌, ◌↔◌, ℕ, List};
ghost use Rattle.lp_parser.specs.declared.ast.AstTerm.{AstTerm};
ghost use Rattle.lp_parser.specs.declared.ast.Item.{Item};
ghost use Rattle.lp_parser.specs.declared.error.GrammarRule.{GrammarRule};
ghost use Rattle.lp_parser.specs.declared.error.GrammarRule.TheVariants as rule;
ghost use Rattle.lp_parser.specs.declared.lexeme.Lexeme.{Lexeme};
ghost use Rattle.lp_parser.specs.Program.{Program, Query};
ghost use Rattle.lp_parser.specs.Refusal.{IsUnexpected, IsDeep};
ghost use Rattle.lp_parser.specs.Reading.{Accepted, Unexpected, Deep, HasItems, HasTerm, IsProgram, IsQuery, items_of, term_of};

/// A list of lexemes is a program of one list of items at most.
pub fn one_program()
    ensures { (u : List Lexeme) (is js : List Item) → Program u is → Program u js → is ≡ js }
{}

/// A list of lexemes is a query with one term at most.
pub fn one_query()
    ensures { (u : List Lexeme) (s t : AstTerm) → Query u s → Query u t → s ≡ t }
{}

/// `items_of` accepts exactly the programs that are nowhere nested too deep.
pub fn program_read()
    ensures { (u : List Lexeme) (is : List Item) → (items_of u ≡ Accepted is) ↔ IsProgram u is }
{}

/// `term_of` accepts exactly the queries that are nowhere nested too deep.
pub fn query_read()
    ensures { (u : List Lexeme) (t : AstTerm) → (term_of u ≡ Accepted t) ↔ IsQuery u t }
{}

/// `items_of` refuses a list as unexpected exactly where it is refused so, by that rule.
pub fn program_unexpected()
    ensures { (u : List Lexeme) (i : ℕ) (r : GrammarRule) → (items_of u ≡ Unexpected i r) ↔ IsUnexpected HasItems rule.Item u i r }
{}

/// `term_of` refuses a list as unexpected exactly where it is refused so, by that rule.
pub fn query_unexpected()
    ensures { (u : List Lexeme) (i : ℕ) (r : GrammarRule) → (term_of u ≡ Unexpected i r) ↔ IsUnexpected HasTerm rule.Query u i r }
{}

/// `items_of` refuses a list as too deep exactly where it is.
pub fn program_deep()
    ensures { (u : List Lexeme) (i : ℕ) → (items_of u ≡ Deep i) ↔ IsDeep HasItems u i }
{}

/// `term_of` refuses a list as too deep exactly where it is.
pub fn query_deep()
    ensures { (u : List Lexeme) (i : ℕ) → (term_of u ≡ Deep i) ↔ IsDeep HasTerm u i }
{}
