//! Laws of the definitions. The functions do nothing.
ghost use Rattle.std.specs.Prelude.{◌≡◌, ◌↔◌, ℕ, List, Ok, length};
ghost use Rattle.lp_lexer.specs.declared.token.Token.{Token};
ghost use Rattle.lp_lexer.specs.Lexing.{Answer, IsRead, tokens_of, InOrder};

/// A text is read as the tokens or the fault that `tokens_of` gives, and as nothing else.
pub fn one_list_of_tokens()
    ensures { (u : List ℕ) (r : Answer) → (tokens_of u ≡ r) ↔ IsRead u r }
{}

/// The tokens of a text stand in it one behind the other.
pub fn tokens_in_order()
    ensures { (u : List ℕ) (ts : List Token) → tokens_of u ≡ Ok ts → InOrder 0 (length u) ts }
{}
