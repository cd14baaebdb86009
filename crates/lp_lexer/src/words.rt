//! The names that are keywords.
ghost use Rattle.std.specs.Prelude.{◌≡◌};
ghost use Rattle.lp_lexer.specs.Words.{keyword_of};

use crate::token::Keyword;

/// The keyword that the word is, if it is one.
pub fn keyword_of(word: &[char]) -> Option<Keyword>
    ensures { result ≡ keyword_of word.now }
{
    if word == ['p', 'i'].as_slice() {
        Some(Keyword::Pi)
    } else if word == ['s', 'i', 'g', 'm', 'a'].as_slice() {
        Some(Keyword::Sigma)
    } else if word == ['p', 'r', 'e', 'd'].as_slice() {
        Some(Keyword::Pred)
    } else if word == ['k', 'i', 'n', 'd'].as_slice() {
        Some(Keyword::Kind)
    } else if word == ['t', 'y', 'p', 'e'].as_slice() {
        Some(Keyword::TypeWord)
    } else if word == ['c', 'o', 'n', 's', 't', 'r', 'a', 'i', 'n', 't'].as_slice() {
        Some(Keyword::Constraint)
    } else if word == ['r', 'u', 'l', 'e'].as_slice() {
        Some(Keyword::Rule)
    } else if word == ['i', 's'].as_slice() {
        Some(Keyword::Is)
    } else {
        None
    }
}
