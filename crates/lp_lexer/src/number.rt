//! Integers at the front of a text.
ghost use Rattle.std.specs.Prelude.{◌≡◌, ◌≤◌, ◌^◌, ◌*◌, nat_le, Some, None, if◌then◌else◌};
ghost use Rattle.lp_lexer.specs.Numbers.{decimal, integer, number_piece};

use crate::piece::{Fault, Piece};
use crate::scan::is_digit;
use crate::token::TokenKind;

/// The greatest distance of an integer from 0.
const LIMIT: u128 = 1 << 63;

fn decimal(text: &[char]) -> Option<u128>
    ensures { result ≡ (if nat_le (decimal 0 text.now) (2 ^ 63) then Some (decimal 0 text.now) else None) }
{
    let mut value = 0;
    for ch in text {
        if !is_digit(*ch) {
            return Some(value);
        }
        value = value * 10 + (*ch as u32 - 48) as u128;
        if value > LIMIT {
            return None;
        }
    }
    Some(value)
}

fn integer(is_negative: bool, value: u128) -> Option<i64>
    requires { value ≤ 2 ^ 63 }
    ensures { result ≡ integer is_negative value }
{
    if value < LIMIT {
        let number = value as i64;
        Some(if is_negative { -number } else { number })
    } else if is_negative {
        Some(i64::MIN)
    } else {
        None
    }
}

/// The integer of the digits that begin the text, as a token of so many characters.
pub fn number_piece(is_negative: bool, text: &[char], len: usize) -> Piece
    ensures { result ≡ number_piece is_negative text.now len }
{
    match decimal(text) {
        Some(value) => match integer(is_negative, value) {
            Some(number) => Piece::Lexeme(TokenKind::Int(number), len),
            None => Piece::Fault(Fault::WideNumber, 0),
        },
        None => Piece::Fault(Fault::WideNumber, 0),
    }
}
