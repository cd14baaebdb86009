//! How far tokens and comments go.
ghost use Rattle.std.specs.Prelude.{◌≡◌, ◌≤◌, ◌<◌, ◌^◌, ◌+◌, length, drop, IfSome};
ghost use Rattle.lp_lexer.specs.Scan.{utf8_len, is_blank, is_digit, is_capital, begins_with, line_len, comment_end, starts_name, name_len, is_escape, string_end, digits_len, StringFits};

use crate::piece::StringEnd;

/// The byte behind these characters, which begin at the byte `at`.
pub fn byte_behind(text: &[char], at: usize) -> usize
    requires { at + utf8_len text.now < 2 ^ 64 }
    ensures { result ≡ at + utf8_len text.now }
{
    let mut end = at;
    for ch in text {
        end += ch.len_utf8();
    }
    end
}

/// Whether the character is a space, a tab, a carriage return or a line feed.
pub fn is_blank(ch: char) -> bool
    ensures { result ≡ is_blank ch }
{
    ch == ' ' || ch == '\t' || ch == '\r' || ch == '\n'
}

/// Whether the character is an ASCII digit.
pub fn is_digit(ch: char) -> bool
    ensures { result ≡ is_digit ch }
{
    '0' <= ch && ch <= '9'
}

/// Whether the character is an ASCII capital letter.
pub fn is_capital(ch: char) -> bool
    ensures { result ≡ is_capital ch }
{
    'A' <= ch && ch <= 'Z'
}

/// Whether the text begins with the character.
pub fn begins_with(text: &[char], ch: char) -> bool
    ensures { result ≡ begins_with ch text.now }
{
    match text {
        [] => false,
        [first, ..] => *first == ch,
    }
}

/// How many characters stand before the end of the line.
pub fn line_len(text: &[char]) -> usize
    ensures value { result ≡ line_len text.now }
    ensures within { result ≤ length text.now }
{
    for (index, ch) in text.iter().enumerate() {
        if *ch == '\n' {
            return index;
        }
    }
    text.len()
}

/// How many characters a comment has up to its `*/`, with it, where it goes on at `from`.
pub fn comment_end(text: &[char], from: usize) -> Option<usize>
    requires { from ≤ length text.now }
    ensures value { result ≡ comment_end from (drop from text.now) }
    ensures within { IfSome result (λ n. (from < n) × (n ≤ length text.now)) }
{
    for index in from..text.len() {
        if text[index] == '*' && index + 1 < text.len() && text[index + 1] == '/' {
            return Some(index + 2);
        }
    }
    None
}

/// Whether a name, a variable or a keyword may begin with the character.
pub fn starts_name(ch: char) -> bool
    ensures { result ≡ starts_name ch }
{
    unicode_ident::is_xid_start(ch) || ch == '_'
}

/// How many characters continue a name.
pub fn name_len(text: &[char]) -> usize
    ensures value { result ≡ name_len text.now }
    ensures within { result ≤ length text.now }
{
    for (index, ch) in text.iter().enumerate() {
        let continues = unicode_ident::is_xid_continue(*ch)
            || *ch == '\''
            || (*ch == '-'
                && index + 1 < text.len()
                && unicode_ident::is_xid_continue(text[index + 1]));
        if !continues {
            return index;
        }
    }
    text.len()
}

fn is_escape(ch: char) -> bool
    ensures { result ≡ is_escape ch }
{
    ch == 'n' || ch == 't' || ch == '\\' || ch == '"'
}

/// Where a string ends that goes on at `from`.
pub fn string_end(text: &[char], from: usize) -> StringEnd
    requires { from ≤ length text.now }
    ensures value { result ≡ string_end from (drop from text.now) }
    ensures within { StringFits (length text.now) result }
{
    let mut index = from;
    while index < text.len() {
        if text[index] == '"' {
            return StringEnd::Closed(index + 1);
        }
        if text[index] != '\\' {
            index += 1;
        } else if index + 1 == text.len() {
            return StringEnd::Open;
        } else if is_escape(text[index + 1]) {
            index += 2;
        } else {
            return StringEnd::BadEscape(index);
        }
    }
    StringEnd::Open
}

/// How many ASCII digits begin the text.
pub fn digits_len(text: &[char]) -> usize
    ensures value { result ≡ digits_len text.now }
    ensures within { result ≤ length text.now }
{
    for (index, ch) in text.iter().enumerate() {
        if !is_digit(*ch) {
            return index;
        }
    }
    text.len()
}
