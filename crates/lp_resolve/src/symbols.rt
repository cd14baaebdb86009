//! The table of symbols.
ghost use Rattle.std.specs.Prelude.{◌≡◌, ◌<◌, [], length, map, slice_index_or, IfOk, OnOk, OnErr};
ghost use Rattle.lp_resolve.specs.Symbols.{reserved_names, number_of, interned, interned_all, begins_low, Begins};

use indexmap::IndexSet;
use ref_terms::Sym;
use std::alloc::{AllocError, Global};
use std::marker::Model;

// The reserved names, and after them two words of tests.
const FIRST_NAMES: [&str; 25] = [
    "true",
    "fail",
    "!",
    ",",
    ";",
    "=>",
    ":-",
    "pi",
    "sigma",
    "=",
    "same",
    "var",
    "name",
    "is",
    "lt",
    "print",
    "beta",
    "declare_constraint",
    "[]",
    "::",
    "+",
    "-",
    "*",
    "nonvar",
    "distinct",
];

/// The texts of the symbols, each at its number, which contracts see as the list of these texts.
#[derive(Debug, Drop)]
pub struct Symbols {
    texts: IndexSet<Vec<u8>>,
}

impl Model for Symbols {
    ghost use Rattle.std.specs.Prelude.{List, ℕ, map};

    ghost Value = { List (List ℕ) };

    ghost use Rattle.lp_resolve.specs.Symbols.{reserved_names, Begins};

    ghost view = { λ symbols. map (λ text. text.items) symbols.texts.keys };

    ghost invariant = { λ symbols. Begins reserved_names (map (λ text. text.items) symbols.texts.keys) };
}

// Puts a text last where it is new, and answers its number.
fn put(texts: &mut IndexSet<Vec<u8>>, text: &[u8]) -> Result<usize, AllocError>
    ensures interned { OnOk result (map (λ text. text.items) texts.new.keys ≡ interned (map (λ text. text.items) texts.old.keys) text.now) }
    ensures number { IfOk result (λ number. number ≡ number_of (map (λ text. text.items) texts.new.keys) text.now) }
    ensures unchanged { OnErr result (map (λ text. text.items) texts.new.keys ≡ map (λ text. text.items) texts.old.keys) }
{
    if let Some(number) = texts.get_index_of(text) {
        return Ok(number);
    }
    let number = texts.len();
    let text = Vec::from_slice(*texts.allocator(), text)?;
    texts.insert(text)?;
    Ok(number)
}

// Puts these texts last, each where it is new.
fn put_all(texts: &mut IndexSet<Vec<u8>>, names: &[&str]) -> Result<(), AllocError>
    ensures { OnOk result (map (λ text. text.items) texts.new.keys ≡ interned_all (map (λ text. text.items) texts.old.keys) (map (λ name. name.now) names.now)) }
{
    for name in names {
        put(texts, name.as_bytes())?;
    }
    Ok(())
}

impl Symbols {
    /// The table of the reserved names and of the words of tests.
    ///
    /// Errors: want of memory.
    pub fn new(alloc: Global) -> Result<Symbols, AllocError>
        ensures { IfOk result (λ symbols. symbols ≡ reserved_names) }
    {
        let mut texts = IndexSet::new(alloc);
        put_all(&mut texts, &FIRST_NAMES)?;
        Ok(Symbols { texts })
    }

    /// The number of a text, which goes last where it is new. So equal texts have one number, and the
    /// names that were there keep theirs.
    ///
    /// Errors: want of memory, which changes nothing.
    pub fn intern(&mut self, text: &[u8]) -> Result<Sym, AllocError>
        ensures interned { OnOk result (self.new ≡ interned self.old text.now) }
        ensures number { IfOk result (λ symbol. symbol.0 ≡ number_of self.new text.now) }
        ensures within { IfOk result (λ symbol. symbol.0 < length self.new) }
        ensures begins { Begins self.old self.new }
        ensures unchanged { OnErr result (self.new ≡ self.old) }
    {
        let number = put(&mut self.texts, text)?;
        Ok(Sym(number))
    }

    /// What holds of every table. Does nothing.
    pub fn begins_reserved(&self)
        ensures { Begins reserved_names self.now }
    {
        let _ = &self.texts;
    }

    /// The text of a symbol of this table. Takes no memory.
    pub fn name_of(&self, symbol: Sym) -> &[u8]
        requires { symbol.0 < length self.now }
        ensures { result.now ≡ slice_index_or self.now symbol.0 [] }
    {
        match self.texts.get_index(symbol.0) {
            Some(text) => text.as_slice(),
            None => &[],
        }
    }

    // Whether the text of a symbol begins with `_`.
    pub(crate) fn begins_low(&self, symbol: Sym) -> bool
        ensures { result ≡ begins_low (slice_index_or self.now symbol.0 []) }
    {
        match self.texts.get_index(symbol.0) {
            Some(text) => match text.as_slice().first() {
                Some(byte) => *byte == b'_',
                None => false,
            },
            None => false,
        }
    }

    /// How many symbols there are. Takes no memory.
    pub fn len(&self) -> usize
        ensures { result ≡ length self.now }
    {
        self.texts.len()
    }
}
