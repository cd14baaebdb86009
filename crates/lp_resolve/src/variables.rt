//! The variables of a clause, a rule or a query.
ghost use Rattle.std.specs.Prelude.{◌≡◌, length, OnOk, IfOk};
ghost use Rattle.lp_resolve.specs.Variables.{nothing_met, number_in, met_word, met_hole};

use crate::variable::Variable;
use indexmap::IndexMap;
use lp_parser::Place;
use ref_terms::Sym;
use std::alloc::{AllocError, Global};
use std::marker::Model;

/// The variables that were met, in the order of their first places, and the places of their words.
#[derive(Debug, Drop)]
pub(crate) struct Variables {
    names: Vec<Variable>,
    places: Vec<Place>,
    // For each word that isn't a hole the number of its variable.
    numbers: IndexMap<usize, usize>,
}

impl Model for Variables {
    ghost use Rattle.std.specs.Prelude.{nat_eq};
    ghost use Rattle.indexmap.specs.IndexMap.{get};
    ghost use Rattle.lp_resolve.specs.Variables.{Met, AreNumbered};

    ghost Value = { Met };

    ghost view = { λ it. record { names = it.names.items; places = it.places.items } };

    ghost invariant = { λ it. AreNumbered it.names.items (λ word. get nat_eq it.numbers word) };
}

impl Variables {
    /// None yet. Takes no memory.
    pub(crate) fn new(alloc: Global) -> Variables
        ensures { result ≡ nothing_met }
    {
        Variables {
            names: Vec::new(alloc),
            places: Vec::new(alloc),
            numbers: IndexMap::new(alloc),
        }
    }

    /// How many variables there are. Takes no memory.
    pub(crate) fn len(&self) -> usize
        ensures { result ≡ length self.now.names }
    {
        self.names.len()
    }

    /// The variables, each at its number. Takes no memory.
    pub(crate) fn names(&self) -> &[Variable]
        ensures { result.now ≡ self.now.names }
    {
        self.names.as_slice()
    }

    /// The places of all their words, from the left. Takes no memory.
    pub(crate) fn places(&self) -> &[Place]
        ensures { result.now ≡ self.now.places }
    {
        self.places.as_slice()
    }

    /// Meets a word, and answers the number of its variable.
    pub(crate) fn meet_word(&mut self, word: Sym, place: Place) -> Result<usize, AllocError>
        ensures number { IfOk result (λ number. number ≡ number_in self.old.names word.0) }
        ensures met { OnOk result (self.new ≡ met_word word.0 place self.old) }
    {
        self.places.push(place)?;
        if let Some(number) = self.numbers.get(&word.0) {
            return Ok(*number);
        }
        let number = self.names.len();
        self.names.push(Variable {
            name: word,
            hole: false,
        })?;
        match self.numbers.insert(word.0, number) {
            Ok(_) => Ok(number),
            Err(_) => {
                self.names.pop();
                Err(AllocError)
            }
        }
    }

    /// Meets a hole, and answers the number of its variable, which is new.
    pub(crate) fn meet_hole(&mut self, word: Sym, place: Place) -> Result<usize, AllocError>
        ensures number { IfOk result (λ number. number ≡ length self.old.names) }
        ensures met { OnOk result (self.new ≡ met_hole word.0 place self.old) }
    {
        self.places.push(place)?;
        let number = self.names.len();
        self.names.push(Variable {
            name: word,
            hole: true,
        })?;
        Ok(number)
    }
}
