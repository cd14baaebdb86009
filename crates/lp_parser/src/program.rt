//! Programs: lists of items.
ghost use Rattle.std.specs.Prelude.{◌≡◌, [], ◌∷◌, ◌++◌, length, IfErr, OnOk, OnErr};

use crate::ast::Item;
use std::alloc::{AllocError, AllocFailed, Global};
use std::marker::Model;

/// A program, which contracts see as the list of its items.
#[derive(Debug, Drop)]
pub struct Ast {
    items: Vec<Item>,
}

impl Model for Ast {
    ghost use Rattle.std.specs.Prelude.{List};
    ghost use Rattle.std.specs.Coded.{codes};
    ghost use Rattle.lp_parser.specs.declared.ast.Item.{Item};
    ghost use Rattle.lp_parser.specs.contracts.ast.Item as item;

    ghost Value = { List Item };

    ghost coded = { Prim.hlevel (codes, item.the_row.coded) };

    ghost view = { λ it. it.items.items };
}

impl Ast {
    /// The program without items.
    pub fn new(alloc: Global) -> Self
        ensures { result ≡ [] }
    {
        Ast {
            items: Vec::new(alloc),
        }
    }

    /// Puts an item last. Where memory runs out the program stays, and the item is handed back.
    pub fn push(&mut self, item: Item) -> Result<(), AllocFailed<Item>>
        ensures ok { OnOk result (self.new ≡ self.old ++ item ∷ []) }
        ensures err { OnErr result (self.new ≡ self.old) }
        ensures handed_back { IfErr result (λ failed. failed.value ≡ item) }
    {
        self.items.push(item)
    }

    /// Puts the items of `more` last. Where memory runs out the program stays, and the others are dropped.
    pub fn append(&mut self, more: Ast) -> Result<(), AllocError>
        ensures ok { OnOk result (self.new ≡ self.old ++ more) }
        ensures err { OnErr result (self.new ≡ self.old) }
    {
        let Ast { mut items } = more;
        self.items.append(&mut items)
    }

    /// The number of items.
    pub fn len(&self) -> usize
        ensures { result ≡ length self.now }
    {
        self.items.len()
    }

    /// The items.
    pub fn as_slice(&self) -> &[Item]
        ensures { result.now ≡ self.now }
    {
        self.items.as_slice()
    }
}
