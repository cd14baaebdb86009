// The blocks of a list, each where its box lay. It takes no bytes: the nodes know where they lie.
ghost use Rattle.std.specs.Borrow.{sem};
ghost use Rattle.std.specs.Prelude.{◌≡◌, ℕ, ◌<◌, List, [], ◌∷◌, ◌++◌, Option, Some, None};
ghost use denote.RawPtr.{Ptr};
ghost use Rattle.dance_list.specs.inside.Blocks.{nth, blocks_own, blocks_lent};

use crate::loose::Loose;
use std::alloc::Global;
use std::marker::{Model, PhantomData};

// Where a block lies. It owns nothing.
#[derive(Clone, Copy)]
pub struct Place {
    ptr: *const u8,
}

/// A node of a list. It stays the same for as long as the list has it.
#[derive(Clone, Copy)]
pub struct Node {
    pub(crate) place: Place,
    // how many nodes stood in the list when it was pushed
    pub(crate) number: usize,
}

// Letting it go frees nothing: the list releases each block first.
#[derive(Drop)]
pub(crate) struct Cells<T> {
    mark: PhantomData<*const T>,
    ghost blocks: { List (Ptr × T) },
}

impl<T> Model for Cells<T> {
    ghost also_owns = { λ c. blocks_own T.row c.blocks };

    ghost also_shares = { λ c _ κ. blocks_lent T.row c.blocks κ };
}

impl<T> Cells<T> {
    ghost use Rattle.dance_list.specs.inside.Lends.{lends_block};

    pub(crate) fn new() -> Cells<T>
        ensures { result.blocks ≡ [] }
    {
        Cells { mark: PhantomData }
    }

    // The block comes last.
    pub(crate) fn adopt(&mut self, block: Loose<T, Global>) -> Place
        ensures { self.new.blocks ≡ self.old.blocks ++ (result.ptr, block.value) ∷ [] }
    {
        let Loose { at, alloc: _ } = block;
        Place {
            ptr: at as *const u8,
        }
    }

    // Gives the last block back.
    pub(crate) fn release(&mut self, at: Place, alloc: Global) -> Loose<T, Global>
        requires { (cs : List (Ptr × T)) × (x : T) × (self.old.blocks ≡ cs ++ (at.ptr, x) ∷ []) }
        ensures { self.old.blocks ≡ self.new.blocks ++ (at.ptr, result.value) ∷ [] }
    {
        Loose {
            at: at.ptr as *mut T,
            alloc,
        }
    }

    // `index` is that of the block at `at`, which only the proof needs.
    pub(crate) fn get(&self, at: Place, index: usize) -> &T
        requires { (x : T) × (nth self.now.blocks index ≡ Some (at.ptr, x)) }
        ensures { nth self.now.blocks index ≡ Some (at.ptr, result.now) }
    {
        unsafe { &*(at.ptr as *const T) }
    }

    pub(crate) fn get_mut(&mut self, at: Place, index: usize) -> &mut T
        requires { (x : T) × (nth self.old.blocks index ≡ Some (at.ptr, x)) }
        ensures* writes_back { sem 𝓛 (lends_block T.row self.entry at.ptr index result) }
        ensures value { nth self.old.blocks index ≡ Some (at.ptr, result.now) }
    {
        unsafe { &mut *(at.ptr as *mut T) }
    }
}
