//! How deep lexemes are nested.
ghost use Rattle.std.specs.Prelude.{◌≡◌, ◌≤◌, ◌∷◌, [], sum, OnOk};
ghost use Rattle.lp_parser.specs.Nesting.{flat, behind_word, binders_after, one_more, without_inner, frames_after_word, frames_after_closer, frames_after_mark, frames_after, nested};

use crate::binders::Binders;
use crate::lexeme::{Closer, Lexeme, Mark};
use crate::stack::Stack;
use std::alloc::{AllocError, Global};
use std::marker::Model;

/// The most that the nesting may be.
pub const MAX_NESTING: usize = 2000;

/// What counts in each open frame, with the sum.
#[derive(Drop)]
pub struct Frames {
    outer: Stack<usize>,
    inner: usize,
    total: usize,
}

impl Model for Frames {
    ghost use Rattle.std.specs.Prelude.{ℕ, List, ◌∷◌, ◌+◌, ◌≡◌, sum};

    ghost Value = { List ℕ };

    ghost view = { λ n. n.inner ∷ n.outer };

    ghost invariant = { λ n. n.total ≡ n.inner + sum n.outer };
}

impl Frames {
    /// One frame, in which nothing counts yet.
    fn new(alloc: Global) -> Frames
        ensures { result ≡ 0 ∷ [] }
    {
        Frames {
            outer: Stack::new(alloc),
            inner: 0,
            total: 0,
        }
    }

    /// What counts in all frames.
    fn total(&self) -> usize
        ensures { result ≡ sum self.now }
    {
        self.total
    }

    /// Counts one more in the innermost frame.
    fn add(&mut self)
        requires { sum self.old ≤ 2000 }
        ensures { self.new ≡ one_more self.old }
    {
        self.inner += 1;
        self.total += 1;
    }

    /// Begins a frame, whose bracket counts in it.
    fn open(&mut self) -> Result<(), AllocError>
        requires { sum self.old ≤ 2000 }
        ensures { OnOk result (self.new ≡ 1 ∷ self.old) }
    {
        self.outer.push(self.inner)?;
        self.inner = 1;
        self.total += 1;
        Ok(())
    }

    /// Drops the innermost frame with what counts in it. The frame of an item stays.
    fn close(&mut self)
        ensures { self.new ≡ without_inner self.old }
    {
        self.total -= self.inner;
        self.inner = self.outer.pop().unwrap_or(0);
    }

    /// Begins anew.
    fn restart(&mut self)
        ensures { self.new ≡ 0 ∷ [] }
    {
        self.outer.clear();
        self.inner = 0;
        self.total = 0;
    }

    /// Counts a word, behind what it stands.
    fn see_word(&mut self, binders: Binders)
        requires { sum self.old ≤ 2000 }
        ensures { self.new ≡ frames_after_word binders self.old }
    {
        match binders {
            Binders::Elsewhere | Binders::Quantifier => {}
            Binders::Words => self.add(),
        }
    }

    /// Counts a closing bracket, or a bar.
    fn see_closer(&mut self, closer: Closer)
        ensures { self.new ≡ frames_after_closer closer self.old }
    {
        match closer {
            Closer::Round | Closer::Square => self.close(),
            Closer::Bar => {}
        }
    }

    /// Counts a mark.
    fn see_mark(&mut self, mark: Mark)
        requires { sum self.old ≤ 2000 }
        ensures { self.new ≡ frames_after_mark mark self.old }
    {
        match mark {
            Mark::Arrow => self.add(),
            Mark::Dot | Mark::OpenCurly | Mark::CloseCurly => self.restart(),
            Mark::Turnstile
            | Mark::Equivalent
            | Mark::Colon
            | Mark::Greater
            | Mark::Tilde
            | Mark::KindWord
            | Mark::TypeWord
            | Mark::PredWord
            | Mark::ConstraintWord
            | Mark::RuleWord => {}
        }
    }
}

/// What a word stands behind, a further word of a quantifier too.
fn behind_word(binders: Binders) -> Binders
    ensures { result ≡ behind_word binders }
{
    match binders {
        Binders::Elsewhere => Binders::Elsewhere,
        Binders::Quantifier | Binders::Words => Binders::Words,
    }
}

/// What the lexeme behind a lexeme stands behind.
fn binders_after(binders: Binders, lexeme: &Lexeme) -> Binders
    ensures { result ≡ binders_after binders lexeme.now }
{
    match lexeme {
        Lexeme::Word(_, _, _) => behind_word(binders),
        Lexeme::Quantifier(_, _) => Binders::Quantifier,
        Lexeme::Literal(_, _)
        | Lexeme::Infix(_, _)
        | Lexeme::Lambda(_)
        | Lexeme::OpenRound(_)
        | Lexeme::OpenSquare(_)
        | Lexeme::Closer(_, _)
        | Lexeme::Mark(_, _) => Binders::Elsewhere,
    }
}

/// The nesting behind the lexemes that were seen.
#[derive(Drop)]
pub struct Nesting {
    frames: Frames,
    binders: Binders,
}

impl Model for Nesting {
    ghost use Rattle.lp_parser.specs.Nesting as specs_nesting;

    ghost Value = { specs_nesting.Nesting };

    ghost view = { λ n. record { frames = n.frames; binders = n.binders } };
}

impl Nesting {
    /// The nesting where nothing was seen.
    pub fn new(alloc: Global) -> Nesting
        ensures { result ≡ flat }
    {
        Nesting {
            frames: Frames::new(alloc),
            binders: Binders::Elsewhere,
        }
    }

    /// How deep the last lexeme is nested.
    pub fn depth(&self) -> usize
        ensures { result ≡ sum self.now.frames }
    {
        self.frames.total()
    }

    /// Sees one more lexeme.
    pub fn see(&mut self, lexeme: &Lexeme) -> Result<(), AllocError>
        requires { sum self.old.frames ≤ 2000 }
        ensures { OnOk result (self.new ≡ nested self.old lexeme.now) }
    {
        let binders = binders_after(self.binders, lexeme);
        match lexeme {
            Lexeme::Word(_, _, _) => self.frames.see_word(self.binders),
            Lexeme::Infix(_, _) | Lexeme::Lambda(_) => self.frames.add(),
            Lexeme::OpenRound(_) | Lexeme::OpenSquare(_) => self.frames.open()?,
            Lexeme::Closer(closer, _) => self.frames.see_closer(*closer),
            Lexeme::Mark(mark, _) => self.frames.see_mark(*mark),
            Lexeme::Literal(_, _) | Lexeme::Quantifier(_, _) => {}
        }
        self.binders = binders;
        Ok(())
    }
}
