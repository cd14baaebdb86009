//! What a call has printed.

ghost use Rattle.std.specs.Prelude.{◌≡◌, Some, None};

use lam_io::ByteText;
use std::marker::Model;

/// The text that the newest `print` wrote, until it is taken. Contracts see it as its bytes.
#[derive(Drop)]
pub struct Events {
    printed: Option<ByteText>,
}

impl Model for Events {
    ghost use Rattle.std.specs.Prelude.{Option, List, ℕ};

    ghost Value = { Option (List ℕ) };

    ghost view = { λ it. it.printed };
}

impl Events {
    /// Nothing is printed yet. Takes no memory.
    pub fn new() -> Events
        ensures { result ≡ None }
    {
        Events { printed: None }
    }

    /// Hands the printed text out, if there is one, and keeps none. Takes no memory.
    pub fn take(&mut self) -> Option<ByteText>
        ensures taken { result ≡ self.old }
        ensures empty { self.new ≡ None }
    {
        self.printed.take()
    }

    /// Keeps a text. Takes no memory.
    pub(crate) fn put(&mut self, text: ByteText)
        ensures { self.new ≡ Some text }
    {
        self.printed = Some(text);
    }
}
