// Small lists over `Vec`, which contracts see as lists.
ghost use Rattle.std.specs.Prelude.{◌≡◌, ◌↔◌, [], ◌∷◌, ◌++◌, length, IsTrue, IfOk, IfErr, OnOk, OnErr, nat_eq};
ghost use Rattle.std.specs.Cmp.Lexicographic.{pointwise, nat_list_eq_equiv};
ghost use Rattle.std.specs.Cmp.{partial_equiv_from_equiv};

use std::alloc::{AllocError, AllocFailed, Global};
use std::marker::Model;

/// Bytes, which need not be text.
#[derive(Debug, Drop)]
pub struct ByteText {
    bytes: Vec<u8>,
}

impl Model for ByteText {
    ghost use Rattle.std.specs.Prelude.{List, ℕ};

    ghost Value = { List ℕ };

    ghost view = { λ it. it.bytes.items };
}

impl ByteText {
    /// No bytes. Takes no memory; `alloc` is for those that come.
    pub fn new(alloc: Global) -> Self
        ensures { result ≡ [] }
    {
        ByteText {
            bytes: Vec::new(alloc),
        }
    }

    /// These bytes. Takes no memory.
    pub fn from_vec(bytes: Vec<u8>) -> Self
        ensures { result ≡ bytes.items }
    {
        ByteText { bytes }
    }

    /// A copy of these bytes.
    ///
    /// Errors: want of memory.
    pub fn from_slice(alloc: Global, bytes: &[u8]) -> Result<Self, AllocError>
        ensures { IfOk result (λ text. text ≡ bytes.now) }
    {
        let bytes = Vec::from_slice(alloc, bytes)?;
        Ok(ByteText { bytes })
    }

    /// Puts the byte last.
    ///
    /// Errors: want of memory, which hands the byte back and changes nothing.
    pub fn push(&mut self, item: u8) -> Result<(), AllocFailed<u8>>
        ensures ok { OnOk result (self.new ≡ self.old ++ item ∷ []) }
        ensures err { OnErr result (self.new ≡ self.old) }
        ensures handed_back { IfErr result (λ failed. failed.value ≡ item) }
    {
        self.bytes.push(item)
    }

    /// Puts these bytes last.
    ///
    /// Errors: want of memory, which changes nothing.
    pub fn push_slice(&mut self, more: &[u8]) -> Result<(), AllocError>
        ensures ok { OnOk result (self.new ≡ self.old ++ more.now) }
        ensures err { OnErr result (self.new ≡ self.old) }
    {
        self.bytes.extend_from_slice(more)
    }

    /// Drops all bytes, and keeps the memory for those that come. Takes no memory.
    pub fn clear(&mut self)
        ensures { self.new ≡ [] }
    {
        self.bytes.clear();
    }

    /// How many bytes there are. Takes no memory.
    pub fn len(&self) -> usize
        ensures { result ≡ length self.now }
    {
        self.bytes.len()
    }

    /// The bytes. Takes no memory.
    pub fn as_slice(&self) -> &[u8]
        ensures { result.now ≡ self.now }
    {
        self.bytes.as_slice()
    }

    /// Gives the bytes back. Takes no memory.
    pub fn into_vec(self) -> Vec<u8>
        ensures { result.items ≡ self }
    {
        self.bytes
    }

    /// Whether these are the bytes. Takes no memory.
    pub fn equals(&self, bytes: &[u8]) -> bool
        ensures { IsTrue result ↔ (self.now ≡ bytes.now) }
    {
        self.bytes.as_slice() == bytes
    }
}

impl Clone for ByteText {
    ghost is_clone = { λ text copy. copy ≡ text };

    fn clone(&self) -> Result<Self, AllocError> {
        ByteText::from_slice(*self.bytes.allocator(), self.as_slice())
    }
}

impl PartialEq for ByteText {
    ghost eq = { pointwise nat_eq };

    ghost laws = { partial_equiv_from_equiv nat_list_eq_equiv };

    fn eq(&self, other: &Self) -> bool {
        self.as_slice() == other.as_slice()
    }
}

impl Eq for ByteText {
    ghost laws = { nat_list_eq_equiv };
}

/// A file: its name and its bytes.
#[derive(Debug, Drop)]
pub struct FileEntry {
    /// The name by which it is read.
    pub name: ByteText,
    /// All that it has.
    pub bytes: ByteText,
}

/// Files, of which the first of a name counts.
#[derive(Debug, Drop)]
pub struct FileList {
    items: Vec<FileEntry>,
}

impl Model for FileList {
    ghost use Rattle.std.specs.Prelude.{List};
    ghost use Rattle.lam_io.specs.declared.byte_text.FileEntry.{FileEntry};

    ghost Value = { List FileEntry };

    ghost view = { λ it. it.items.items };
}

impl FileList {
    /// No files. Takes no memory; `alloc` is for those that come.
    pub fn new(alloc: Global) -> Self
        ensures { result ≡ [] }
    {
        FileList {
            items: Vec::new(alloc),
        }
    }

    /// Puts the file last.
    ///
    /// Errors: want of memory, which hands the file back and changes nothing.
    pub fn push(&mut self, item: FileEntry) -> Result<(), AllocFailed<FileEntry>>
        ensures ok { OnOk result (self.new ≡ self.old ++ item ∷ []) }
        ensures err { OnErr result (self.new ≡ self.old) }
        ensures handed_back { IfErr result (λ failed. failed.value ≡ item) }
    {
        self.items.push(item)
    }

    /// How many files there are. Takes no memory.
    pub fn len(&self) -> usize
        ensures { result ≡ length self.now }
    {
        self.items.len()
    }

    /// The files, in order. Takes no memory.
    pub fn as_slice(&self) -> &[FileEntry]
        ensures { result.now ≡ self.now }
    {
        self.items.as_slice()
    }
}

/// Numbers of calls.
#[derive(Debug, Drop)]
pub struct Numbers {
    items: Vec<u64>,
}

impl Model for Numbers {
    ghost use Rattle.std.specs.Prelude.{List, ℕ};

    ghost Value = { List ℕ };

    ghost view = { λ it. it.items.items };
}

impl Numbers {
    /// No numbers. Takes no memory; `alloc` is for those that come.
    pub fn new(alloc: Global) -> Self
        ensures { result ≡ [] }
    {
        Numbers {
            items: Vec::new(alloc),
        }
    }

    /// Puts the number last.
    ///
    /// Errors: want of memory, which hands the number back and changes nothing.
    pub fn push(&mut self, item: u64) -> Result<(), AllocFailed<u64>>
        ensures ok { OnOk result (self.new ≡ self.old ++ item ∷ []) }
        ensures err { OnErr result (self.new ≡ self.old) }
        ensures handed_back { IfErr result (λ failed. failed.value ≡ item) }
    {
        self.items.push(item)
    }

    /// How many numbers there are. Takes no memory.
    pub fn len(&self) -> usize
        ensures { result ≡ length self.now }
    {
        self.items.len()
    }

    /// The numbers, in order. Takes no memory.
    pub fn as_slice(&self) -> &[u64]
        ensures { result.now ≡ self.now }
    {
        self.items.as_slice()
    }
}

/// A call that is to fail, and how many bytes of its piece are kept.
#[derive(Clone, Copy, Debug)]
pub struct FailEntry {
    /// The number of the call, counted from 1.
    pub call: u64,
    /// How many bytes of its piece are kept.
    pub kept: usize,
}

/// Calls that are to fail, of which the first of a number counts.
#[derive(Debug, Drop)]
pub struct FailList {
    items: Vec<FailEntry>,
}

impl Model for FailList {
    ghost use Rattle.std.specs.Prelude.{List};
    ghost use Rattle.lam_io.specs.declared.byte_text.FailEntry.{FailEntry};

    ghost Value = { List FailEntry };

    ghost view = { λ it. it.items.items };
}

impl FailList {
    /// No entries. Takes no memory; `alloc` is for those that come.
    pub fn new(alloc: Global) -> Self
        ensures { result ≡ [] }
    {
        FailList {
            items: Vec::new(alloc),
        }
    }

    /// Puts the entry last.
    ///
    /// Errors: want of memory, which hands the entry back and changes nothing.
    pub fn push(&mut self, item: FailEntry) -> Result<(), AllocFailed<FailEntry>>
        ensures ok { OnOk result (self.new ≡ self.old ++ item ∷ []) }
        ensures err { OnErr result (self.new ≡ self.old) }
        ensures handed_back { IfErr result (λ failed. failed.value ≡ item) }
    {
        self.items.push(item)
    }

    /// How many entries there are. Takes no memory.
    pub fn len(&self) -> usize
        ensures { result ≡ length self.now }
    {
        self.items.len()
    }

    /// The entries, in order. Takes no memory.
    pub fn as_slice(&self) -> &[FailEntry]
        ensures { result.now ≡ self.now }
    {
        self.items.as_slice()
    }
}
