//! Terms that words make.

ghost use Rattle.std.specs.Prelude.{◌≡◌, ◌<◌, ◌≤◌, [], map, IfOk};
ghost use Rattle.std.specs.List.{All};
ghost use Rattle.level_terms.specs.Growth.{Grows};
ghost use Rattle.level_terms.specs.Valid.{IsValid};

use beta_fragment::contract;
use lam_io::ByteText;
use level_terms::{Heap, Node, TermId, VarId};
use lp_resolve::Symbols;
use std::alloc::{AllocError, Global};
use std::test::Fail;
use term_print::{Namer, print_sequent, print_term};

/// A term that is valid at a depth, and so deeper.
#[derive(Clone, Copy)]
pub(crate) struct Item {
    pub(crate) node: TermId,
    pub(crate) least: usize,
}

/// Terms that words make, the newest last.
#[derive(Drop)]
pub(crate) struct Builder {
    pub(crate) alloc: Global,
    pub(crate) heap: Heap,
    pub(crate) symbols: Symbols,
    items: Vec<Item>,
    ghost valid: { All (λ it. IsValid heap it.node.index it.least) items.items },
    ghost unassigned: { heap.assigned ≡ [] },
}

/// Makes the variables `?0` to `?3`, over so many names.
fn make_variables(heap: &mut Heap) -> Result<(), AllocError>
    ensures { heap.new.assigned ≡ heap.old.assigned }
{
    for depth in [0, 0, 1, 2] {
        heap.fresh_var(depth)?;
    }
    Ok(())
}

/// The nodes of items.
fn nodes_of(alloc: Global, items: &[Item]) -> Result<Vec<TermId>, AllocError>
    ensures { IfOk result (λ nodes. nodes.items ≡ map (λ it. it.node) items.now) }
{
    items.iter().map(|item| item.node).collect(alloc)
}

/// A depth at which each item is valid.
fn deepest(items: &[Item]) -> usize
    ensures { All (λ it. it.least ≤ result) items.now }
{
    let mut most = 0;
    for item in items {
        most = most.max(item.least);
    }
    most
}

/// The first item applied to the others.
fn applied(alloc: Global, heap: &mut Heap, items: &[Item]) -> Result<Item, Fail>
    requires { All (λ it. IsValid heap.old it.node.index it.least) items.now }
    ensures valid { IfOk result (λ it. IsValid heap.new it.node.index it.least) }
    ensures grows { Grows heap.old heap.new [] [] }
{
    heap.is_sound();
    if items.len() < 2 {
        return Err(Fail::new("no arguments"));
    }
    if let Node::App { .. } = heap.view(items[0].node) {
        return Err(Fail::new("an application as a head"));
    }
    let least = deepest(items);
    let args = nodes_of(alloc, &items[1..])?;
    let node = heap.app(items[0].node, args.as_slice())?;
    heap.is_sound();
    Ok(Item { node, least })
}

/// The body of an abstraction with the argument for its name.
fn contracted(
    alloc: Global,
    heap: &mut Heap,
    lam: Item,
    arg: Item,
    depth: usize,
) -> Result<TermId, Fail>
    requires lam { IsValid heap.old lam.node.index lam.least }
    requires arg { IsValid heap.old arg.node.index arg.least }
    ensures valid { IfOk result (λ node. IsValid heap.new node.index depth) }
    ensures grows { Grows heap.old heap.new [] [] }
{
    heap.is_sound();
    if lam.least > depth || arg.least > depth {
        return Err(Fail::new("names that are deeper"));
    }
    match heap.view(lam.node) {
        Node::Lam { .. } => Ok(contract(alloc, heap, lam.node, arg.node, depth)?),
        _ => Err(Fail::new("no abstraction")),
    }
}

impl Builder {
    /// No terms yet, and the variables `?0` to `?3`.
    pub(crate) fn new(alloc: Global) -> Result<Builder, AllocError> {
        let symbols = Symbols::new(alloc)?;
        let mut heap = Heap::new(alloc);
        make_variables(&mut heap)?;
        Ok(Builder {
            alloc,
            heap,
            symbols,
            items: Vec::new(alloc),
        })
    }

    /// Puts a term last.
    fn push(&mut self, node: TermId, least: usize) -> Result<(), Fail>
        requires { IsValid self.old.heap node.index least }
    {
        self.items.push(Item { node, least })?;
        Ok(())
    }

    /// Takes the newest term.
    fn pop(&mut self) -> Result<Item, Fail>
        ensures valid { IfOk result (λ it. IsValid self.new.heap it.node.index it.least) }
        ensures heap { self.new.heap ≡ self.old.heap }
    {
        match self.items.pop() {
            Some(item) => Ok(item),
            None => Err(Fail::new("no term")),
        }
    }

    /// Takes the newest term, for a depth at which it is valid.
    pub(crate) fn pop_at(&mut self, depth: usize) -> Result<TermId, Fail>
        ensures valid { IfOk result (λ node. IsValid self.new.heap node.index depth) }
        ensures heap { self.new.heap ≡ self.old.heap }
    {
        let item = self.pop()?;
        if item.least > depth {
            return Err(Fail::new("names that are deeper"));
        }
        Ok(item.node)
    }

    /// Puts a constant last.
    pub(crate) fn constant(&mut self, name: &str) -> Result<(), Fail> {
        let symbol = self.symbols.intern(name.as_bytes())?;
        self.heap.is_sound();
        let node = self.heap.con(symbol)?;
        self.heap.is_sound();
        self.push(node, 0)
    }

    /// Puts a string last.
    pub(crate) fn string(&mut self, text: &str) -> Result<(), Fail> {
        let symbol = self.symbols.intern(text.as_bytes())?;
        self.heap.is_sound();
        let node = self.heap.text(symbol)?;
        self.heap.is_sound();
        self.push(node, 0)
    }

    /// Puts an integer last.
    fn integer(&mut self, n: i64) -> Result<(), Fail> {
        self.heap.is_sound();
        let node = self.heap.int(n)?;
        self.heap.is_sound();
        self.push(node, 0)
    }

    /// Puts the name of a level last.
    fn name(&mut self, level: u8) -> Result<(), Fail> {
        let level = level as usize;
        self.heap.is_sound();
        let node = self.heap.level(level)?;
        self.heap.is_sound();
        self.push(node, level + 1)
    }

    /// Puts a variable last.
    fn variable(&mut self, number: u8) -> Result<(), Fail> {
        let v = VarId {
            index: number as u32,
        };
        if v.index >= self.heap.next_var().index {
            return Err(Fail::new("no such variable"));
        }
        self.heap.is_sound();
        let node = self.heap.var(v)?;
        self.heap.is_sound();
        let depth = self.heap.var_depth(v);
        self.push(node, depth)
    }

    /// Puts the abstraction of the newest term last, in its place.
    fn abstraction(&mut self, depth: u8) -> Result<(), Fail> {
        let depth = depth as usize;
        let body = self.pop()?;
        if body.least > depth + 1 {
            return Err(Fail::new("a body that is deeper"));
        }
        self.heap.is_sound();
        let node = self.heap.lam(depth, body.node)?;
        self.heap.is_sound();
        self.push(node, depth)
    }

    /// Puts an application last, in the place of its head and its arguments.
    pub(crate) fn application(&mut self, count: u8) -> Result<(), Fail> {
        let count = count as usize;
        if self.items.len() <= count {
            return Err(Fail::new("too few terms"));
        }
        let head = self.items.len() - count - 1;
        self.heap.is_sound();
        let item = applied(self.alloc, &mut self.heap, &self.items[head..])?;
        self.items.truncate(head);
        self.push(item.node, item.least)
    }

    /// Puts a contracted body last, in the place of its abstraction and of the argument.
    fn contraction(&mut self, depth: usize) -> Result<(), Fail> {
        let arg = self.pop()?;
        let lam = self.pop()?;
        self.heap.is_sound();
        let node = contracted(self.alloc, &mut self.heap, lam, arg, depth)?;
        self.push(node, depth)
    }

    /// Does what a word says: `#L` is the name with that number, `?V` a variable, `\D` an abstraction
    /// of the newest term that is made at that depth, `@N` applies the term below the N newest to
    /// them, `!` contracts the abstraction below the newest term with it, a quote and a text are a
    /// string. An integer is itself, and any other word a constant.
    fn word(&mut self, depth: usize, word: &str) -> Result<(), Fail> {
        if let Some(level) = word.strip_prefix('#') {
            return self.name(number(level)?);
        }
        if let Some(place) = word.strip_prefix('?') {
            return self.variable(number(place)?);
        }
        if let Some(made) = word.strip_prefix('\\') {
            return self.abstraction(number(made)?);
        }
        if let Some(count) = word.strip_prefix('@') {
            return self.application(number(count)?);
        }
        if let Some(text) = word.strip_prefix('"') {
            return self.string(text);
        }
        if word == "!" {
            return self.contraction(depth);
        }
        match word.parse::<i64>() {
            Ok(n) => self.integer(n),
            Err(_) => self.constant(word),
        }
    }

    /// Does what each word says.
    pub(crate) fn words(&mut self, depth: usize, words: &str) -> Result<(), Fail> {
        for word in words.split_whitespace() {
            self.word(depth, word)?;
        }
        Ok(())
    }

    /// Puts the term that words make last, inside 1,000,000 applications.
    pub(crate) fn deep(&mut self, depth: usize, words: &str) -> Result<(), Fail> {
        for _count in 0..1_000_000 {
            self.constant("f")?;
        }
        self.words(depth, words)?;
        for _count in 0..1_000_000 {
            self.application(1)?;
        }
        Ok(())
    }

    /// Puts the sum of 1,000,000 ones last, whose sums stand inside each other on one side.
    pub(crate) fn deep_sum(&mut self, is_left: bool) -> Result<(), Fail> {
        for _count in 0..1_000_000 {
            self.constant("+")?;
            if !is_left {
                self.integer(1)?;
            }
        }
        self.integer(0)?;
        for _count in 0..1_000_000 {
            if is_left {
                self.integer(1)?;
            }
            self.application(2)?;
        }
        Ok(())
    }

    /// Takes the newest term, and puts its printed form last.
    pub(crate) fn print(
        &mut self,
        depth: usize,
        namer: &mut Namer,
        out: &mut ByteText,
    ) -> Result<(), Fail> {
        let item = self.pop()?;
        if item.least > depth {
            return Err(Fail::new("names that are deeper"));
        }
        self.heap.is_sound();
        print_term(
            self.alloc,
            &mut self.heap,
            &self.symbols,
            item.node,
            depth,
            namer,
            out,
        )?;
        Ok(())
    }

    /// The printed form of the only term.
    pub(crate) fn term(&mut self, depth: usize) -> Result<ByteText, Fail> {
        let mut namer = Namer::new(self.alloc);
        let mut out = ByteText::new(self.alloc);
        self.print(depth, &mut namer, &mut out)?;
        if self.items.len() > 0 {
            return Err(Fail::new("more than one term"));
        }
        Ok(out)
    }

    /// The printed form of a sequent, whose goal is the newest term.
    pub(crate) fn sequent(&mut self, depth: usize) -> Result<ByteText, Fail> {
        let goal = self.pop()?;
        if goal.least > depth || deepest(self.items.as_slice()) > depth {
            return Err(Fail::new("names that are deeper"));
        }
        let hyps = nodes_of(self.alloc, self.items.as_slice())?;
        let mut namer = Namer::new(self.alloc);
        let mut out = ByteText::new(self.alloc);
        self.heap.is_sound();
        print_sequent(
            self.alloc,
            &mut self.heap,
            &self.symbols,
            hyps.as_slice(),
            goal.node,
            depth,
            &mut namer,
            &mut out,
        )?;
        Ok(out)
    }
}

/// The number that digits are.
pub(crate) fn number(digits: &str) -> Result<u8, Fail> {
    match digits.parse::<u8>() {
        Ok(n) => Ok(n),
        Err(_) => Err(Fail::new("no number")),
    }
}

/// Fails where the text that is shown isn't the one that is wanted.
pub(crate) fn expect(shown: &ByteText, wanted: &str, line: &str) -> Result<(), Fail> {
    if shown.equals(wanted.as_bytes()) {
        Ok(())
    } else {
        Err(Fail::new(format_args!("not so: {line}")))
    }
}
