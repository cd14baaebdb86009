// Which constraint is awake after steps. A step is one byte: `+` suspends a goal on a new variable, a digit gives the
// variable of this number a value, `=` notes the number of the first awake constraint, or `-`, and `!` takes it out.

ghost use Rattle.std.specs.Prelude.{[], IfOk};
ghost use Rattle.level_terms.specs.Growth.{Grows};
ghost use Rattle.level_terms.specs.Valid.{IsValid};

use crate::keeping::leave;
use level_terms::{Change, Heap, TermId, TermIds, VarId};
use ref_terms::Sym;
use std::alloc::{AllocError, Global};
use std::marker::Model;
use std::process::Abort;
use std::test::Fail;
use suspend::{Constraint, Store};
use trail::Trail;

// A store, with the heap that its keys are in. Contracts see the store.
#[derive(Drop)]
struct Desk {
    alloc: Global,
    heap: Heap,
    trail: Trail<Change>,
    store: Store<u8>,
}

impl Model for Desk {
    ghost use Rattle.std.specs.Prelude.{ℕ, List};
    ghost use Rattle.suspend.specs.Store.{Event};

    ghost Value = { List (Event ℕ) };

    ghost use Rattle.suspend.specs.Keyed.{Keyed};

    ghost view = { λ d. d.store };

    ghost invariant = { λ d. Keyed d.store d.heap };
}

// A new variable.
fn new_key(heap: &mut Heap) -> Result<TermId, AllocError>
    ensures valid { IfOk result (λ t. IsValid heap.new t.index 0) }
    ensures grows { Grows heap.old heap.new [] [] }
{
    heap.is_sound();
    let v = heap.fresh_var(0)?;
    heap.is_sound();
    let t = heap.var(v)?;
    heap.is_sound();
    Ok(t)
}

impl Desk {
    // No constraints.
    fn new(alloc: Global) -> Desk {
        Desk {
            alloc,
            heap: Heap::new(alloc),
            trail: Trail::new(alloc),
            store: Store::new(alloc),
        }
    }

    // Suspends a goal on a new variable.
    fn suspend(&mut self) -> Result<(), Fail> {
        self.heap.is_sound();
        let key = new_key(&mut self.heap)?;
        let mut keys = TermIds::new(self.alloc);
        keys.push(key)?;
        self.store.add(Constraint {
            names: 0,
            context: 0,
            goal: key,
            keys,
        })?;
        Ok(())
    }

    // Gives a variable a value.
    fn assign(&mut self, number: u32) -> Result<(), Fail> {
        let v = VarId { index: number };
        if number >= self.heap.next_var().index || self.heap.value(v).is_some() {
            return Err(Fail::new("no variable without a value"));
        }
        self.trail.reserve(1)?;
        self.heap.is_sound();
        let c = self.heap.con(Sym(40))?;
        self.heap.is_sound();
        let noted = self.trail.mark();
        self.heap.assign(&mut self.trail, v, c);
        self.store.follow(&self.heap, self.trail.since(noted));
        Ok(())
    }

    // The first awake constraint.
    fn awake(&mut self) -> Result<Option<u64>, AllocError> {
        self.heap.is_sound();
        self.store.awake(&mut self.heap)
    }

    // The first awake constraint goes.
    fn withdraw(&mut self) -> Result<(), Fail> {
        match self.awake()? {
            Some(number) => leave(&mut self.store, number),
            None => Err(Fail::new("none is awake")),
        }
    }

    // Takes one step.
    fn take(&mut self, step: u8, out: &mut Vec<u8>) -> Result<(), Fail> {
        match step {
            b'+' => self.suspend()?,
            b'!' => self.withdraw()?,
            b'=' => out.push(digit(self.awake()?))?,
            b'0'..=b'9' => self.assign((step - b'0') as u32)?,
            _ => return Err(Fail::new("no step")),
        }
        Ok(())
    }
}

// The last digit of a number, or `-`.
fn digit(number: Option<u64>) -> u8 {
    match number {
        Some(number) => b'0' + (number % 10) as u8,
        None => b'-',
    }
}

// Takes the steps, and compares what was noted with what is wanted.
fn notes(rt: &impl Abort, alloc: Global, steps: &str, wanted: &str) -> Result<(), Fail> {
    let mut desk = Desk::new(alloc);
    let mut out = Vec::new(alloc);
    for step in steps.as_bytes() {
        desk.take(*step, &mut out)?;
    }
    assert_eq!(rt; out.as_slice(), wanted.as_bytes());
    Ok(())
}

#[test]
fn the_first_awake_one_comes_first(rt: HostRuntime) -> Result<(), Fail> {
    let alloc = rt.alloc();
    notes(&rt, alloc, "=", "-")?;
    notes(&rt, alloc, "+++=", "-")?;
    notes(&rt, alloc, "+++1=", "2")?;
    notes(&rt, alloc, "+++=2=1=", "-32")?;
    notes(&rt, alloc, "+++21=!=!=", "23-")?;
    notes(&rt, alloc, "+=0=!=+=", "-1--")?;
    Ok(())
}
