// What is stored after steps. A step is one byte: `+` adds a constraint, a digit removes the one of this number, `m` marks
// a place, and `u` goes back to the newest one.

ghost use Rattle.std.specs.Prelude.{◌≡◌};
ghost use Rattle.level_terms.specs.Graph.{Graph};
ghost use Rattle.suspend.specs.Store.{is_stored};
ghost use Rattle.suspend.specs.Keyed.{Keyed};

use level_terms::{TermId, TermIds};
use std::alloc::{AllocError, Global};
use std::process::Abort;
use std::test::Fail;
use suspend::{Constraint, Store, StoreMark};

// A constraint without keys.
fn goal(alloc: Global) -> Constraint<u8> {
    Constraint {
        names: 0,
        context: 0,
        goal: TermId { index: 0 },
        keys: TermIds::new(alloc),
    }
}

// Whether the constraint of a number is stored.
pub(crate) fn has(store: &Store<u8>, number: u64) -> bool
    ensures { result ≡ is_stored store.now number }
{
    let mut rest = store.iter();
    while let Some((stored, _)) = rest.next() {
        if number == stored {
            return true;
        }
    }
    false
}

// The constraint of a number goes.
pub(crate) fn leave(store: &mut Store<u8>, number: u64) -> Result<(), Fail>
    ensures { (g : Graph) → Keyed store.old g → Keyed store.new g }
{
    if !has(store, number) {
        return Err(Fail::new("no constraint of this number"));
    }
    store.remove(number)?;
    Ok(())
}

// The store goes back to a mark.
pub(crate) fn go_back(store: &mut Store<u8>, m: StoreMark) -> Result<(), Fail> {
    if m.events > store.mark().events {
        return Err(Fail::new("a mark that isn't reached"));
    }
    store.undo(m);
    Ok(())
}

// Takes one step.
fn take(
    alloc: Global,
    store: &mut Store<u8>,
    marks: &mut Vec<StoreMark>,
    step: u8,
) -> Result<(), Fail> {
    match step {
        b'+' => {
            store.add(goal(alloc))?;
        }
        b'm' => marks.push(store.mark())?,
        b'u' => {
            if let Some(m) = marks.pop() {
                go_back(store, m)?;
            }
        }
        b'1'..=b'9' => leave(store, (step - b'0') as u64)?,
        _ => return Err(Fail::new("no step")),
    }
    Ok(())
}

// The last digits of the stored numbers, in order.
fn digits(alloc: Global, store: &Store<u8>) -> Result<Vec<u8>, AllocError> {
    let mut found = Vec::new(alloc);
    let mut rest = store.iter();
    while let Some((number, _)) = rest.next() {
        found.push(b'0' + (number % 10) as u8)?;
    }
    Ok(found)
}

// Takes the steps, and compares what is stored then with what is wanted.
fn leaves(rt: &impl Abort, alloc: Global, steps: &str, left: &str) -> Result<(), Fail> {
    let mut store = Store::new(alloc);
    let mut marks = Vec::new(alloc);
    for step in steps.as_bytes() {
        take(alloc, &mut store, &mut marks, *step)?;
    }
    let found = digits(alloc, &store)?;
    assert_eq!(rt; found.as_slice(), left.as_bytes());
    assert_eq!(rt; store.len(), left.len());
    Ok(())
}

#[test]
fn the_store_is_as_at_the_mark(rt: HostRuntime) -> Result<(), Fail> {
    let alloc = rt.alloc();
    leaves(&rt, alloc, "", "")?;
    leaves(&rt, alloc, "+++", "123")?;
    leaves(&rt, alloc, "+++2", "13")?;
    leaves(&rt, alloc, "+++m2+3", "14")?;
    leaves(&rt, alloc, "+++m2+3u", "123")?;
    leaves(&rt, alloc, "+++m2+3u+", "1234")?;
    leaves(&rt, alloc, "+m1mu++", "23")?;
    leaves(&rt, alloc, "+m+m+3u2u+", "12")?;
    leaves(&rt, alloc, "m+++123u", "")?;
    Ok(())
}

#[test]
fn a_constraint_is_given_by_its_number(rt: HostRuntime) -> Result<(), Fail> {
    let mut store = Store::new(rt.alloc());
    for context in [5, 6, 7] {
        let mut c = goal(rt.alloc());
        c.context = context;
        store.add(c)?;
    }
    if !has(&store, 2) {
        return Err(Fail::new("no constraint 2"));
    }
    assert_eq!(rt; store.get(2).context, 6);
    Ok(())
}
