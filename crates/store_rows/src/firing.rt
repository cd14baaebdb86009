// What has fired.
use crate::keeping::go_back;
use std::alloc::{AllocError, Global};
use std::test::Fail;
use suspend::{Fired, Store};

// A rule and the numbers of constraints.
fn pair(alloc: Global, rule: usize, numbers: &[u64]) -> Result<Fired, AllocError> {
    Ok(Fired {
        rule,
        constraints: Vec::from_slice(alloc, numbers)?,
    })
}

// A rule fires that hasn't fired on these.
fn fire(store: &mut Store<u8>, pair: Fired) -> Result<(), Fail> {
    if store.fired(&pair) {
        return Err(Fail::new("it has fired"));
    }
    store.fire(pair)?;
    Ok(())
}

#[test]
fn a_firing_is_known_until_it_is_taken_back(rt: HostRuntime) -> Result<(), Fail> {
    let alloc = rt.alloc();
    let mut store: Store<u8> = Store::new(alloc);
    let first = pair(alloc, 3, [1, 2].as_slice())?;
    let second = pair(alloc, 3, [2, 1].as_slice())?;
    fire(&mut store, pair(alloc, 3, [1, 2].as_slice())?)?;
    let mark = store.mark();
    fire(&mut store, pair(alloc, 3, [2, 1].as_slice())?)?;
    assert!(rt; store.fired(&first) && store.fired(&second));
    assert!(rt; !store.fired(&pair(alloc, 4, [1, 2].as_slice())?));
    assert!(rt; !store.fired(&pair(alloc, 3, [1].as_slice())?));
    go_back(&mut store, mark)?;
    assert!(rt; store.fired(&first) && !store.fired(&second));
    fire(&mut store, second)?;
    Ok(())
}
