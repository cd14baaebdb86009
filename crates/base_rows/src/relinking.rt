// A list through its steps. Expected values are by hand.
use dance_list::{DanceList, Node};
use std::alloc::{AllocError, Global};
use std::cell::Cell;
use std::test::Fail;

// The items of the linked nodes, in list order.
fn items(list: &DanceList<u8>, alloc: Global) -> Result<Vec<u8>, AllocError> {
    let mut found = Vec::new(alloc);
    for (_, item) in list.iter() {
        found.push(*item)?;
    }
    Ok(found)
}

#[test]
fn unlinks_and_relinks(rt: HostRuntime) -> Result<(), Fail> {
    let alloc = rt.alloc();
    let mut list = DanceList::new(alloc);
    let _a: Node = list.push_back(b'a')?;
    let b: Node = list.push_back(b'b')?;
    let _c: Node = list.push_back(b'c')?;
    assert_eq!(rt; items(&list, alloc)?.as_slice(), b"abc".as_slice());
    list.unlink(b);
    assert_eq!(rt; items(&list, alloc)?.as_slice(), b"ac".as_slice());
    let _d: Node = list.push_back(b'd')?;
    assert_eq!(rt; items(&list, alloc)?.as_slice(), b"acd".as_slice());
    list.truncate(1);
    assert_eq!(rt; items(&list, alloc)?.as_slice(), b"ac".as_slice());
    list.relink(b);
    assert_eq!(rt; items(&list, alloc)?.as_slice(), b"abc".as_slice());
    assert_eq!(rt; list.len(), 3);
    list.is_sound();
    Ok(())
}

// An item that counts its drops, each in its own digit of one number.
struct Counted<'a> {
    drops: &'a Cell<u32>,
    unit: u32,
}

impl Drop for Counted<'_> {
    fn drop(self) {
        let Self { drops, unit } = self;
        drops.set(drops.get().saturating_add(unit));
    }
}

#[test]
fn drops_each_item_once(rt: HostRuntime) -> Result<(), Fail> {
    let count = Cell::new(0u32);
    let drops = &count;
    {
        let mut list = DanceList::new(rt.alloc());
        let _a: Node = list.push_back(Counted { drops, unit: 1 })?;
        let b: Node = list.push_back(Counted { drops, unit: 10 })?;
        let _c: Node = list.push_back(Counted { drops, unit: 100 })?;
        list.unlink(b);
        let _d: Node = list.push_back(Counted { drops, unit: 1000 })?;
        assert_eq!(rt; drops.get(), 0);
        list.truncate(1);
        assert_eq!(rt; drops.get(), 1000);
        list.relink(b);
        list.truncate(1);
        assert_eq!(rt; drops.get(), 1100);
        list.unlink(b);
        let _e: Node = list.push_back(Counted { drops, unit: 10000 })?;
        assert_eq!(rt; drops.get(), 1100);
    }
    assert_eq!(rt; drops.get(), 11111);
    Ok(())
}
