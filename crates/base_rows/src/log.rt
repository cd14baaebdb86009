// Each public call once, with ample memory. Expected values are by hand.
use std::test::Fail;
use trail::{Mark, Trail};

#[test]
fn hands_entries_back_newest_first(rt: HostRuntime) -> Result<(), Fail> {
    let mut trail: Trail<u32> = Trail::new(rt.alloc());
    let start = trail.mark();
    trail.reserve(3)?;
    trail.note(10);
    let later = trail.mark();
    trail.note(20);
    trail.note(30);
    assert_eq!(rt; start, Mark { entries: 0 });
    assert_eq!(rt; later, Mark { entries: 1 });
    assert_eq!(rt; trail.len(), 3);
    assert_eq!(rt; trail.since(start), [10, 20, 30].as_slice());
    assert_eq!(rt; trail.since(later), [20, 30].as_slice());
    assert_eq!(rt; trail.undo_one(later), Some(30));
    assert_eq!(rt; trail.undo_one(later), Some(20));
    assert_eq!(rt; trail.undo_one(later), None);
    trail.note(40);
    assert_eq!(rt; trail.since(start), [10, 40].as_slice());
    assert_eq!(rt; trail.undo_one(start), Some(40));
    assert_eq!(rt; trail.undo_one(start), Some(10));
    assert_eq!(rt; trail.undo_one(start), None);
    assert_eq!(rt; trail.len(), 0);
    Ok(())
}
