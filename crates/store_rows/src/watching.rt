// Lists that watch subjects, through entries, handing over and undoing.
use std::alloc::{AllocError, Global};
use std::test::Fail;
use watch_lists::{WatchLists, WatchMark};

// The numbers in the list of a subject.
fn numbers(alloc: Global, lists: &WatchLists, subject: u64) -> Result<Vec<u64>, AllocError> {
    let mut found = Vec::new(alloc);
    lists.numbers(subject, &mut found)?;
    Ok(found)
}

// The lists go back to a mark.
fn go_back(lists: &mut WatchLists, m: WatchMark) -> Result<(), Fail> {
    if m.changes > lists.mark().changes {
        return Err(Fail::new("a mark that isn't reached"));
    }
    lists.undo(m);
    Ok(())
}

// The newest change is taken back.
fn take_back(lists: &mut WatchLists) -> Result<(), Fail> {
    if lists.mark().changes == 0 {
        return Err(Fail::new("nothing to be taken back"));
    }
    lists.take_back();
    Ok(())
}

#[test]
fn a_list_is_handed_over_and_comes_back(rt: HostRuntime) -> Result<(), Fail> {
    let alloc = rt.alloc();
    let mut lists = WatchLists::new(alloc);
    lists.enter(7, 1)?;
    lists.enter(7, 2)?;
    lists.enter(8, 3)?;
    let mark = lists.mark();
    assert_eq!(rt; mark, WatchMark { changes: 3 });
    assert!(rt; lists.is_empty(9) && !lists.is_empty(7));
    lists.hand_over(7, 8)?;
    lists.enter(8, 4)?;
    lists.hand_over(8, 9)?;
    assert_eq!(rt; numbers(alloc, &lists, 7)?.as_slice(), [2, 1].as_slice());
    assert_eq!(rt;
        numbers(alloc, &lists, 8)?.as_slice(),
        [4, 2, 1, 3].as_slice()
    );
    assert_eq!(rt;
        numbers(alloc, &lists, 9)?.as_slice(),
        [4, 2, 1, 3].as_slice()
    );
    take_back(&mut lists)?;
    assert!(rt; lists.is_empty(9));
    go_back(&mut lists, mark)?;
    assert_eq!(rt; numbers(alloc, &lists, 8)?.as_slice(), [3].as_slice());
    lists.hand_over(8, 7)?;
    assert_eq!(rt; numbers(alloc, &lists, 7)?.as_slice(), [3, 2, 1].as_slice());
    go_back(&mut lists, WatchMark { changes: 0 })?;
    assert!(rt; lists.is_empty(7) && lists.is_empty(8));
    Ok(())
}
