// Each public call once, with ample memory. Expected values are by hand.
use agenda::{Agenda, AgendaMark};
use std::process::Abort;
use std::test::Fail;

// Takes all pairs out, and compares them with what is wanted.
fn takes(rt: &impl Abort, agenda: &mut Agenda, wanted: &[(usize, u64)]) {
    for pair in wanted {
        assert_eq!(rt; agenda.next_pair(), Some(*pair));
    }
    assert_eq!(rt; agenda.next_pair(), None);
}

// Undoes to a mark that the log has reached.
fn undoes(rt: &impl Abort, agenda: &mut Agenda, m: AgendaMark) {
    let reached = m.changes <= agenda.mark().changes;
    assert!(rt; reached);
    agenda.undo(m);
    assert_eq!(rt; agenda.mark(), m);
}

#[test]
fn gives_pairs_by_rule_and_number(rt: HostRuntime) -> Result<(), Fail> {
    let mut agenda = Agenda::new(rt.alloc(), 2);
    assert_eq!(rt; agenda.next_pair(), None);
    let start = agenda.mark();
    assert_eq!(rt; start, AgendaMark { changes: 0 });
    for number in [3, 1, 3] {
        agenda.touch(number)?;
    }
    assert_eq!(rt; agenda.next_pair(), Some((0, 1)));
    assert_eq!(rt; agenda.next_pair(), Some((0, 3)));
    assert_eq!(rt; agenda.next_pair(), Some((1, 1)));
    let later = agenda.mark();
    assert_eq!(rt; later, AgendaMark { changes: 7 });
    agenda.touch(1)?;
    agenda.touch(2)?;
    takes(&rt, &mut agenda, &[(0, 1), (0, 2), (1, 1), (1, 2), (1, 3)]);
    undoes(&rt, &mut agenda, later);
    takes(&rt, &mut agenda, &[(1, 3)]);
    undoes(&rt, &mut agenda, later);
    agenda.touch(9)?;
    agenda.clear();
    assert_eq!(rt; agenda.next_pair(), None);
    undoes(&rt, &mut agenda, AgendaMark { changes: 4 });
    takes(&rt, &mut agenda, &[(0, 1), (0, 3), (1, 1), (1, 3)]);
    undoes(&rt, &mut agenda, start);
    assert_eq!(rt; agenda.next_pair(), None);
    Ok(())
}
