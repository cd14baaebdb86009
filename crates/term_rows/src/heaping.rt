//! Each public call with ample memory, and a heap of two million nodes. Expected values are by hand.
ghost use Rattle.std.specs.Prelude.{◌≡◌, [], ◌<◌, ◌≤◌, ◌+◌, length, None, OnOk};
ghost use Rattle.level_terms.specs.Graph.{value_in};
ghost use Rattle.level_terms.specs.Growth.{Grows};
ghost use Rattle.level_terms.specs.Undo.{IsTrailOf};

use level_terms::{Change, Heap, HeapMark, Node, TermId, TermIds, VarId};
use ref_terms::Sym;
use std::alloc::AllocError;
use std::test::Fail;
use trail::Trail;

/// Whether a node is what is expected.
fn is_seen(node: &Node, want: &Seen) -> bool {
    match (node, want) {
        (Node::Con(c), Seen::Con(d)) => c == d,
        (Node::Int(n), Seen::Int(k)) => n == k,
        (Node::Str(s), Seen::Str(d)) => s == d,
        (Node::Level(l), Seen::Level(k)) => l == k,
        (Node::Lam { depth, body }, Seen::Lam(k, b)) => depth == k && body.index == *b,
        (Node::App { head, args }, Seen::App(h, first, last, count)) => {
            let args = args.as_slice();
            head.index == *h
                && args.len() == *count
                && args.first() == Some(&TermId { index: *first })
                && args.last() == Some(&TermId { index: *last })
        }
        (Node::Var(v), Seen::Var(k)) => v.index == *k,
        _ => false,
    }
}

/// A node as it is expected: an application by its head, its first and last argument, and their number.
#[derive(Clone, Copy)]
enum Seen {
    Con(Sym),
    Int(i64),
    Str(Sym),
    Level(usize),
    Lam(usize, u32),
    App(u32, u32, u32, usize),
    Var(u32),
}

#[test]
fn reads_nodes_back(rt: HostRuntime) -> Result<(), Fail> {
    let mut heap = Heap::new(rt.alloc());
    let f = heap.con(Sym(3))?;
    let n = heap.int(-7)?;
    let s = heap.text(Sym(4))?;
    let l = heap.level(0)?;
    assert_eq!(rt; heap.next_var(), VarId { index: 0 });
    let v = heap.fresh_var(1)?;
    assert_eq!(rt; heap.next_var(), VarId { index: 1 });
    let x = heap.var(v)?;
    let short = heap.app(f, [n, x].as_slice())?;
    let long = heap.app(f, [n, s, l, short, x].as_slice())?;
    let b = heap.lam(0, long)?;
    assert_eq!(rt; heap.var_depth(v), 1);
    assert_eq!(rt; heap.value(v), None);
    heap.is_sound();
    assert!(rt; is_seen(heap.view(f), &Seen::Con(Sym(3))));
    assert!(rt; is_seen(heap.view(n), &Seen::Int(-7)));
    assert!(rt; is_seen(heap.view(s), &Seen::Str(Sym(4))));
    assert!(rt; is_seen(heap.view(l), &Seen::Level(0)));
    assert!(rt; is_seen(heap.view(x), &Seen::Var(0)));
    assert!(rt; is_seen(heap.view(short), &Seen::App(0, 1, 4, 2)));
    assert!(rt; is_seen(heap.view(long), &Seen::App(0, 1, 4, 5)));
    assert!(rt; is_seen(heap.view(b), &Seen::Lam(0, 6)));
    assert!(rt; heap.is_ground_normal(n) && !heap.is_ground_normal(b));
    Ok(())
}

#[test]
fn lists_keep_their_order(rt: HostRuntime) -> Result<(), Fail> {
    let mut ids = TermIds::new(rt.alloc());
    for index in 0..6 {
        ids.push(TermId { index })?;
    }
    assert_eq!(rt; ids.len(), 6);
    assert_eq!(rt; ids.as_slice().last(), Some(&TermId { index: 5 }));
    let copy = TermIds::from_slice(rt.alloc(), ids.as_slice())?;
    assert_eq!(rt; copy.as_slice(), ids.as_slice());
    Ok(())
}

/// Within an assignment of another variable: assigns `v`, looks at it and takes that back.
fn binds_within(heap: &mut Heap, trail: &mut Trail<Change>, v: VarId) -> Result<bool, AllocError>
    requires variable { v.index < length heap.old.depths }
    requires free { value_in heap.old.assigned v.index ≡ None }
    requires own { IsTrailOf heap.old trail.old.entries }
    requires spare { 1 ≤ trail.old.spare }
    ensures heap { OnOk result (heap.new ≡ heap.old) }
    ensures trail { OnOk result (trail.new.entries ≡ trail.old.entries) }
    ensures spare { OnOk result (trail.new.spare ≡ trail.old.spare) }
{
    let mark = heap.mark(trail);
    let c = heap.con(Sym(9))?;
    heap.assign(trail, v, c);
    let seen = heap.value(v) == Some(c) && trail.len() == mark.entries + 1;
    heap.undo(trail, mark);
    Ok(seen && heap.value(v).is_none() && heap.mark(trail) == mark)
}

#[test]
fn undoes_nested_marks(rt: HostRuntime) -> Result<(), Fail> {
    let mut heap = Heap::new(rt.alloc());
    let mut trail = Trail::new(rt.alloc());
    let x = heap.fresh_var(0)?;
    let y = heap.fresh_var(0)?;
    let c = heap.con(Sym(8))?;
    trail.reserve(2)?;
    let outer = heap.mark(&trail);
    heap.assign(&mut trail, x, c);
    let _node = heap.var(x)?;
    assert!(rt; binds_within(&mut heap, &mut trail, y)?);
    assert_eq!(rt; heap.value(x), Some(c));
    assert_eq!(rt; heap.value(y), None);
    assert_eq!(rt;
        outer,
        HeapMark {
            nodes: 1,
            variables: 2,
            entries: 0
        }
    );
    assert_eq!(rt;
        heap.mark(&trail),
        HeapMark {
            nodes: 2,
            variables: 2,
            entries: 1
        }
    );
    heap.undo(&mut trail, outer);
    assert_eq!(rt; heap.value(x), None);
    assert_eq!(rt; heap.mark(&trail), outer);
    assert_eq!(rt; trail.len(), 0);
    Ok(())
}

/// Adds three nodes and a variable, so many times.
fn grow(heap: &mut Heap, times: u32) -> Result<(), AllocError>
    ensures { Grows heap.old heap.new [] [] }
{
    for n in 0..times {
        heap.con(Sym(0))?;
        heap.int(n as i64)?;
        let v = heap.fresh_var(2)?;
        heap.var(v)?;
    }
    Ok(())
}

#[test]
fn undoes_a_million_nodes(rt: HostRuntime) -> Result<(), Fail> {
    let mut heap = Heap::new(rt.alloc());
    let mut trail = Trail::new(rt.alloc());
    grow(&mut heap, 400_000)?;
    let mark = heap.mark(&trail);
    assert_eq!(rt;
        mark,
        HeapMark {
            nodes: 1_200_000,
            variables: 400_000,
            entries: 0
        }
    );
    grow(&mut heap, 400_000)?;
    let later = heap.mark(&trail);
    assert_eq!(rt;
        later,
        HeapMark {
            nodes: 2_400_000,
            variables: 800_000,
            entries: 0
        }
    );
    heap.undo(&mut trail, mark);
    assert_eq!(rt; heap.mark(&trail), mark);
    Ok(())
}
