// Contexts with ample memory: order, sharing, predicates, and the drop of a long one.
use crate::{Context, HypIter};
use hyp_clause::{Hyp, Hyps};
use level_terms::{TermId, TermIds};
use ref_terms::{Sequence, Sym};
use std::alloc::{AllocError, Global};
use std::test::Fail;

fn hyp(alloc: Global, pred: usize, depth: usize) -> Hyp {
    Hyp {
        pred: Sym(pred),
        depth,
        pis: 0,
        head: TermId { index: 0 },
        body: TermIds::new(alloc),
        term: TermId { index: 0 },
        ground_normal: pred == 7,
    }
}

fn one(alloc: Global, pred: usize, depth: usize) -> Result<Hyps, AllocError> {
    let mut hyps = Sequence::new(alloc);
    hyps.push(hyp(alloc, pred, depth))?;
    Ok(hyps)
}

fn count(mut iter: HypIter) -> usize {
    let mut n = 0usize;
    for _ in 0..u64::MAX {
        if iter.next().is_none() {
            return n;
        }
        n = n.wrapping_add(1);
    }
    n
}

#[test]
fn goes_by_predicates(rt: HostRuntime) -> Result<(), Fail> {
    let alloc = rt.alloc();
    let mut context = Context::empty(alloc);
    for i in 0..10usize {
        context = Context::assume(&context, one(alloc, i % 3, i)?)?;
    }
    let older = context.copy()?;
    context = Context::assume(&context, one(alloc, 7, 10)?)?;
    assert_eq!(rt; count(context.iter()), 11);
    assert_eq!(rt; count(older.iter()), 10);
    assert_eq!(rt; count(context.for_pred(Sym(0))), 4);
    assert_eq!(rt; count(context.for_pred(Sym(7))), 1);
    assert_eq!(rt; count(older.for_pred(Sym(7))), 0);
    assert_eq!(rt; count(context.changeable()), 10);
    match context.for_pred(Sym(1)).next() {
        Some(h) => assert_eq!(rt; h.depth, 7),
        None => assert!(rt; false),
    }
    Ok(())
}

#[test]
fn drops_a_long_one(rt: HostRuntime) -> Result<(), Fail> {
    let alloc = rt.alloc();
    let mut context = Context::empty(alloc);
    for i in 0..1000000usize {
        context = Context::assume(&context, one(alloc, 1, i)?)?;
    }
    assert_eq!(rt; count(context.for_pred(Sym(1))), 1000000);
    Ok(())
}
