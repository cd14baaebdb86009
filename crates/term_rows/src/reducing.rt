//! Calls with ample memory, on the abstraction `x\ f x x`, its application to a constant `a`, and a
//! name. Printed forms of many terms are tried where terms are printed. Expected values are by hand.
ghost use Rattle.std.specs.Prelude.{◌≡◌, [], ◌∷◌, IfOk};
ghost use Rattle.level_terms.specs.Graph.{node_at};
ghost use Rattle.level_terms.specs.Valid.{IsValid};
ghost use Rattle.level_terms.specs.Reading.{read};
ghost use Rattle.beta_fragment.specs.Body.{IsLam, IsLamAt};
ghost use Rattle.beta_fragment.specs.Firm.{IsPlain};
ghost use Rattle.beta_fragment.specs.Names.{names as own_names};

use beta_fragment::{
    Names, RigidHead, Whnf, applied_to_level, contract, enter, instantiate, lift, same_term, whnf,
};
use level_terms::{Heap, Node, TermId};
use ref_terms::Sym;
use std::alloc::{AllocError, Global};
use std::test::Fail;

#[derive(Clone, Copy)]
struct Sample {
    constant: TermId,
    name: TermId,
    body: TermId,
    lam: TermId,
    redex: TermId,
}

fn made_sample(heap: &mut Heap) -> Result<Sample, AllocError>
    requires { heap.old.nodes ≡ [] }
    ensures constant { IfOk result (λ s. IsValid heap.new s.constant.index 0) }
    ensures name { IfOk result (λ s. IsValid heap.new s.name.index 1) }
    ensures lam { IfOk result (λ s. IsValid heap.new s.lam.index 0) }
    ensures redex { IfOk result (λ s. IsValid heap.new s.redex.index 0) }
    ensures made { IfOk result (λ s. IsLamAt 0 (node_at heap.new.nodes s.lam.index)) }
    ensures node { IfOk result (λ s. IsLam (node_at heap.new.nodes s.lam.index)) }
    ensures plain { IfOk result (λ s. IsPlain (read heap.new s.constant.index own_names)) }
{
    let f = heap.con(Sym(1))?;
    let constant = heap.con(Sym(2))?;
    let name = heap.level(0)?;
    let body = heap.app(f, [name, name].as_slice())?;
    let lam = heap.lam(0, body)?;
    let redex = heap.app(lam, [constant].as_slice())?;
    heap.is_sound();
    Ok(Sample {
        constant,
        name,
        body,
        lam,
        redex,
    })
}

#[test]
fn takes_a_constant(rt: HostRuntime) -> Result<(), Fail> {
    let mut heap = Heap::new(rt.alloc());
    let s = made_sample(&mut heap)?;
    match whnf(rt.alloc(), &mut heap, s.redex, 0)? {
        Whnf::Rigid(head, args) => {
            assert_eq!(rt; head, RigidHead::Con(Sym(1)));
            assert_eq!(rt; args.as_slice(), [s.constant, s.constant].as_slice());
        }
        _ => assert!(rt; false),
    }
    Ok(())
}

#[test]
fn sees_an_abstraction(rt: HostRuntime) -> Result<(), Fail> {
    let mut heap = Heap::new(rt.alloc());
    let s = made_sample(&mut heap)?;
    match whnf(rt.alloc(), &mut heap, s.lam, 0)? {
        Whnf::Lam(lam) => assert_eq!(rt; lam, s.lam),
        _ => assert!(rt; false),
    }
    Ok(())
}

#[test]
fn enters_without_a_node(rt: HostRuntime) -> Result<(), Fail> {
    let mut heap = Heap::new(rt.alloc());
    let s = made_sample(&mut heap)?;
    assert_eq!(rt; enter(&heap, s.lam, 0), s.body);
    assert_eq!(rt; heap.con(Sym(3))?, TermId { index: 6 });
    Ok(())
}

/// Whether the node is an application to this node twice.
fn is_twice(node: &Node, arg: TermId) -> bool {
    match node {
        Node::App { args, .. } => args.as_slice() == [arg, arg].as_slice(),
        _ => false,
    }
}

#[test]
fn puts_a_constant_into_a_body(rt: HostRuntime) -> Result<(), Fail> {
    let mut heap = Heap::new(rt.alloc());
    let s = made_sample(&mut heap)?;
    let r = contract(rt.alloc(), &mut heap, s.lam, s.constant, 0)?;
    assert!(rt; is_twice(heap.view(r), s.constant));
    Ok(())
}

#[test]
fn puts_a_constant_for_a_level(rt: HostRuntime) -> Result<(), Fail> {
    let mut heap = Heap::new(rt.alloc());
    let s = made_sample(&mut heap)?;
    let puts = [s.constant];
    let r = instantiate(rt.alloc(), &mut heap, s.name, 0, 0, &puts)?;
    assert_eq!(rt; r, s.constant);
    Ok(())
}

#[test]
fn applies_to_a_level(rt: HostRuntime) -> Result<(), Fail> {
    let mut heap = Heap::new(rt.alloc());
    let s = made_sample(&mut heap)?;
    let r = applied_to_level(rt.alloc(), &mut heap, s.lam, 0)?;
    assert_eq!(rt; r, s.body);
    Ok(())
}

#[test]
fn tells_equal_terms(rt: HostRuntime) -> Result<(), Fail> {
    let mut heap = Heap::new(rt.alloc());
    let s = made_sample(&mut heap)?;
    assert!(rt; same_term(rt.alloc(), &mut heap, s.redex, s.redex, 0)?);
    Ok(())
}

#[test]
fn tells_different_terms(rt: HostRuntime) -> Result<(), Fail> {
    let mut heap = Heap::new(rt.alloc());
    let s = made_sample(&mut heap)?;
    assert!(rt; !same_term(rt.alloc(), &mut heap, s.redex, s.constant, 0)?);
    Ok(())
}

/// The list of one name.
fn one_name(alloc: Global, name: usize) -> Result<Names, AllocError>
    ensures { IfOk result (λ names. names ≡ name ∷ []) }
{
    let mut names = Names::new(alloc);
    names.push(name)?;
    Ok(names)
}

#[test]
fn renames_a_name(rt: HostRuntime) -> Result<(), Fail> {
    let mut heap = Heap::new(rt.alloc());
    let s = made_sample(&mut heap)?;
    let names = one_name(rt.alloc(), 3)?;
    let r = lift(rt.alloc(), &mut heap, s.name, 1, 4, &names)?;
    match whnf(rt.alloc(), &mut heap, r, 4)? {
        Whnf::Rigid(head, args) => {
            assert_eq!(rt; head, RigidHead::Level(3));
            assert_eq!(rt; args.len(), 0);
        }
        _ => assert!(rt; false),
    }
    Ok(())
}

#[test]
fn names_keep_their_order(rt: HostRuntime) -> Result<(), Fail> {
    let mut names = Names::new(rt.alloc());
    names.push(3)?;
    names.push(1)?;
    assert_eq!(rt; names.len(), 2);
    assert_eq!(rt; names.as_slice(), [3, 1].as_slice());
    Ok(())
}
