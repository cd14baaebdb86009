//! Each public function once, with ample memory.

use ref_terms::{Args, Choice, Fault, Head, Path, Sym, Tree};
use sqlite_items::Boxed;
use std::alloc::AllocError;

#[test]
fn faults_have_their_printed_names(rt: HostRuntime) {
    for (fault, name) in [
        (Fault::FlexGoal, "flex-goal"),
        (Fault::FlexClause, "flex-clause"),
        (Fault::NotGoal, "not-goal"),
        (Fault::Unknown, "unknown"),
        (Fault::Arity, "arity"),
        (Fault::Redex, "redex"),
        (Fault::Pattern, "pattern"),
        (Fault::Scope, "scope"),
        (Fault::Number, "number"),
    ] {
        assert_eq!(rt; fault.name(), name);
    }
}

#[test]
fn lists_hold_what_was_put_into_them(rt: HostRuntime) -> Result<(), AllocError> {
    let mut path = Path::new(rt.alloc());
    assert_eq!(rt; path.len(), 0);
    path.push(Choice::Clause(3))?;
    path.push(Choice::Right)?;
    assert_eq!(rt; path.len(), 2);
    assert_eq!(rt;
        path.as_slice(),
        [Choice::Clause(3), Choice::Right].as_slice()
    );
    let path = Path::from_vec(path.into_vec());
    assert_eq!(rt; path.len(), 2);

    let mut args = Args::new(rt.alloc());
    let body = Tree::Ap(Head::Bound(0), Args::new(rt.alloc()));
    args.push(Tree::Ap(Head::Con(Sym(25)), Args::new(rt.alloc())))?;
    args.push(Tree::Lam(Boxed::new(rt.alloc(), body)?))?;
    assert!(rt;
        matches!(
            args.as_slice(),
            [Tree::Ap(Head::Con(Sym(25)), _), Tree::Lam(_)]
        )
    );
    Ok(())
}
