//! Joint names that names of a sequent get.

ghost use Rattle.std.specs.Prelude.{◌≡◌, ◌<◌, ℕ, List, [], cond, length, Some, None, IfSome, option_and_then, option_map};
ghost use Rattle.ref_terms.specs.search.Joint.{gets_joint, identified, paired, paired_spines};
ghost use Rattle.beta_fragment.specs.Names.{AllBelow};
ghost use Rattle.eigen_align.specs.Counts.{AreBelow};
ghost use Rattle.eigen_align.specs.inside.Identified.{allowed, all_allowed};
ghost use Rattle.eigen_align.specs.inside.Spines.{spine_read};

use crate::spine::Spine;

/// Whether what one name has allows that a joint name is given to a name, which may be this one.
fn allows(has: Option<usize>, is_own: bool, joint: usize) -> bool
    ensures { result ≡ allowed is_own joint has }
{
    match has {
        None => true,
        Some(other) => {
            if is_own {
                joint == other
            } else {
                joint != other
            }
        }
    }
}

/// Whether what all names have allows that a joint name is given to one of them.
fn all_allow(names: &[Option<usize>], own: usize, joint: usize) -> bool
    ensures { result ≡ all_allowed own joint 0 names.now }
{
    for i in 0..names.len() {
        let can = allows(names[i], own == i, joint);
        if !can {
            return false;
        }
    }
    true
}

/// Gives one name a joint name, and says whether it could: not where it has another one, or where
/// another name has this one.
fn give(names: &mut Vec<Option<usize>>, own: usize, joint: usize) -> bool
    requires { own < length names.old.items }
    ensures given { cond result (Some names.new.items) None ≡ gets_joint own joint 0 names.old.items }
    ensures count { length names.new.items ≡ length names.old.items }
    ensures below { (d : ℕ) → joint < d → AreBelow d names.old.items → AreBelow d names.new.items }
{
    let can = all_allow(names.as_slice(), own, joint);
    if !can {
        return false;
    }
    names[own] = Some(joint);
    true
}

/// Identifies names at equal places of two spines, and says whether it could. The left spine's names
/// have the joint names `map`.
fn identify(names: &mut Vec<Option<usize>>, map: &[usize], left: &[usize], right: &[usize]) -> bool
    requires left { AllBelow left.now (length map.now) }
    requires right { AllBelow right.now (length names.old.items) }
    ensures identified { cond result (Some names.new.items) None ≡ option_and_then (λ ps. identified map.now ps (Some names.old.items)) (paired left.now right.now) }
    ensures count { length names.new.items ≡ length names.old.items }
    ensures below { (d : ℕ) → AllBelow map.now d → AreBelow d names.old.items → AreBelow d names.new.items }
{
    let same = left.len() == right.len();
    if !same {
        return false;
    }
    for i in 0..left.len() {
        let given = give(names, right[i], map[left[i]]);
        if !given {
            return false;
        }
    }
    true
}

/// Identifies the names at equal places of two spines, where both are of one variable, and says whether
/// it could. The left spine's names have the joint names `map`.
fn identify_one(names: &mut Vec<Option<usize>>, map: &[usize], left: &Spine, right: &Spine) -> bool
    requires left { AllBelow left.now.names.items (length map.now) }
    requires right { AllBelow right.now.names.items (length names.old.items) }
    ensures identified { cond result (Some names.new.items) None ≡ option_and_then (λ ps. identified map.now ps (Some names.old.items)) (paired_spines (Some (spine_read left.now)) (Some (spine_read right.now))) }
    ensures count { length names.new.items ≡ length names.old.items }
    ensures below { (d : ℕ) → AllBelow map.now d → AreBelow d names.old.items → AreBelow d names.new.items }
{
    let same = left.variable.index == right.variable.index;
    if !same {
        return false;
    }
    identify(names, map, left.names.as_slice(), right.names.as_slice())
}

/// The same of what there is at two arguments.
pub(crate) fn identify_spines(
    names: &mut Vec<Option<usize>>,
    map: &[usize],
    left: &Option<Spine>,
    right: &Option<Spine>,
) -> bool
    requires left { IfSome left.now (λ s. AllBelow s.names.items (length map.now)) }
    requires right { IfSome right.now (λ s. AllBelow s.names.items (length names.old.items)) }
    ensures identified { cond result (Some names.new.items) None ≡ option_and_then (λ ps. identified map.now ps (Some names.old.items)) (paired_spines (option_map spine_read left.now) (option_map spine_read right.now)) }
    ensures count { length names.new.items ≡ length names.old.items }
    ensures below { (d : ℕ) → AllBelow map.now d → AreBelow d names.old.items → AreBelow d names.new.items }
{
    match left {
        None => false,
        Some(first) => match right {
            None => false,
            Some(second) => identify_one(names, map, first, second),
        },
    }
}
