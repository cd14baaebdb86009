//! Broken rules of types, and which of two is the earlier.
ghost use Rattle.std.specs.Prelude.{◌≡◌};
ghost use Rattle.decl_types.specs.TypeRules.{number_of, is_before, earlier, first_of, breaches_if};

use decl_trees::TypeRule;
use lp_parser::Place;

/// A broken rule, with the place where it is broken.
#[derive(Clone, Copy, Debug)]
pub struct Breach {
    pub rule: TypeRule,
    pub place: Place,
}

// The number of a rule.
fn number_of(rule: TypeRule) -> usize
    ensures { result ≡ number_of rule }
{
    match rule {
        TypeRule::Y1 => 1,
        TypeRule::Y2 => 2,
        TypeRule::Y3 => 3,
        TypeRule::Y4 => 4,
    }
}

// The order of breaches: by file, then by byte, then by the number of the rule.
fn is_before(left: &Breach, right: &Breach) -> bool
    ensures { result ≡ is_before left.now right.now }
{
    if left.place.file != right.place.file {
        return left.place.file < right.place.file;
    }
    if left.place.at != right.place.at {
        return left.place.at < right.place.at;
    }
    number_of(left.rule) < number_of(right.rule)
}

/// The earlier of two breaches, where there are any.
pub fn earlier(first: Option<Breach>, second: Option<Breach>) -> Option<Breach>
    ensures { result ≡ earlier first second }
{
    let Some(first) = first else {
        return second;
    };
    let Some(second) = second else {
        return Some(first);
    };
    if is_before(&second, &first) {
        Some(second)
    } else {
        Some(first)
    }
}

/// The breach of this rule at this place, where it is broken there.
pub fn breach_if(broken: bool, rule: TypeRule, place: Place) -> Option<Breach>
    ensures { result ≡ first_of (breaches_if broken rule place) }
{
    if broken {
        Some(Breach { rule, place })
    } else {
        None
    }
}
