//! Broken rules with their places, and which of two is the earlier.
ghost use Rattle.std.specs.Prelude.{◌≡◌, [], ◌∷◌, if◌then◌else◌};
ghost use Rattle.lp_resolve.specs.StaticRules.{number_of, is_before, earlier, first_of, breaches_at};

use lp_parser::Place;
use lp_resolve::StaticRule;
use std::marker::Model;

/// A broken rule, with the place where it is broken.
#[derive(Debug, Drop)]
pub struct Breach {
    rule: StaticRule,
    place: Place,
}

impl Model for Breach {
    ghost use Rattle.lp_resolve.specs.StaticRules as static_rules;

    ghost Value = { static_rules.Breach };

    ghost view = { λ breach. record { rule = breach.rule; place = breach.place } };
}

impl Breach {
    /// The broken rule.
    pub fn rule(&self) -> StaticRule
        ensures { result ≡ self.now.rule }
    {
        self.rule
    }

    /// Where it is broken.
    pub fn place(&self) -> Place
        ensures { result ≡ self.now.place }
    {
        self.place
    }
}

// The number of a rule.
fn number_of(rule: StaticRule) -> usize
    ensures { result ≡ number_of rule }
{
    match rule {
        StaticRule::S1 => 1,
        StaticRule::S2 => 2,
        StaticRule::S3 => 3,
        StaticRule::S4 => 4,
        StaticRule::S5 => 5,
        StaticRule::S6 => 6,
        StaticRule::S7 => 7,
        StaticRule::S8 => 8,
    }
}

// The order of breaches: by file, then by byte, then by the number of the rule.
fn is_before(left: &Breach, right: &Breach) -> bool
    ensures { result ≡ is_before left.now right.now }
{
    if left.place.file != right.place.file {
        return left.place.file < right.place.file;
    }
    if left.place.at != right.place.at {
        return left.place.at < right.place.at;
    }
    number_of(left.rule) < number_of(right.rule)
}

/// The earlier of two breaches, where there are any.
pub fn earlier(first: Option<Breach>, second: Option<Breach>) -> Option<Breach>
    ensures { result ≡ earlier first second }
{
    let Some(first) = first else {
        return second;
    };
    let Some(second) = second else {
        return Some(first);
    };
    if is_before(&second, &first) {
        Some(second)
    } else {
        Some(first)
    }
}

/// The breach of this rule at this place, where it is broken there.
pub fn breach_if(broken: bool, rule: StaticRule, place: Place) -> Option<Breach>
    ensures { result ≡ first_of (breaches_at rule (if broken then place ∷ [] else [])) }
{
    if broken {
        Some(Breach { rule, place })
    } else {
        None
    }
}
