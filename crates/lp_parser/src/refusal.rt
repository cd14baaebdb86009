//! What a refused lexeme stands in.
ghost use Rattle.std.specs.Prelude.{◌≡◌};
ghost use Rattle.lp_parser.specs.Refusal.{rule_of_item, rule_in_block, rule_in_rule, rule_in_item, rule_after_mark, rule_after_other, rule_after};

use crate::error::GrammarRule;
use crate::lexeme::{Lexeme, Mark};

/// The rule behind the first lexeme of an item, where that is this mark.
fn rule_of_item(mark: Mark) -> GrammarRule
    ensures { result ≡ rule_of_item mark }
{
    match mark {
        Mark::KindWord => GrammarRule::Kind,
        Mark::TypeWord => GrammarRule::TypeItem,
        Mark::PredWord => GrammarRule::Pred,
        Mark::ConstraintWord => GrammarRule::Constraint,
        _ => GrammarRule::Clause,
    }
}

/// The rule behind this mark in a block, outside its rules.
fn rule_in_block(mark: Mark) -> GrammarRule
    ensures { result ≡ rule_in_block mark }
{
    match mark {
        Mark::RuleWord => GrammarRule::Rule,
        Mark::CloseCurly => GrammarRule::Item,
        _ => GrammarRule::Constraint,
    }
}

/// The rule behind this mark in a rule.
fn rule_in_rule(mark: Mark) -> GrammarRule
    ensures { result ≡ rule_in_rule mark }
{
    match mark {
        Mark::Dot => GrammarRule::Constraint,
        _ => GrammarRule::Rule,
    }
}

/// The rule behind this mark in any other item.
fn rule_in_item(rule: GrammarRule, mark: Mark) -> GrammarRule
    ensures { result ≡ rule_in_item rule mark }
{
    match mark {
        Mark::Dot => GrammarRule::Item,
        _ => rule,
    }
}

/// The rule behind a mark.
fn rule_after_mark(rule: GrammarRule, mark: Mark) -> GrammarRule
    ensures { result ≡ rule_after_mark rule mark }
{
    match rule {
        GrammarRule::Item => rule_of_item(mark),
        GrammarRule::Constraint => rule_in_block(mark),
        GrammarRule::Rule => rule_in_rule(mark),
        GrammarRule::Query => GrammarRule::Query,
        GrammarRule::Kind => rule_in_item(GrammarRule::Kind, mark),
        GrammarRule::TypeItem => rule_in_item(GrammarRule::TypeItem, mark),
        GrammarRule::Pred => rule_in_item(GrammarRule::Pred, mark),
        GrammarRule::Clause => rule_in_item(GrammarRule::Clause, mark),
    }
}

/// The rule behind another lexeme.
fn rule_after_other(rule: GrammarRule) -> GrammarRule
    ensures { result ≡ rule_after_other rule }
{
    match rule {
        GrammarRule::Item => GrammarRule::Clause,
        GrammarRule::Kind => GrammarRule::Kind,
        GrammarRule::TypeItem => GrammarRule::TypeItem,
        GrammarRule::Pred => GrammarRule::Pred,
        GrammarRule::Constraint => GrammarRule::Constraint,
        GrammarRule::Rule => GrammarRule::Rule,
        GrammarRule::Clause => GrammarRule::Clause,
        GrammarRule::Query => GrammarRule::Query,
    }
}

/// What the lexeme behind a lexeme stands in.
pub fn rule_after(rule: GrammarRule, lexeme: &Lexeme) -> GrammarRule
    ensures { result ≡ rule_after rule lexeme.now }
{
    match lexeme {
        Lexeme::Mark(mark, _) => rule_after_mark(rule, *mark),
        _ => rule_after_other(rule),
    }
}
