//! Whether plural rules hold of a number.
ghost use Rattle.std.specs.Prelude.{◌≡◌, ◌*◌, ◌^◌, map, unsigned_abs};
ghost use Rattle.std.specs.List.{list_any};
ghost use Rattle.std.specs.Option.{option_map};
ghost use Rattle.fluent_plural_rules.specs.RuleMeaning as spec;
ghost use Rattle.fluent_plural_rules.specs.Inside.RuleReading.{IsWhole, number_view, relation_view, group_view, rule_view};

use super::tree::{Operand, Range, Relation, Rule};
use fluent_intl::{Decimal, PluralCategory, PluralOperands};
use std::num::NonZeroU64;

fn whole_number(n: &Decimal) -> Option<u64>
    ensures { IsWhole (unsigned_abs n.now) result }
{
    if n.fraction() == 0 {
        Some(n.whole())
    } else {
        None
    }
}

/// The value of an operand, where it is whole.
pub(super) fn whole_value(operand: Operand, operands: &PluralOperands) -> Option<u64>
    ensures { IsWhole (spec.units operand operands.now) result }
{
    match operand {
        Operand::N => whole_number(&operands.n),
        Operand::I => Some(operands.i),
        Operand::F => Some(operands.f),
        Operand::T => Some(operands.t),
        Operand::V => Some(operands.v as u64),
        Operand::W => Some(operands.w as u64),
        Operand::C => Some(0),
        Operand::E => Some(0),
    }
}

/// The whole number, or what a division of it leaves.
pub(super) fn remainder(x: u64, divisor: Option<NonZeroU64>) -> u64
    ensures { spec.remainder (option_map number_view divisor) (x * 10 ^ 18) ≡ result * 10 ^ 18 }
{
    match divisor {
        Some(divisor) => x % divisor.get(),
        None => x,
    }
}

pub(super) fn is_within(x: u64, range: &Range) -> bool
    ensures { result ≡ spec.is_within x range.now }
{
    range.first <= x && x <= range.last
}

pub(super) fn is_in(x: u64, ranges: &[Range]) -> bool
    ensures { result ≡ list_any (spec.is_within x) ranges.now }
{
    ranges.iter().any(|range| is_within(x, range))
}

/// Whether the value of a relation's operand, or its remainder, is whole and in one of the ranges.
fn is_found(relation: &Relation, operands: &PluralOperands) -> bool
    ensures { result ≡ spec.is_found operands.now (relation_view relation.now) }
{
    match whole_value(relation.operand, operands) {
        Some(x) => is_in(remainder(x, relation.divisor), &relation.ranges),
        None => false,
    }
}

fn relation_holds(relation: &Relation, operands: &PluralOperands) -> bool
    ensures { result ≡ spec.relation_holds operands.now (relation_view relation.now) }
{
    let found = is_found(relation, operands);
    if relation.equal { found } else { !found }
}

fn group_holds(relations: &[Relation], operands: &PluralOperands) -> bool
    ensures { result ≡ spec.group_holds operands.now (map relation_view relations.now) }
{
    relations
        .iter()
        .all(|relation| relation_holds(relation, operands))
}

fn condition_holds(groups: &[Vec<Relation>], operands: &PluralOperands) -> bool
    ensures { result ≡ spec.condition_holds operands.now (map group_view groups.now) }
{
    groups.iter().any(|group| group_holds(group, operands))
}

fn rule_holds(rule: &Rule, operands: &PluralOperands) -> bool
    ensures { result ≡ spec.rule_holds operands.now (rule_view rule.now).condition }
{
    match &rule.condition {
        Some(groups) => condition_holds(groups, operands),
        None => true,
    }
}

/// The category of the first rule that holds.
pub(super) fn category_by(rules: &[Rule], operands: &PluralOperands) -> PluralCategory
    ensures { result ≡ spec.category_by (map rule_view rules.now) operands.now }
{
    for rule in rules {
        if rule_holds(rule, operands) {
            return rule.category;
        }
    }
    PluralCategory::OTHER
}
