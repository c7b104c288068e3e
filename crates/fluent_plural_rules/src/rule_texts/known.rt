//! Rules of the Unicode CLDR, which are read already: whether they hold of a number.
ghost use Rattle.std.specs.Prelude.{◌≡◌, map};
ghost use Rattle.std.specs.List.{list_any};
ghost use Rattle.fluent_plural_rules.specs.RuleMeaning as spec;
ghost use Rattle.fluent_plural_rules.specs.Inside.Known as known;

use super::holds::{is_in, is_within, remainder, whole_value};
use super::tree::{KnownRelation, KnownRule, Range, Span};
use crate::rows::{GROUPS, RANGES, RELATIONS, RULES};
use fluent_intl::{PluralCategory, PluralOperands};
use std::num::NonZeroU64;

/// The part from a place up to another; nothing where it isn't there.
fn part<T>(all: &[T], from: usize, to: usize) -> &[T]
    ensures { result.now ≡ known.part all.now from to }
{
    match all.get(from..to) {
        Some(part) => part,
        None => &[],
    }
}

fn ranges(from: usize, to: usize) -> &'static [Range]
    ensures { result.now ≡ known.part known.ranges from to }
{
    part(&RANGES, from, to)
}

fn relations(span: Span) -> &'static [KnownRelation]
    ensures { result.now ≡ known.part known.relations span.0 span.1 }
{
    part(&RELATIONS, span.0, span.1)
}

fn groups(span: Span) -> &'static [Span]
    ensures { result.now ≡ known.part known.groups span.0 span.1 }
{
    part(&GROUPS, span.0, span.1)
}

fn rules(span: Span) -> &'static [KnownRule]
    ensures { result.now ≡ known.part known.rules span.0 span.1 }
{
    part(&RULES, span.0, span.1)
}

/// Whether a number is in one of these ranges.
#[inline(always)]
fn is_among(x: u64, from: usize, to: usize) -> bool
    ensures { result ≡ list_any (spec.is_within x) (known.part known.ranges from to) }
{
    from < to && is_in(x, ranges(from, to))
}

/// Whether the value of the relation's operand, or its remainder, is whole and in one of the ranges.
#[inline(always)]
fn is_found(relation: &KnownRelation, operands: &PluralOperands) -> bool
    ensures { result ≡ spec.is_found operands.now (known.relation_view relation.now) }
{
    let (operand, divisor, _, first, last, from, to) = *relation;
    match whole_value(operand, operands) {
        Some(x) => {
            let x = remainder(x, NonZeroU64::new(divisor));
            is_within(x, &Range { first, last }) || is_among(x, from, to)
        }
        None => false,
    }
}

fn relation_holds(relation: &KnownRelation, operands: &PluralOperands) -> bool
    ensures { result ≡ spec.relation_holds operands.now (known.relation_view relation.now) }
{
    let found = is_found(relation, operands);
    if relation.2 { found } else { !found }
}

fn group_holds(group: Span, operands: &PluralOperands) -> bool
    ensures { result ≡ spec.group_holds operands.now (known.group_view group) }
{
    relations(group)
        .iter()
        .all(|relation| relation_holds(relation, operands))
}

fn condition_holds(condition: Span, operands: &PluralOperands) -> bool
    ensures { result ≡ spec.condition_holds operands.now (known.condition_view condition) }
{
    groups(condition)
        .iter()
        .any(|group| group_holds(*group, operands))
}

fn rule_holds(rule: &KnownRule, operands: &PluralOperands) -> bool
    ensures { result ≡ spec.rule_holds operands.now (known.rule_view rule.now).condition }
{
    match rule.1 {
        Some(condition) => condition_holds(condition, operands),
        None => true,
    }
}

/// The category of the first rule that holds.
fn category_among(rules: &[KnownRule], operands: &PluralOperands) -> PluralCategory
    ensures { result ≡ spec.category_by (map known.rule_view rules.now) operands.now }
{
    for rule in rules {
        if rule_holds(rule, operands) {
            return rule.0;
        }
    }
    PluralCategory::OTHER
}

/// The category of the first of these rules that holds.
pub(super) fn known_category(span: Span, operands: &PluralOperands) -> PluralCategory
    ensures { result ≡ spec.category_by (known.rules_view span) operands.now }
{
    category_among(rules(span), operands)
}
