//! What is wrong with the selects of a pattern.

ghost use Rattle.std.specs.Prelude.{◌≡◌, ◌+◌, [], IfOk, OnOk, codes, filter, map};
ghost use Rattle.std.specs.List.{list_any};
ghost use Rattle.fluent_ast.specs.References.{inlines_view, nameds_view, variants_view};
ghost use Rattle.fluent_ast.specs.View.{arguments_view, expression_view, inline_view, key_view, pattern_view};
ghost use Rattle.fluent_patterns.specs.CategoryView.{categories_view, category_view};
ghost use Rattle.fluent_patterns.specs.Categories.{comes};
ghost use Rattle.fluent_patterns.specs.Found.{AddsFlaws, flaw_view, flaws_in};
ghost use Rattle.fluent_patterns.specs.Selects as spec;
ghost use Rattle.fluent_patterns.specs.SelectView.{passed_view, senses_view};

use crate::categories::{Categories, Category};
use crate::finding::{Flaw, Part, Problem};
use crate::sense::{Sense, add_sense, is_among, sense_of, senses_of, whole_number};
use fluent_ast::ast::{
    CallArguments, Expression, InlineExpression, NamedArgument, Pattern, PatternElement, Variant,
    VariantKey,
};
use indexmap::IndexSet;
use std::alloc::{AllocError, Global};

/// How many selects and variants were passed, and what is wrong with them.
#[derive(Drop)]
struct Passed<'s> {
    selects: usize,
    variants: usize,
    flaws: Vec<Flaw<'s>>,
}

/// What is wrong with the selects of a pattern: where they are on numbers, categories of the language that they
/// lack, and keys that never come; and, on whatever they are, keys that stand there before.
///
/// # Errors
///
/// An allocation failed.
pub fn select_flaws<'s>(
    alloc: Global,
    categories: &Categories,
    pattern: &Pattern<'s>,
) -> Result<Vec<Flaw<'s>>, AllocError>
    ensures { IfOk result (λ flaws. flaws_in flaws
        ≡ spec.select_flaws (categories_view categories.now) (pattern_view pattern.now)) }
{
    let mut passed = Passed {
        selects: 0,
        variants: 0,
        flaws: Vec::new(alloc),
    };
    pass_pattern(alloc, categories, pattern, &mut passed)?;
    Ok(passed.flaws)
}

#[cycle(selects)]
fn pass_pattern<'s>(
    alloc: Global,
    categories: &Categories,
    pattern: &Pattern<'s>,
    passed: &mut Passed<'s>,
) -> Result<(), AllocError>
    ensures { OnOk result
        (passed_view passed.new ≡ spec.after_pattern (categories_view categories.now)
        (pattern_view pattern.now) (passed_view passed.old)) }
{
    for element in &pattern.elements {
        if let PatternElement::Placeable { expression } = element {
            pass_expression(alloc, categories, expression, passed)?;
        }
    }
    Ok(())
}

#[cycle(selects)]
fn pass_expression<'s>(
    alloc: Global,
    categories: &Categories,
    expression: &Expression<'s>,
    passed: &mut Passed<'s>,
) -> Result<(), AllocError>
    ensures { OnOk result
        (passed_view passed.new ≡ spec.after_expression (categories_view categories.now)
        (expression_view expression.now) (passed_view passed.old)) }
{
    match expression {
        Expression::Inline(inline) => pass_inline(alloc, categories, inline, passed),
        Expression::Select { selector, variants } => {
            pass_inline(alloc, categories, selector, passed)?;
            let asked = asked_by(categories, selector, variants);
            pass_select(alloc, categories.all, asked, variants, passed)?;
            pass_variants(alloc, categories, asked, variants, passed)
        }
    }
}

#[cycle(selects)]
fn pass_variants<'s>(
    alloc: Global,
    categories: &Categories,
    asked: &[Category],
    variants: &[Variant<'s>],
    passed: &mut Passed<'s>,
) -> Result<(), AllocError>
    ensures { OnOk result
        (passed_view passed.new ≡ spec.after_variants (categories_view categories.now)
        (map category_view asked.now) [] (variants_view variants.now)
        (passed_view passed.old)) }
{
    let mut before: IndexSet<Sense<'s>> = IndexSet::new(alloc);
    for variant in variants {
        pass_key(asked, &variant.key, variant.default, &mut before, passed)?;
        pass_pattern(alloc, categories, &variant.value, passed)?;
    }
    Ok(())
}

#[cycle(selects)]
fn pass_inline<'s>(
    alloc: Global,
    categories: &Categories,
    inline: &InlineExpression<'s>,
    passed: &mut Passed<'s>,
) -> Result<(), AllocError>
    ensures { OnOk result
        (passed_view passed.new ≡ spec.after_inline (categories_view categories.now)
        (inline_view inline.now) (passed_view passed.old)) }
{
    match inline {
        InlineExpression::FunctionReference { arguments, .. } => {
            pass_arguments(alloc, categories, arguments, passed)
        }
        InlineExpression::TermReference { arguments, .. } => match arguments {
            Some(arguments) => pass_arguments(alloc, categories, arguments, passed),
            None => Ok(()),
        },
        InlineExpression::Placeable { expression } => {
            pass_expression(alloc, categories, expression, passed)
        }
        InlineExpression::StringLiteral { .. }
        | InlineExpression::NumberLiteral { .. }
        | InlineExpression::MessageReference { .. }
        | InlineExpression::VariableReference { .. } => Ok(()),
    }
}

#[cycle(selects)]
fn pass_arguments<'s>(
    alloc: Global,
    categories: &Categories,
    arguments: &CallArguments<'s>,
    passed: &mut Passed<'s>,
) -> Result<(), AllocError>
    ensures { OnOk result
        (passed_view passed.new ≡ spec.after_arguments (categories_view categories.now)
        (arguments_view arguments.now) (passed_view passed.old)) }
{
    pass_positional(alloc, categories, &arguments.positional, passed)?;
    pass_named(alloc, categories, &arguments.named, passed)
}

#[cycle(selects)]
fn pass_positional<'s>(
    alloc: Global,
    categories: &Categories,
    positional: &[InlineExpression<'s>],
    passed: &mut Passed<'s>,
) -> Result<(), AllocError>
    ensures { OnOk result
        (passed_view passed.new ≡ spec.after_positional (categories_view categories.now)
        (inlines_view positional.now) (passed_view passed.old)) }
{
    for argument in positional {
        pass_inline(alloc, categories, argument, passed)?;
    }
    Ok(())
}

#[cycle(selects)]
fn pass_named<'s>(
    alloc: Global,
    categories: &Categories,
    named: &[NamedArgument<'s>],
    passed: &mut Passed<'s>,
) -> Result<(), AllocError>
    ensures { OnOk result
        (passed_view passed.new ≡ spec.after_named (categories_view categories.now)
        (nameds_view named.now) (passed_view passed.old)) }
{
    for argument in named {
        pass_inline(alloc, categories, &argument.value, passed)?;
    }
    Ok(())
}

/// Passes a select, by the categories that are asked for.
fn pass_select<'s>(
    alloc: Global,
    all: bool,
    asked: &[Category],
    variants: &[Variant<'s>],
    passed: &mut Passed<'s>,
) -> Result<(), AllocError>
    ensures { OnOk result
        (passed_view passed.new
        ≡ spec.after_select
        (spec.lacked all (map category_view asked.now) (variants_view variants.now))
        (passed_view passed.old)) }
{
    add_lacked(
        alloc,
        all,
        asked,
        variants,
        passed.selects,
        &mut passed.flaws,
    )?;
    passed.selects = more_by_one(passed.selects)?;
    Ok(())
}

/// Adds the categories that the select with this number lacks.
fn add_lacked<'s>(
    alloc: Global,
    all: bool,
    asked: &[Category],
    variants: &[Variant<'s>],
    number: usize,
    flaws: &mut Vec<Flaw<'s>>,
) -> Result<(), AllocError>
    ensures { OnOk result
        (AddsFlaws
        (spec.select_flaws_at number
        (spec.lacked all (map category_view asked.now) (variants_view variants.now)))
        flaws.old flaws.new) }
{
    let senses = senses_of(alloc, variants)?;
    add_those(
        all,
        &senses,
        has_category_default(variants),
        asked,
        number,
        flaws,
    )
}

/// Adds those categories that a select with these keys lacks.
fn add_those<'s>(
    all: bool,
    senses: &IndexSet<Sense<'s>>,
    otherwise: bool,
    asked: &[Category],
    number: usize,
    flaws: &mut Vec<Flaw<'s>>,
) -> Result<(), AllocError>
    ensures { OnOk result
        (AddsFlaws
        (spec.select_flaws_at number
        (filter (spec.is_lacked all (senses_view senses.now) otherwise)
        (map category_view asked.now)))
        flaws.old flaws.new) }
{
    for category in asked {
        let flaw = Flaw {
            part: Part::Select(number),
            problem: Problem::NoCategory { key: category.key },
        };
        add_if(is_lacked(all, senses, otherwise, category), &flaw, flaws)?;
    }
    Ok(())
}

/// Passes a variant, by its key and those before it.
fn pass_key<'s>(
    asked: &[Category],
    key: &VariantKey<'s>,
    is_default: bool,
    before: &mut IndexSet<Sense<'s>>,
    passed: &mut Passed<'s>,
) -> Result<(), AllocError>
    ensures before { OnOk result
        (senses_view before.new
        ≡ spec.with_sense (senses_view before.old) (spec.sense_of (key_view key.now))) }
    ensures passed { OnOk result
        (passed_view passed.new
        ≡ spec.after_key (map category_view asked.now) (senses_view before.old)
        (key_view key.now) is_default (passed_view passed.old)) }
{
    let is_new = add_sense(before, sense_of(key))?;
    let text = key_text(key);
    let never = Flaw {
        part: Part::Variant(passed.variants),
        problem: Problem::NeverComes { key: text },
    };
    add_if(
        is_strange(asked, key) && !is_default,
        &never,
        &mut passed.flaws,
    )?;
    let repeated = Flaw {
        part: Part::Variant(passed.variants),
        problem: Problem::RepeatedVariant { key: text },
    };
    add_if(!is_new, &repeated, &mut passed.flaws)?;
    passed.variants = more_by_one(passed.variants)?;
    Ok(())
}

/// Adds a flaw, where this holds.
fn add_if<'s>(holds: bool, flaw: &Flaw<'s>, flaws: &mut Vec<Flaw<'s>>) -> Result<(), AllocError>
    ensures { OnOk result
        (AddsFlaws (spec.flaw_if holds (flaw_view flaw.now)) flaws.old flaws.new) }
{
    if holds {
        flaws.push(*flaw)?;
    }
    Ok(())
}

/// One more. So many that there is no number for them never fit in memory.
fn more_by_one(count: usize) -> Result<usize, AllocError>
    ensures { IfOk result (λ more. more ≡ count + 1) }
{
    count.checked_add(1).ok_or(AllocError)
}

/// The source of a key.
fn key_text<'s>(key: &VariantKey<'s>) -> &'s str
    ensures { result.now ≡ spec.key_text (key_view key.now) }
{
    match key {
        VariantKey::Identifier { name } => name,
        VariantKey::NumberLiteral { value } => value,
    }
}

/// The categories that a select is by, none where it isn't on a number.
fn asked_by<'c>(
    categories: &'c Categories,
    selector: &InlineExpression<'_>,
    variants: &[Variant<'_>],
) -> &'c [Category]
    ensures { map category_view result.now
        ≡ spec.asked_by (categories_view categories.now) (inline_view selector.now)
        (spec.keys_of (variants_view variants.now)) }
{
    if !is_on_number(selector, variants) {
        return &[];
    }
    if is_ordinal(selector) {
        &categories.ordinal
    } else {
        &categories.cardinal
    }
}

/// Whether a select is on a number: it has plural keys, and its selector is a call of `NUMBER`, or a variable and all
/// names are categories.
fn is_on_number(selector: &InlineExpression<'_>, variants: &[Variant<'_>]) -> bool
    ensures { result
        ≡ spec.is_on_number (inline_view selector.now)
        (spec.keys_of (variants_view variants.now)) }
{
    match selector {
        InlineExpression::FunctionReference { id, .. } => {
            id.name == "NUMBER" && has_plural(variants)
        }
        InlineExpression::VariableReference { .. } => {
            has_plural(variants) && !has_other_name(variants)
        }
        _ => false,
    }
}

/// Whether it asks which one it is.
fn is_ordinal(selector: &InlineExpression<'_>) -> bool
    ensures { result ≡ spec.is_ordinal (inline_view selector.now) }
{
    match selector {
        InlineExpression::FunctionReference { arguments, .. } => {
            asks_for_ordinal(&arguments.named)
        }
        _ => false,
    }
}

fn asks_for_ordinal(named: &[NamedArgument<'_>]) -> bool
    ensures { result
        ≡ spec.has_literal (codes "type") (codes "ordinal") (nameds_view named.now) }
{
    named.iter().any(|argument| {
        argument.name.name == "type" && is_literal(&argument.value, "ordinal")
    })
}

fn is_literal(inline: &InlineExpression<'_>, wanted: &str) -> bool
    ensures { result ≡ spec.is_literal (inline_view inline.now) wanted.now }
{
    match inline {
        InlineExpression::StringLiteral { value } => *value == wanted,
        _ => false,
    }
}

fn has_plural(variants: &[Variant<'_>]) -> bool
    ensures { result ≡ list_any spec.is_plural (spec.keys_of (variants_view variants.now)) }
{
    variants.iter().any(|variant| is_plural(&variant.key))
}

fn has_other_name(variants: &[Variant<'_>]) -> bool
    ensures { result ≡ list_any spec.is_other_name (spec.keys_of (variants_view variants.now)) }
{
    variants.iter().any(|variant| is_other_name(&variant.key))
}

/// Whether a default has a category for its key.
fn has_category_default(variants: &[Variant<'_>]) -> bool
    ensures { result
        ≡ list_any spec.is_category (spec.default_keys (variants_view variants.now)) }
{
    variants
        .iter()
        .any(|variant| variant.default && is_category(&variant.key))
}

fn is_category_word(word: &str) -> bool
    ensures { result ≡ spec.is_category_word word.now }
{
    word == "zero"
        || word == "one"
        || word == "two"
        || word == "few"
        || word == "many"
        || word == "other"
}

fn is_category(key: &VariantKey<'_>) -> bool
    ensures { result ≡ spec.is_category (key_view key.now) }
{
    match key {
        VariantKey::Identifier { name } => is_category_word(name),
        VariantKey::NumberLiteral { .. } => false,
    }
}

/// Whether a key is a category other than `other`.
fn is_plural(key: &VariantKey<'_>) -> bool
    ensures { result ≡ spec.is_plural (key_view key.now) }
{
    match key {
        VariantKey::Identifier { name } => is_category_word(name) && *name != "other",
        VariantKey::NumberLiteral { .. } => false,
    }
}

/// Whether a key is a name that is no category.
fn is_other_name(key: &VariantKey<'_>) -> bool
    ensures { result ≡ spec.is_other_name (key_view key.now) }
{
    match key {
        VariantKey::Identifier { name } => !is_category_word(name),
        VariantKey::NumberLiteral { .. } => false,
    }
}

/// Whether a key is a category that no number has.
fn is_strange(asked: &[Category], key: &VariantKey<'_>) -> bool
    ensures { result ≡ spec.is_strange (map category_view asked.now) (key_view key.now) }
{
    match key {
        VariantKey::Identifier { name } => no_number_has(asked, name),
        VariantKey::NumberLiteral { .. } => false,
    }
}

/// Whether a word is one of these categories, and no number has it.
fn no_number_has(asked: &[Category], word: &str) -> bool
    ensures { result ≡ spec.no_number_has (map category_view asked.now) word.now }
{
    asked
        .iter()
        .any(|category| word == category.key && !category.exists)
}

/// Whether a category comes and nothing serves for it.
fn is_lacked<'s>(
    all: bool,
    senses: &IndexSet<Sense<'s>>,
    otherwise: bool,
    category: &Category,
) -> bool
    ensures { result
        ≡ spec.is_lacked all (senses_view senses.now) otherwise (category_view category.now) }
{
    is_wanted(all, category)
        && !is_among(&Sense::Text(category.key), senses)
        && !is_counted_out(category, senses)
        && !(!all && otherwise && category.key == "other")
}

/// Whether a select needs a category, if nothing else serves.
fn is_wanted(all: bool, category: &Category) -> bool
    ensures { result ≡ spec.is_wanted all (category_view category.now) }
{
    if all {
        category.exists
    } else {
        comes(category)
    }
}

/// Whether a whole number from 0 to 999 has a category.
fn comes(category: &Category) -> bool
    ensures { result ≡ comes (category_view category.now) }
{
    !category.numbers.is_empty()
}

/// Whether whole numbers have a category, and all of them have variants of their own.
fn is_counted_out<'s>(category: &Category, senses: &IndexSet<Sense<'s>>) -> bool
    ensures { result
        ≡ spec.is_counted_out (senses_view senses.now) (category_view category.now) }
{
    comes(category) && have_variants(&category.numbers, senses)
}

/// Whether each of these whole numbers has a variant of its own.
fn have_variants<'s>(numbers: &[u64], senses: &IndexSet<Sense<'s>>) -> bool
    ensures { result ≡ spec.have_variants (senses_view senses.now) numbers.now }
{
    numbers.iter().all(|n| is_among(&whole_number(*n), senses))
}
