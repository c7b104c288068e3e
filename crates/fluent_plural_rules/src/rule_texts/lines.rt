//! The rules of a text.
ghost use Rattle.std.specs.Prelude.{◌≡◌};
ghost use Rattle.fluent_plural_rules.specs.RuleGrammar as spec;
ghost use Rattle.fluent_plural_rules.specs.Inside.RuleReading.{all, rule_view, AddsLine, GivesRules};

use super::fault::RuleFault;
use super::lexical::{Class, after_first, run_len, split_run};
use super::line::line;
use super::stop::Stop;
use super::tree::Rule;
use fluent_intl::PluralRuleType;
use std::alloc::Global;

/// Adds the rule of a line, if the line has one.
fn add_line(alloc: Global, text: &str, found: &mut Vec<Rule>) -> Result<(), Stop>
    ensures { AddsLine (all rule_view found.old) (all rule_view found.new) result
        (spec.line text.now) }
{
    if let (Some(rule), _) = line(alloc, text)? {
        found.push(rule)?;
    }
    Ok(())
}

/// Reads a text of rules, one on each line and between semicolons.
pub(super) fn read_rules(
    alloc: Global,
    kind: PluralRuleType,
    text: &str,
) -> Result<Vec<Rule>, RuleFault>
    ensures { GivesRules kind result (spec.rules text.now) }
{
    let mut found = Vec::new(alloc);
    let mut rest = text;
    'lines: loop {
        let (prefix, after) = split_run(rest, Class::Line);
        match add_line(alloc, prefix, &mut found) {
            Ok(()) => {}
            Err(Stop::Absent) => {
                let at = text.len() - rest.len() + run_len(prefix, Class::Blank);
                return Err(RuleFault::Syntax(kind, at));
            }
            Err(Stop::Memory) => return Err(RuleFault::Memory),
        }
        if after.is_empty() {
            return Ok(found);
        }
        rest = after_first(after);
    }
}
