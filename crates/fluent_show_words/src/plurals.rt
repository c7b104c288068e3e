//! Who chooses plural categories in a run.

ghost use Rattle.std.specs.Prelude.{◌≡◌, IfOk, IfErr};
ghost use Rattle.fluent_show_words.specs.PluralsView.{plurals_view, read_view, AreAsked, TellsBadRule};

use crate::options::Options;
use fluent_intl::{EnglishPlurals, MemoizerKind, PluralCategory, PluralOperands, PluralRuleType};
use fluent_plural_rules::{RuleFault, RuleTexts};
use std::alloc::Global;

/// English, or rules that were read.
#[derive(Clone, Copy, Drop)]
pub enum Plurals<'p> {
    English,
    Rules(&'p RuleTexts),
}

impl<'p> Plurals<'p> {
    /// The rules that were read, or English.
    pub fn of(read: &'p Option<RuleTexts>) -> Plurals<'p>
        ensures { plurals_view result ≡ read_view read.now }
    {
        match read {
            Some(texts) => Plurals::Rules(texts),
            None => Plurals::English,
        }
    }
}

impl<'p> MemoizerKind for Plurals<'p> {
    ghost use Rattle.fluent_show_words.specs.PluralsView.{plurals_view};

    ghost category = { plurals_view };

    fn select(&self, kind: PluralRuleType, operands: &PluralOperands) -> PluralCategory {
        match self {
            Plurals::English => EnglishPlurals.select(kind, operands),
            Plurals::Rules(texts) => texts.select(kind, operands),
        }
    }
}

/// Reads the plural rules that the options give as texts, if there are any. One text alone leaves the other empty.
///
/// # Errors
///
/// `Syntax` where a text can't be read, `Memory` where an allocation failed.
pub fn read_rules(alloc: Global, options: Options<'_>) -> Result<Option<RuleTexts>, RuleFault>
    ensures ok { IfOk result (AreAsked options.entry) }
    ensures syntax { IfErr result (TellsBadRule options.entry) }
{
    match (options.cardinal, options.ordinal) {
        (None, None) => Ok(None),
        (cardinal, ordinal) => {
            let texts = RuleTexts::parse(alloc, cardinal.unwrap_or(""), ordinal.unwrap_or(""))?;
            Ok(Some(texts))
        }
    }
}
