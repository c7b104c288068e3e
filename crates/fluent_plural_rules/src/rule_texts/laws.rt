//! Laws of rule texts.
ghost use Rattle.fluent_plural_rules.specs.EnglishRules.{AgreesWith, english_cardinal, english_ordinal};
ghost use Rattle.fluent_intl.specs.Plurals.{english};
ghost use Rattle.fluent_plural_rules.specs.RuleRelations.{SelectsTheFirst};

/// The rule texts of English are in the grammar, and their rules select what [`EnglishPlurals`](crate::EnglishPlurals) does.
pub fn english_agrees_with_its_rules()
    ensures { AgreesWith english_cardinal english_ordinal english }
{}

/// The category of rules is that of the first one that holds, by what the rules say of the operands, and OTHER where none does.
pub fn rules_select_the_first_that_holds()
    ensures { SelectsTheFirst }
{}
