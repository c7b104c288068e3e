//! Worked rows as theorems of the definitions, and values whose contract gives their row.
ghost use Rattle.std.specs.Prelude.{◌≡◌, ◌∷◌, ◌++◌, ◌+◌, ◌-◌, ◌*◌, ◌/◌, ◌^◌, [], None, Some, codes, neg_ℤ, pos};
ghost use Rattle.fluent_intl.specs.Decimal.{Reads, decimal_text};
ghost use Rattle.fluent_intl.specs.LanguageTags.{shortened};
ghost use Rattle.fluent_intl.specs.Number.{number_with};
ghost use Rattle.fluent_semantics.specs.Value.{number_value, text_value};
ghost use Rattle.fluent_values.specs.View.{value_view};
ghost use Rattle.test_contracts.specs.Lines.{after, line, line_rules, rules_in};

use fluent_values::types::{FluentValue, NoCustom};

/// Decimals and their texts.
pub fn decimals_hold()
    ensures five { decimal_text (pos (5 * 10 ^ 18)) (Some 0) ≡ codes "5." }
    ensures half { decimal_text (pos (10 ^ 18 / 2)) (Some 2) ≡ codes "0.50" }
    ensures quarter { decimal_text (pos (10 ^ 18 + 10 ^ 18 / 4)) (Some 1) ≡ codes "1.25" }
    ensures quarter_alone { decimal_text (pos (10 ^ 18 + 10 ^ 18 / 4)) None ≡ codes "1.25" }
    ensures capped { decimal_text (pos (10 ^ 18 + 10 ^ 18 / 4)) (Some 400)
        ≡ codes "1.250000000000000000" }
    ensures below { decimal_text (neg_ℤ (pos (3 * 10 ^ 18 / 2))) None ≡ codes "-1.5" }
    ensures read_five { Reads (codes "5") (pos (5 * 10 ^ 18)) None }
    ensures read_plus { Reads (codes "+5.") (pos (5 * 10 ^ 18)) (Some 0) }
    ensures read_half { Reads (codes ".50") (pos (10 ^ 18 / 2)) (Some 2) }
    ensures read_zero { Reads (codes "-0") (pos 0) None }
    ensures read_most { Reads (codes "18446744073709551615") (pos ((2 ^ 64 - 1) * 10 ^ 18)) None }
{}

/// Languages and their rules, in tables with the line of Portuguese.
pub fn languages_hold()
    ensures tags { shortened (codes "pt_PT-x") ≡ codes "pt_PT-x" ∷ codes "pt_PT" ∷ codes "pt" ∷ [] }
    ensures whole { rules_in (line "pt") "PT" ≡ Some line_rules }
    ensures fallback { rules_in (after (codes "# x") (line "pt")) "pt-BR" ≡ rules_in (line "pt") "pt" }
    ensures comment { rules_in (line "#pt") "#pt" ≡ None }
    ensures one_tab { rules_in (codes "pt" ++ 9 ∷ codes "a") "pt" ≡ None }
    ensures first_line { rules_in (after (codes "pt" ++ 9 ∷ codes "a") (line "pt")) "pt" ≡ None }
    ensures other { rules_in (line "pt") "p" ≡ None }
{}

pub fn places_are_kept<'s>() -> FluentValue<'s, NoCustom>
    ensures { value_view (λ _. []) result ≡ number_value
        (number_with (pos 3141569000000000000) (Some 6)) }
{
    FluentValue::try_number("3.141569")
}

pub fn a_text_stays_one<'s>() -> FluentValue<'s, NoCustom>
    ensures { value_view (λ _. []) result ≡ text_value (codes "A string") }
{
    FluentValue::try_number("A string")
}

pub fn zeros_may_lead<'s>() -> FluentValue<'s, NoCustom>
    ensures { value_view (λ _. []) result ≡ number_value (number_with (pos (7 * 10 ^ 18)) None) }
{
    FluentValue::try_number("007")
}

pub fn the_whole_part_may_be_missing<'s>() -> FluentValue<'s, NoCustom>
    ensures { value_view (λ _. []) result ≡ number_value
        (number_with (pos (5 * 10 ^ 17)) (Some 1)) }
{
    FluentValue::try_number("+.5")
}
