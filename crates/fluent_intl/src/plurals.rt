//! Plural categories, and who chooses them.
ghost use Rattle.std.specs.Prelude.{◌≡◌, ◌<◌};
ghost use Rattle.fluent_intl.specs.Plurals.{ends_in, leaves};

use crate::operands::PluralOperands;

/// Which plural rules are asked.
#[derive(Clone, Copy, Debug, PartialEq, Eq)]
pub enum PluralRuleType {
    /// For how many there are.
    CARDINAL,
    /// For which one it is.
    ORDINAL,
}

/// A plural category.
#[derive(Clone, Copy, Debug, PartialEq, Eq)]
pub enum PluralCategory {
    ZERO,
    ONE,
    TWO,
    FEW,
    MANY,
    OTHER,
}

/// A source of plural categories, as the rules of a language.
pub trait MemoizerKind: Drop {
    ghost use Rattle.fluent_intl.specs.declared.operands.PluralOperands.{PluralOperands};
    ghost use Rattle.fluent_intl.specs.declared.plurals.PluralRuleType.{PluralRuleType};
    ghost use Rattle.fluent_intl.specs.declared.plurals.PluralCategory.{PluralCategory};

    // The category of these operands under the rules of this kind.
    ghost category: { Self → PluralRuleType → PluralOperands → PluralCategory };

    /// The plural category of a number with these operands.
    fn select(&self, kind: PluralRuleType, operands: &PluralOperands) -> PluralCategory
        ensures { result ≡ category self.now kind operands.now };
}

/// The plural rules of English.
#[derive(Clone, Copy, Drop)]
pub struct EnglishPlurals;

impl MemoizerKind for EnglishPlurals {
    ghost use Rattle.fluent_intl.specs.Plurals.{english};

    ghost category = { λ _. english };

    fn select(&self, kind: PluralRuleType, operands: &PluralOperands) -> PluralCategory {
        match kind {
            PluralRuleType::CARDINAL => {
                if operands.i == 1 && operands.v == 0 {
                    PluralCategory::ONE
                } else {
                    PluralCategory::OTHER
                }
            }
            PluralRuleType::ORDINAL => {
                if ends_in(operands, 1) {
                    PluralCategory::ONE
                } else if ends_in(operands, 2) {
                    PluralCategory::TWO
                } else if ends_in(operands, 3) {
                    PluralCategory::FEW
                } else {
                    PluralCategory::OTHER
                }
            }
        }
    }
}

/// Whether n is whole and ends in this digit, and not in a 1 and this digit.
fn ends_in(operands: &PluralOperands, digit: u64) -> bool
    requires { digit < 10 }
    ensures { result ≡ ends_in operands.now digit }
{
    leaves(operands, 10, digit) && !leaves(operands, 100, 10 + digit)
}

/// Whether n is whole and leaves this remainder.
fn leaves(operands: &PluralOperands, divisor: u64, remainder: u64) -> bool
    requires { remainder < divisor }
    ensures { result ≡ leaves operands.now divisor remainder }
{
    operands.n.fraction() == 0 && operands.n.whole() % divisor == remainder
}
