//! Why rule texts were not read.
ghost use Rattle.std.specs.Prelude.{◌≡◌, ◌↔◌, IsTrue};

use fluent_intl::PluralRuleType;
use std::alloc::{AllocError, AllocFailed};
use std::error::Error;
use std::fmt;

/// Why rule texts were not read.
#[derive(Clone, Copy, Debug, PartialEq, Eq)]
pub enum RuleFault {
    /// The text of these rules is outside the grammar: the first rule that can't be read begins at this byte of it, its leading blanks not counted.
    Syntax(PluralRuleType, usize),
    Memory,
}

impl fmt::Display for RuleFault {
    ghost use Rattle.std.specs.Prelude.{Some};
    ghost use Rattle.fluent_plural_rules.specs.RuleTexts.{fault_text};

    ghost output = { λ fault. Some (fault_text fault) };

    fn fmt<W: fmt::Write>(&self, f: &mut fmt::Formatter<W>) -> fmt::Result {
        match self {
            RuleFault::Syntax(PluralRuleType::CARDINAL, at) => {
                write!(f, "unreadable cardinal rule at byte {at}")
            }
            RuleFault::Syntax(PluralRuleType::ORDINAL, at) => {
                write!(f, "unreadable ordinal rule at byte {at}")
            }
            RuleFault::Memory => f.write_str("out of memory"),
        }
    }
}

impl Error for RuleFault {}

impl From<AllocError> for RuleFault {
    ghost use Rattle.fluent_plural_rules.specs.declared.rule_texts.fault.RuleFault.TheVariants.{Memory};

    ghost from_gives = { λ _ e. e ≡ Memory };

    fn from(_: AllocError) -> RuleFault {
        RuleFault::Memory
    }
}

impl<T: Drop> From<AllocFailed<T>> for RuleFault {
    ghost use Rattle.fluent_plural_rules.specs.declared.rule_texts.fault.RuleFault.TheVariants.{Memory};

    ghost from_gives = { λ _ e. e ≡ Memory };

    fn from(_: AllocFailed<T>) -> RuleFault {
        RuleFault::Memory
    }
}

/// Whether two faults are the same, which is what `==` of them says.
pub fn same_rule_faults(one: &RuleFault, other: &RuleFault) -> bool
    ensures { IsTrue result ↔ (one.now ≡ other.now) }
{
    one == other
}
