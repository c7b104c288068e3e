//! Dates, and how languages write them.
ghost use Rattle.std.specs.Prelude.{◌≡◌};
ghost use Rattle.example_mailbox.specs.Dates.{month_in};

use fluent_bundle::{FluentFormatter, FluentType, FluentValue};
use std::alloc::{AllocError, Global};

/// A day.
#[derive(Clone, Copy, Drop)]
pub struct Date {
    pub year: u16,
    pub month: u8,
    pub day: u8,
}

impl FluentType for Date {
    ghost use Rattle.std.specs.Prelude.{[], ◌∷◌};
    ghost use Rattle.fluent_semantics.specs.Number.{is_text};
    ghost use Rattle.example_mailbox.specs.Dates.{date_text};

    ghost content = { λ d. d.year ∷ d.month ∷ d.day ∷ [] };

    ghost shown = { date_text };

    ghost alike = { is_text };

    fn duplicate(&self, _alloc: Global) -> Result<Date, AllocError> {
        Ok(*self)
    }

    fn same(&self, other: &Date) -> bool {
        self.year == other.year && self.month == other.month && self.day == other.day
    }

    fn as_string(&self, alloc: Global) -> Result<String, AllocError> {
        format!(in alloc; "{}-{:02}-{:02}", self.year, self.month, self.day)
    }
}

/// How a language writes dates.
#[derive(Clone, Copy, Drop)]
pub enum Dates {
    English,
    Polish,
}

/// The months in English, from 1 on.
const ENGLISH: [&str; 13] = [
    "",
    "January",
    "February",
    "March",
    "April",
    "May",
    "June",
    "July",
    "August",
    "September",
    "October",
    "November",
    "December",
];

/// The months in Polish, as dates have them.
const POLISH: [&str; 13] = [
    "",
    "stycznia",
    "lutego",
    "marca",
    "kwietnia",
    "maja",
    "czerwca",
    "lipca",
    "sierpnia",
    "września",
    "października",
    "listopada",
    "grudnia",
];

impl Dates {
    /// How the language of a tag writes them.
    pub fn of(tag: &str) -> Dates {
        if tag == "pl" {
            Dates::Polish
        } else {
            Dates::English
        }
    }

    /// The name of a month.
    fn month(self, month: u8) -> &'static str
        ensures { result.now ≡ month_in self month }
    {
        let names = match self {
            Dates::English => &ENGLISH,
            Dates::Polish => &POLISH,
        };
        match names.get(usize::from(month)) {
            Some(name) => *name,
            None => "",
        }
    }
}

impl<M> FluentFormatter<Date, M> for Dates {
    ghost use Rattle.example_mailbox.specs.Dates.{date_in};

    ghost formatted = { λ f v _. date_in f v };

    fn format<'a>(
        &self,
        alloc: Global,
        value: &FluentValue<'a, Date>,
        _intls: &M,
    ) -> Result<Option<String>, AllocError> {
        let FluentValue::Custom(Date { year, month, day }) = value else {
            return Ok(None);
        };
        let name = self.month(*month);
        let text = match self {
            Dates::English => format!(in alloc; "{name} {day}, {year}")?,
            Dates::Polish => format!(in alloc; "{day} {name} {year}")?,
        };
        Ok(Some(text))
    }
}
