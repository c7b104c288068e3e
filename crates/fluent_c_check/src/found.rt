//! What is found in sources that are handed over.
ghost use Rattle.std.specs.Prelude.{◌≡◌, IfOk, map};
ghost use Rattle.fluent_answers.specs.ArgumentView.{argument_view};
ghost use Rattle.fluent_sources.specs.Reading.{AreRead, read_view};
ghost use Rattle.fluent_places.specs.Asked.{texts};
ghost use Rattle.fluent_c_check.specs.Checks.{names_of, reads_of};
ghost use Rattle.fluent_c_check.specs.Inside.Handed.{AreReadFrom, FindsIn, IsLanguage, texts_in};

use crate::handed::Handed;
use fluent_answers::Argument;
use fluent_check::{Found, Grouping, Settings, Source, Sources, findings};
use fluent_sources::laws::files_are_of_texts;
use std::alloc::{AllocError, Global};

/// Sources that are read, as they are handed over.
pub(crate) struct Inputs<'b> {
    pub sources: Sources<'b>,
    pub beside: Sources<'b>,
    pub references: Sources<'b>,
}

// Written out, so that it is one step where they go out of scope, and not one for each part.
impl<'b> Drop for Inputs<'b> {
    fn drop(self) {
        let Inputs {
            sources: _,
            beside: _,
            references: _,
        } = self;
    }
}

/// Reads sources, of which each is a record: its name and its text.
fn sources_of<'b>(alloc: Global, records: &[Argument<'b>]) -> Result<Sources<'b>, AllocError>
    ensures { IfOk result (AreRead (reads_of (map argument_view records.now))) }
{
    let mut sources = Sources::new(alloc);
    for record in records {
        sources.add(
            alloc,
            Source {
                name: record.name,
                text: record.value,
                had_mark: false,
            },
        )?;
    }
    Ok(sources)
}

/// Reads all sources that are handed over.
pub(crate) fn inputs_of<'b>(alloc: Global, handed: &Handed<'b>) -> Result<Inputs<'b>, AllocError>
    ensures { IfOk result (AreReadFrom handed.now) }
{
    Ok(Inputs {
        sources: sources_of(alloc, handed.sources.as_slice())?,
        beside: sources_of(alloc, handed.beside.as_slice())?,
        references: sources_of(alloc, handed.references.as_slice())?,
    })
}

impl<'b> Inputs<'b> {
    /// The texts of all, in the order in which they are numbered.
    pub(crate) fn texts(&self, alloc: Global) -> Result<Vec<Source<'b>>, AllocError>
        ensures { IfOk result (λ texts. map read_view texts.items ≡ texts_in self.now) }
    {
        let mut texts = Vec::new(alloc);
        texts.extend_from_slice(self.beside.texts.as_slice())?;
        texts.extend_from_slice(self.sources.texts.as_slice())?;
        texts.extend_from_slice(self.references.texts.as_slice())?;
        Ok(texts)
    }
}

/// The names of records.
fn names_in<'b>(alloc: Global, records: &[Argument<'b>]) -> Result<Vec<&'b str>, AllocError>
    ensures { IfOk result (λ names. texts names.items ≡ names_of (map argument_view records.now)) }
{
    let mut names = Vec::new(alloc);
    for record in records {
        names.push(record.name)?;
    }
    Ok(names)
}

/// The language of a tag, unless that is empty.
fn language_of(tag: &str) -> Option<&str>
    ensures { IsLanguage tag.entry.now result }
{
    if tag.is_empty() { None } else { Some(tag) }
}

/// What is found in sources that were read, which count as one.
pub(crate) fn found_in<'b>(
    alloc: Global,
    handed: &Handed<'b>,
    inputs: &Inputs<'b>,
) -> Result<Found<'b>, AllocError>
    requires { AreReadFrom handed.now inputs.now }
    ensures { IfOk result (FindsIn handed.now) }
{
    files_are_of_texts();
    let functions = names_in(alloc, handed.functions.as_slice())?;
    let settings = Settings {
        language: language_of(handed.language),
        grouping: Grouping::Together,
        functions: functions.as_slice(),
        has_all_categories: false,
    };
    findings(
        alloc,
        &settings,
        &inputs.beside,
        &inputs.sources,
        &inputs.references,
    )
}
