//! The texts of a mail client in the languages that somebody reads: `example_mailbox [--pseudo] LANGUAGE..` shows some
//! of them, by the messages in `en.ftl` and `pl.ftl`.
#![tactic(auto)]

mod date;
mod functions;
mod letters;
mod pseudo;
mod texts;

use anyhow::Result;
use fluent_catalog::read_source;
use fluent_langneg::negotiate;
use std::{env, fs};
use texts::show_from;

/// The languages that there are.
const TAGS: [&str; 2] = ["en", "pl"];

/// What the command line says: whether texts have accents, and the languages that somebody reads.
fn read_words(rt: &HostRuntime) -> Result<(bool, Vec<String>)> {
    let mut is_pseudo = false;
    let mut requested = Vec::new(rt.alloc());
    let mut words = env::args(rt)?;
    words.next();
    for word in words {
        if word.as_str() == "--pseudo" {
            is_pseudo = true;
        } else {
            requested.push(word)?;
        }
    }
    Ok((is_pseudo, requested))
}

/// The sources of the languages that serve somebody, each with its tag.
fn sources_for(rt: &HostRuntime, requested: &[String]) -> Result<Vec<(&'static str, String)>> {
    let mut sources = Vec::new(rt.alloc());
    for place in negotiate(rt.alloc(), requested, &TAGS, "en")? {
        if let Some(tag) = TAGS.get(place) {
            let path = format!(in rt.alloc(); "{tag}.ftl")?;
            sources.push((*tag, fs::read_to_string(rt, path.as_str())?))?;
        }
    }
    Ok(sources)
}

/// Shows the texts of these sources.
fn run(rt: &HostRuntime, sources: &[(&'static str, String)], is_pseudo: bool) -> Result<()> {
    let mut resources = Vec::new(rt.alloc());
    let mut reports = Vec::new(rt.alloc());
    for (tag, source) in sources {
        let resource = read_source(rt.alloc(), *tag, source.as_str(), &mut reports)?;
        resources.push((*tag, resource))?;
    }
    show_from(rt, resources.as_slice(), reports, is_pseudo)
}

fn main(rt: HostRuntime) -> Result<()> {
    let (is_pseudo, requested) = read_words(&rt)?;
    let sources = sources_for(&rt, requested.as_slice())?;
    run(&rt, sources.as_slice(), is_pseudo)
}
