//! The program of docs/GUIDE.md: it shows what the guide explains, by the messages on standard input.
#![tactic(auto)]

mod arguments;
mod bundle;
mod custom;
mod formatter;
mod functions;
mod japanese;
mod kept;
mod message;
mod missing;
mod plurals;
mod pseudo;
mod reading;
mod several;
mod showing;
mod welcome;

use bundle::english_bundle;
use fluent_bundle::FluentResource;
use reading::read;
use std::io;

/// Shows what a bundle in English gives.
fn show_english(rt: &HostRuntime, resource: &FluentResource<'_>) -> io::Result<()> {
    let bundle = english_bundle(rt, resource)?;

    println!(rt; "Arguments")?;
    arguments::show_arguments(rt, &bundle)?;

    println!(rt; "A message and its attributes")?;
    message::show_message(rt, &bundle)?;

    println!(rt; "What is missing")?;
    missing::show_missing(rt, &bundle)
}

/// Shows what an application hands to a bundle.
fn show_own(rt: &HostRuntime, resource: &FluentResource<'_>) -> io::Result<()> {
    println!(rt; "Functions of one's own")?;
    functions::show_functions(rt, resource)?;

    println!(rt; "A function that is kept")?;
    kept::show_kept(rt, resource)?;

    println!(rt; "A formatter")?;
    formatter::show_formatter(rt, resource)?;

    println!(rt; "A transform")?;
    pseudo::show_transform(rt, resource)?;

    println!(rt; "A value of one's own type")?;
    custom::show_custom(rt, resource)
}

/// Shows where plural categories come from.
fn show_languages(rt: &HostRuntime, resource: &FluentResource<'_>) -> io::Result<()> {
    println!(rt; "The plural rules of a language")?;
    plurals::show_plurals(rt, resource)?;

    println!(rt; "A plural source of one's own")?;
    japanese::show_one(rt, resource)?;

    println!(rt; "Several languages")?;
    several::show_several(rt, &["pl-PL", "de"])
}

/// Shows bundles of the messages.
fn show_bundles(rt: &HostRuntime, resource: &FluentResource<'_>) -> io::Result<()> {
    println!(rt; "A bundle")?;
    bundle::show_twice(rt, resource)?;
    show_english(rt, resource)?;
    show_own(rt, resource)?;
    show_languages(rt, resource)
}

fn main(rt: HostRuntime) -> io::Result<()> {
    println!(rt; "A text in a program")?;
    welcome::show_welcome(&rt)?;

    println!(rt; "A resource and its errors")?;
    let source = io::read_to_string(rt.alloc(), rt.stdin())?;
    let resource = read(&rt, source.as_str())?;
    show_bundles(&rt, &resource)
}
