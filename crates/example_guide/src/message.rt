//! A message and its attributes.
use crate::bundle::English;
use crate::showing::show_errors;
use fluent_bundle::{FluentArgs, FluentValue};
use std::borrow::CowStr;
use std::io;

/// Shows the value of a message and each of its attributes.
pub fn show_message(rt: &HostRuntime, bundle: &English<'_, '_>) -> io::Result<()> {
    let mut args = FluentArgs::new(rt.alloc());
    args.set(CowStr::Borrowed("name"), FluentValue::from("John"))?;
    let mut errors = Vec::new(rt.alloc());
    let Some(message) = bundle.get_message("login") else {
        return println!(rt; "login");
    };
    if let Some(pattern) = message.value() {
        let text = bundle.format_pattern(pattern, Some(&args), &mut errors)?;
        println!(rt; "{}", text.as_str())?;
    }
    for attribute in message.attributes() {
        let text = bundle.format_pattern(attribute.value(), Some(&args), &mut errors)?;
        println!(rt; "{}: {}", attribute.id(), text.as_str())?;
    }
    show_errors(rt, errors.as_slice())
}
