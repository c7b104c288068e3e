//! Showing messages and errors.
use fluent_bundle::{
    FluentArgs, FluentBundle, FluentError, FluentFormatter, FluentFunction, FluentType,
    MemoizerKind, Transform,
};
use std::io;

/// Shows the value of a message, or its id where the bundle has none, and then what went wrong.
pub fn show<
    'r,
    's: 'r,
    M: MemoizerKind,
    C: FluentType,
    F: FluentFunction<C>,
    G: FluentFormatter<C, M>,
    T: Transform,
>(
    rt: &HostRuntime,
    bundle: &FluentBundle<'r, 's, M, C, F, G, T>,
    id: &str,
    args: Option<&FluentArgs<'_, C>>,
) -> io::Result<()> {
    let mut errors = Vec::new(rt.alloc());
    match bundle.format_value(id, args, &mut errors)? {
        Some(text) => println!(rt; "{}", text.as_str())?,
        None => println!(rt; "{id}")?,
    }
    show_errors(rt, errors.as_slice())
}

/// Shows errors, each on a line.
pub fn show_errors(rt: &HostRuntime, errors: &[FluentError]) -> io::Result<()> {
    for error in errors {
        println!(rt; "{error}")?;
    }
    Ok(())
}
