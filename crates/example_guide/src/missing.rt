//! What comes back when something is missing.
use crate::bundle::English;
use crate::showing::show;
use std::io;

/// Shows a message without its argument, one whose references lead nowhere, and one that isn't there.
pub fn show_missing(rt: &HostRuntime, bundle: &English<'_, '_>) -> io::Result<()> {
    show(rt, bundle, "intro", None)?;
    show(rt, bundle, "about", None)?;
    show(rt, bundle, "goodbye", None)
}
