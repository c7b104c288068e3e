//! A message of a source, written with its errors.

ghost use Rattle.std.specs.Prelude.{◌≡◌, ◌≢◌, [], Err, IfOk};
ghost use Rattle.fluent_syntax.specs.Chunks as grammar;
ghost use Rattle.fluent_text.specs.Writer.{CountsFault};
ghost use Rattle.fluent_resource.specs.ResourceView.{entries_of};
ghost use Rattle.fluent_show_cli.specs.Program.{line, junk_errors, start};
ghost use Rattle.fluent_show_words.specs.PluralsView.{plurals_view};
ghost use Rattle.fluent_show_cli.specs.Inside.BundleView.{args_view, bundle_view};
ghost use Rattle.fluent_show_cli.specs.Inside.Comes as of;
ghost use Rattle.fluent_show_cli.specs.Inside.Comes.{words_arguments, AddsAs, AddsErrors, EndsAs, GivesAs, Puts, PutsPart, StopsAs};
ghost use Rattle.fluent_show_cli.specs.Inside.OutputProgress.{Took};
ghost use Rattle.fluent_show_cli.specs.Inside.Said.{At};

use crate::report::Ending;
use crate::task::Task;
use fluent_bundle::{
    AddFault, Counting, FluentArgs, FluentBundle, FluentError, FluentResource, FluentValue,
    NoCustom, NoFormatter, NoFunction, NoTransform, ParserError, WriteFault, laws,
};
use fluent_fallback::{BundleRef, Chain};
use fluent_show_words::plurals::Plurals;
use fluent_show_words::request::{Request, name_and_value};
use fluent_syntax::put;
use std::alloc::{AllocError, Global};
use std::borrow::CowStr;
use std::io::Write;

/// A bundle for which the application adds nothing of its own but resources.
type Bundle<'p, 'r, 's> = FluentBundle<
    'r,
    's,
    Plurals<'p>,
    NoCustom,
    NoFunction,
    NoFormatter,
    NoTransform,
>;

/// The arguments that words `NAME=VALUE` give. A value that is the text of a number is a number, any other a text.
fn arguments<'w>(alloc: Global, words: &'w [String]) -> Result<FluentArgs<'w, NoCustom>, AllocError>
    ensures { IfOk result (λ args. args_view args ≡ words_arguments words.now) }
{
    let mut args = FluentArgs::new(alloc);
    for word in words {
        let (name, value) = name_and_value(word.as_str());
        args.set(CowStr::Borrowed(name), FluentValue::try_number(value))?;
    }
    Ok(args)
}

/// Adds an error for each part of a source that could not be read.
fn report_junk(found: &[ParserError], errors: &mut Vec<FluentError>) -> Result<(), AllocError>
    ensures { AddsErrors result (of.junk found.now) errors.old errors.new }
{
    for error in found {
        errors.push(FluentError::from(*error))?;
    }
    Ok(())
}

/// Reads a source, and reports what it can't read.
fn read<'s>(
    alloc: Global,
    source: &'s str,
    errors: &mut Vec<FluentError>,
) -> Result<FluentResource<'s>, AllocError>
    ensures entries { IfOk result (λ resource. entries_of resource ≡ grammar.entries source.now) }
    ensures errors { AddsErrors result (junk_errors source.now) errors.old errors.new }
{
    let (resource, found) = FluentResource::read(alloc, source)?;
    report_junk(found.as_slice(), errors)?;
    Ok(resource)
}

/// A bundle with the built-in function alone.
fn start<'p, 'r, 's>(
    alloc: Global,
    plurals: Plurals<'p>,
    isolate: bool,
) -> Result<Bundle<'p, 'r, 's>, AllocError>
    ensures { IfOk result (λ bundle. bundle_view bundle
        ≡ start (plurals_view plurals.entry) isolate) }
{
    let mut bundle = FluentBundle::new(alloc, Vec::new(alloc), plurals);
    bundle.set_use_isolating(isolate);
    match bundle.add_builtins() {
        Ok(()) => Ok(bundle),
        // All ids are free, so it is an allocation that failed.
        Err(_) => Err(AllocError),
    }
}

/// A bundle of one resource, with a report of each id that stands there twice, or is that of the built-in function.
fn bundle_of<'p, 'r, 's>(
    alloc: Global,
    task: Task<'_, 'p>,
    resource: &'r FluentResource<'s>,
    errors: &mut Vec<FluentError>,
) -> Result<Bundle<'p, 'r, 's>, AllocError>
    ensures bundle { IfOk result (λ bundle. bundle_view bundle ≡ of.bundle task.entry resource.now) }
    ensures errors { AddsErrors result (of.adding task.entry resource.now) errors.old errors.new }
{
    let mut bundle = start(alloc, task.plurals, task.request.options.isolate)?;
    match bundle.add_resource(resource) {
        Ok(()) => Ok(bundle),
        Err(AddFault::Overriding(mut found)) => {
            errors.append(&mut found)?;
            Ok(bundle)
        }
        Err(AddFault::Memory) => Err(AllocError),
    }
}

// ---- the input alone

/// Writes the value of the message that was asked for under the arguments, and a line feed, if there is one.
fn show_value<'w, 'p, 'r, 's: 'r, W: Write>(
    alloc: Global,
    request: Request<'w>,
    bundle: &Bundle<'p, 'r, 's>,
    out: &mut Counting<W>,
    errors: &mut Vec<FluentError>,
) -> Result<Ending<'w>, WriteFault>
    ensures text { Puts result (of.value request.entry bundle.now) W.contents out.old out.new }
    ensures part { PutsPart result (of.value request.entry bundle.now) W.contents out.old out.new }
    ensures errors { AddsAs result (of.value request.entry bundle.now) errors.old errors.new }
    ensures stops { StopsAs result (of.value request.entry bundle.now) errors.new out.old out.new }
    ensures ending { EndsAs result (of.value request.entry bundle.now) }
    ensures fault { CountsFault out.old out.new result }
{
    let args = arguments(alloc, request.arguments)?;
    laws::events_are_the_run();
    if bundle.write_value(out, request.id, Some(&args), errors)? {
        put(out, b"\n")?;
        return Ok(Ending::Shown);
    }
    Ok(Ending::NoMessage(request.id))
}

/// The same in a bundle of one source.
fn show_alone<'w, W: Write>(
    alloc: Global,
    task: Task<'w, '_>,
    source: &str,
    out: &mut Counting<W>,
    errors: &mut Vec<FluentError>,
) -> Result<Ending<'w>, WriteFault>
    requires { errors.old.items ≡ [] }
    ensures text { Puts result (of.alone task.entry source.now) W.contents out.old out.new }
    ensures part { PutsPart result (of.alone task.entry source.now) W.contents out.old out.new }
    ensures errors { AddsAs result (of.alone task.entry source.now) errors.old errors.new }
    ensures stops { StopsAs result (of.alone task.entry source.now) errors.new out.old out.new }
    ensures ending { EndsAs result (of.alone task.entry source.now) }
    ensures fault { CountsFault out.old out.new result }
{
    let resource = read(alloc, source, errors)?;
    let bundle = bundle_of(alloc, task, &resource, errors)?;
    show_value(alloc, task.request, &bundle, out, errors)
}

// ---- the input, and a source that stands in for it

/// The text that a chain of two bundles gives for the message.
fn chain_text<'p, 'r, 's: 'r>(
    alloc: Global,
    request: Request<'s>,
    first: &Bundle<'p, 'r, 's>,
    second: &Bundle<'p, 'r, 's>,
    errors: &mut Vec<FluentError>,
) -> Result<CowStr<'s>, AllocError>
    ensures text { GivesAs result (of.chain request.entry first.now second.now) }
    ensures errors { AddsAs result (of.chain request.entry first.now second.now) errors.old errors.new }
{
    let args = arguments(alloc, request.arguments)?;
    let links = [BundleRef(first), BundleRef(second)];
    Chain::new(&links).format_value(request.id, Some(&args), errors)
}

/// The same in bundles of one resource each.
fn both_text<'r, 's>(
    alloc: Global,
    task: Task<'s, '_>,
    first: &'r FluentResource<'s>,
    second: &'r FluentResource<'s>,
    errors: &mut Vec<FluentError>,
) -> Result<CowStr<'s>, AllocError>
    ensures text { GivesAs result (of.both task.entry first.now second.now) }
    ensures errors { AddsAs result (of.both task.entry first.now second.now) errors.old errors.new }
{
    let first = bundle_of(alloc, task, first, errors)?;
    let second = bundle_of(alloc, task, second, errors)?;
    chain_text(alloc, task.request, &first, &second, errors)
}

/// The same of a source each.
fn fallback_text<'s>(
    alloc: Global,
    task: Task<'s, '_>,
    source: &'s str,
    other: &'s str,
    errors: &mut Vec<FluentError>,
) -> Result<CowStr<'s>, AllocError>
    ensures text { GivesAs result (of.fallback task.entry source.now other.now) }
    ensures errors { AddsAs result (of.fallback task.entry source.now other.now) errors.old errors.new }
{
    let first = read(alloc, source, errors)?;
    let second = read(alloc, other, errors)?;
    both_text(alloc, task, &first, &second, errors)
}

/// Writes a text, and a line feed.
fn put_line<W: Write>(text: &str, out: &mut Counting<W>) -> Result<(), WriteFault>
    ensures took { At W.contents out.old out.new (Took result (line text.now)) }
    ensures fault { CountsFault out.old out.new result }
    ensures memory { result ≢ Err WriteFault.Memory }
{
    put(out, text.as_bytes())?;
    put(out, b"\n")
}

// ---- both

/// Writes the value of the message that was asked for, and adds what is to be reported.
///
/// # Errors
///
/// What was written and added so far begins what should have been. Before anything is written, all that is wrong with
/// the sources themselves was added, and with a fallback all errors. Where an allocation failed, not all was written,
/// and with a fallback nothing.
pub fn show<'w, W: Write>(
    alloc: Global,
    task: Task<'w, '_>,
    source: &str,
    out: &mut Counting<W>,
    errors: &mut Vec<FluentError>,
) -> Result<Ending<'w>, WriteFault>
    requires { errors.old.items ≡ [] }
    ensures text { Puts result (of.source task.entry source.now) W.contents out.old out.new }
    ensures part { PutsPart result (of.source task.entry source.now) W.contents out.old out.new }
    ensures errors { AddsAs result (of.source task.entry source.now) errors.old errors.new }
    ensures stops { StopsAs result (of.source task.entry source.now) errors.new out.old out.new }
    ensures ending { EndsAs result (of.source task.entry source.now) }
    ensures fault { CountsFault out.old out.new result }
{
    match task.request.options.fallback {
        None => show_alone(alloc, task, source, out, errors),
        Some(fallback) => {
            let text = fallback_text(alloc, task, source, fallback, errors)?;
            put_line(text.as_str(), out)?;
            Ok(Ending::Shown)
        }
    }
}
