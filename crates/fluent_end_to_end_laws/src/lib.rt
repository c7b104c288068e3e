//! What a pattern gives in a bundle that a list of calls makes, said from the texts of the sources alone.
#![tactic(auto)]

ghost use Rattle.std.specs.Prelude.{◌≡◌, map, IfOk};
ghost use Rattle.fluent_syntax.specs.Chunks.{entries};
ghost use Rattle.fluent_text.specs.Writer.{CountsFault};
ghost use Rattle.fluent_resource.specs.ResourceView.{entries_of};
ghost use Rattle.fluent_bundle.specs.Formatted.{GivesFound, WritesFound};
ghost use Rattle.fluent_end_to_end_laws.specs.Given.{FindsAfter, GivesAfter, WritesAfter, WritesFoundAfter};
ghost use Rattle.fluent_fallback.specs.Chain.{pattern_asked};
ghost use Rattle.fluent_end_to_end_laws.specs.Made.{made};
ghost use Rattle.fluent_end_to_end_laws.specs.Inside.OnTheWay.{source_of, AreReadFor, AsksOver, AskAll};

use fluent_bundle::{
    Call, Counting, FluentArgs, FluentBundle, FluentError, FluentFormatter, FluentFunction,
    FluentResource, FluentType, Means, MemoizerKind, Transform, WriteFault, ast,
};
use std::alloc::{AllocError, Global};
use std::borrow::CowStr;
use std::io::Write;

/// A call on a bundle, with the source of its resource as a text.
#[derive(Drop)]
pub enum Asked<'s, F, G, T> {
    AddResource(&'s str),
    AddResourceOverriding(&'s str),
    /// A function under an id.
    AddFunction(&'s str, F),
    AddBuiltins,
    SetUseIsolating(bool),
    SetTransform(Option<T>),
    SetFormatter(Option<G>),
    SetPlaceableLimit(usize),
}

/// Reads a source. One with Junk is used as it is.
fn read<'s>(alloc: Global, source: &'s str) -> Result<FluentResource<'s>, AllocError>
    ensures { IfOk result (λ resource. entries_of resource ≡ entries source.now) }
{
    let (resource, _errors) = FluentResource::read(alloc, source)?;
    Ok(resource)
}

/// The source of a call's resource, empty where it has none.
fn source_of<'s, F, G, T>(call: &Asked<'s, F, G, T>) -> &'s str
    ensures { result.now ≡ source_of call.now }
{
    match call {
        Asked::AddResource(source) | Asked::AddResourceOverriding(source) => *source,
        _ => "",
    }
}

/// Reads a resource for each call, an empty one where it asks for none.
fn resources_of<'s, F, G, T>(
    alloc: Global,
    calls: &[Asked<'s, F, G, T>],
) -> Result<Vec<FluentResource<'s>>, AllocError>
    ensures { IfOk result (λ resources. AreReadFor calls.now resources.items) }
{
    let mut resources = Vec::new(alloc);
    for call in calls {
        resources.push(read(alloc, source_of(call))?)?;
    }
    Ok(resources)
}

/// A call with the resource that was read for it.
fn call_of<
    'r,
    's,
    M: MemoizerKind,
    C: FluentType,
    F: FluentFunction<C>,
    G: FluentFormatter<C, M>,
    T: Transform,
>(call: Asked<'s, F, G, T>, resource: &'r FluentResource<'s>) -> Call<'r, 's, F, G, T>
    ensures { AsksOver F.answer G.formatted T.changed call.entry (entries_of resource.now) result }
{
    match call {
        Asked::AddResource(_) => Call::AddResource(resource),
        Asked::AddResourceOverriding(_) => Call::AddResourceOverriding(resource),
        Asked::AddFunction(id, function) => Call::AddFunction(id, function),
        Asked::AddBuiltins => Call::AddBuiltins,
        Asked::SetUseIsolating(value) => Call::SetUseIsolating(value),
        Asked::SetTransform(transform) => Call::SetTransform(transform),
        Asked::SetFormatter(formatter) => Call::SetFormatter(formatter),
        Asked::SetPlaceableLimit(limit) => Call::SetPlaceableLimit(limit),
    }
}

/// The calls with the resources that were read for them.
fn calls_of<
    'r,
    's,
    M: MemoizerKind,
    C: FluentType,
    F: FluentFunction<C>,
    G: FluentFormatter<C, M>,
    T: Transform,
>(
    alloc: Global,
    calls: Vec<Asked<'s, F, G, T>>,
    resources: &'r [FluentResource<'s>],
) -> Result<Vec<Call<'r, 's, F, G, T>>, AllocError>
    requires { AreReadFor calls.items resources.now }
    ensures { IfOk result (λ all.
        AskAll F.answer G.formatted T.changed calls.entry.items all.items) }
{
    let mut made = Vec::new(alloc);
    for (call, resource) in calls.into_iter().zip(resources) {
        made.push(call_of::<M, C, F, G, T>(call, resource))?;
    }
    Ok(made)
}

/// An empty bundle after the calls, over the resources that were read for them.
fn bundle_over<
    'r,
    's,
    M: MemoizerKind,
    C: FluentType,
    F: FluentFunction<C>,
    G: FluentFormatter<C, M>,
    T: Transform,
>(
    alloc: Global,
    intls: M,
    calls: Vec<Asked<'s, F, G, T>>,
    resources: &'r [FluentResource<'s>],
) -> Result<FluentBundle<'r, 's, M, C, F, G, T>, AllocError>
    requires { AreReadFor calls.items resources.now }
    ensures { IfOk result (λ bundle. ⟦<FluentBundle<'r, 's, M, C, F, G, T> as Means>⟧.meaning bundle
        ≡ made M.category C.shown C.alike F.answer G.formatted T.changed intls calls.entry) }
{
    let calls = calls_of::<M, C, F, G, T>(alloc, calls, resources)?;
    let mut bundle = FluentBundle::new(alloc, Vec::new(alloc), intls);
    bundle.make_all(calls)?;
    Ok(bundle)
}

/// Makes an empty bundle, makes the calls on it in order, and writes the text of a pattern in it; what went wrong in
/// the pattern is added at the end of the list of errors. Sources are read as far as they can be, an id that is there
/// when its entry is added is left as it is, and so is the limit where one out of range is asked for; none of these
/// is reported.
///
/// # Errors
///
/// `Writer` where a write failed, `Zero` where a write of a nonempty piece took no byte, `Memory` where an
/// allocation failed. Then what was written begins the text, and what was added begins the errors.
pub fn write_after<
    's,
    M: MemoizerKind,
    C: FluentType,
    F: FluentFunction<C>,
    G: FluentFormatter<C, M>,
    T: Transform,
    W: Write,
>(
    alloc: Global,
    intls: M,
    calls: Vec<Asked<'s, F, G, T>>,
    args: Option<&FluentArgs<'_, C>>,
    pattern: &ast::Pattern<'s>,
    w: &mut Counting<W>,
    errors: &mut Vec<FluentError>,
) -> Result<(), WriteFault>
    ensures text { WritesAfter (made M.category C.shown C.alike F.answer G.formatted T.changed intls calls.entry)
        C.content args.entry pattern.now result W.contents w errors }
    ensures fault { CountsFault w.old w.new result }
{
    let resources = resources_of(alloc, calls.as_slice())?;
    let bundle: FluentBundle<'_, '_, M, C, F, G, T> = bundle_over(
        alloc,
        intls,
        calls,
        resources.as_slice(),
    )?;
    bundle.write_pattern(w, pattern, args, errors)
}

/// Makes an empty bundle, makes the calls on it in order, and gives the text of a pattern in it as the formatter shows
/// it as a value; what went wrong in the pattern is added at the end of the list of errors. Sources, ids and limits
/// go as in [`write_after`].
///
/// # Errors
///
/// An allocation failed: what was added begins the errors.
pub fn format_after<
    's,
    M: MemoizerKind,
    C: FluentType,
    F: FluentFunction<C>,
    G: FluentFormatter<C, M>,
    T: Transform,
>(
    alloc: Global,
    intls: M,
    calls: Vec<Asked<'s, F, G, T>>,
    args: Option<&FluentArgs<'_, C>>,
    pattern: &ast::Pattern<'s>,
    errors: &mut Vec<FluentError>,
) -> Result<CowStr<'s>, AllocError>
    ensures { GivesAfter (made M.category C.shown C.alike F.answer G.formatted T.changed intls calls.entry)
        C.content args.entry pattern.now result errors }
{
    let resources = resources_of(alloc, calls.as_slice())?;
    let bundle: FluentBundle<'_, '_, M, C, F, G, T> = bundle_over(
        alloc,
        intls,
        calls,
        resources.as_slice(),
    )?;
    bundle.format_pattern(pattern, args, errors)
}

/// Writes the value of a message of a bundle, or its first attribute of a name where one is given.
fn write_in<
    'r,
    's: 'r,
    M: MemoizerKind,
    C: FluentType,
    F: FluentFunction<C>,
    G: FluentFormatter<C, M>,
    T: Transform,
    W: Write,
>(
    bundle: &FluentBundle<'r, 's, M, C, F, G, T>,
    args: Option<&FluentArgs<'_, C>>,
    id: &str,
    name: Option<&str>,
    w: &mut Counting<W>,
    errors: &mut Vec<FluentError>,
) -> Result<bool, WriteFault>
    ensures text { WritesFound (⟦<FluentBundle<'r, 's, M, C, F, G, T> as Means>⟧.meaning bundle.now)
        C.content args.entry (pattern_asked id.now name.entry) result W.contents w errors }
    ensures fault { CountsFault w.old w.new result }
{
    match name {
        None => bundle.write_value(w, id, args, errors),
        Some(name) => bundle.write_attribute(w, id, name, args, errors),
    }
}

/// Gives the text of the value of a message of a bundle, or of its first attribute of a name where one is given.
fn format_in<
    'r,
    's: 'r,
    M: MemoizerKind,
    C: FluentType,
    F: FluentFunction<C>,
    G: FluentFormatter<C, M>,
    T: Transform,
>(
    bundle: &FluentBundle<'r, 's, M, C, F, G, T>,
    args: Option<&FluentArgs<'_, C>>,
    id: &str,
    name: Option<&str>,
    errors: &mut Vec<FluentError>,
) -> Result<Option<CowStr<'s>>, AllocError>
    ensures { GivesFound (⟦<FluentBundle<'r, 's, M, C, F, G, T> as Means>⟧.meaning bundle.now)
        C.content args.entry (pattern_asked id.now name.entry) result errors }
{
    match name {
        None => bundle.format_value(id, args, errors),
        Some(name) => bundle.format_attribute(id, name, args, errors),
    }
}

/// Makes an empty bundle, makes the calls on it in order, and writes the value of the message that an id names, or its
/// first attribute of a name where one is given, as [`write_after`] writes a pattern, and says that it is there. `false`
/// where it isn't: then nothing is written and nothing is added. Sources, ids and limits go as in [`write_after`].
///
/// # Errors
///
/// As for [`write_after`].
pub fn write_by_id_after<
    's,
    M: MemoizerKind,
    C: FluentType,
    F: FluentFunction<C>,
    G: FluentFormatter<C, M>,
    T: Transform,
    W: Write,
>(
    alloc: Global,
    intls: M,
    calls: Vec<Asked<'s, F, G, T>>,
    args: Option<&FluentArgs<'_, C>>,
    id: &str,
    name: Option<&str>,
    w: &mut Counting<W>,
    errors: &mut Vec<FluentError>,
) -> Result<bool, WriteFault>
    ensures text { WritesFoundAfter (made M.category C.shown C.alike F.answer G.formatted T.changed intls calls.entry)
        C.content args.entry id.now name.entry result W.contents w errors }
    ensures fault { CountsFault w.old w.new result }
{
    let resources = resources_of(alloc, calls.as_slice())?;
    let bundle: FluentBundle<'_, '_, M, C, F, G, T> = bundle_over(
        alloc,
        intls,
        calls,
        resources.as_slice(),
    )?;
    write_in(&bundle, args, id, name, w, errors)
}

/// Makes an empty bundle, makes the calls on it in order, and gives the text of the value of the message that an id
/// names, or of its first attribute of a name where one is given, as [`format_after`] gives that of a pattern. `None`
/// where it isn't there: then nothing is added. Sources, ids and limits go as in [`write_after`].
///
/// # Errors
///
/// An allocation failed: what was added begins the errors.
pub fn format_by_id_after<
    's,
    M: MemoizerKind,
    C: FluentType,
    F: FluentFunction<C>,
    G: FluentFormatter<C, M>,
    T: Transform,
>(
    alloc: Global,
    intls: M,
    calls: Vec<Asked<'s, F, G, T>>,
    args: Option<&FluentArgs<'_, C>>,
    id: &str,
    name: Option<&str>,
    errors: &mut Vec<FluentError>,
) -> Result<Option<CowStr<'s>>, AllocError>
    ensures { FindsAfter (made M.category C.shown C.alike F.answer G.formatted T.changed intls calls.entry)
        C.content args.entry id.now name.entry result errors }
{
    let resources = resources_of(alloc, calls.as_slice())?;
    let bundle: FluentBundle<'_, '_, M, C, F, G, T> = bundle_over(
        alloc,
        intls,
        calls,
        resources.as_slice(),
    )?;
    format_in(&bundle, args, id, name, errors)
}
