//! The arguments of a call in a run of bytes.
ghost use Rattle.std.specs.Prelude.{◌≡◌, ◌<◌, length, IfOk, IfErr, OnOk};
ghost use Rattle.fluent_semantics.specs.Arguments.{set};
ghost use Rattle.fluent_answers.specs.ArgumentView.{args_view, argument_view};
ghost use Rattle.fluent_answers.specs.Inside.Setting.{HasNotOne, IsOne, SetsOne};
ghost use Rattle.fluent_answers.specs.Records.{NotRead};
ghost use Rattle.fluent_answers.specs.Values.{HaveValues, record_value};

use crate::argument::{Argument, arguments, text};
use crate::fault::Fault;
use crate::own::OwnValue;
use crate::reading::next;
use crate::value::{value, values};
use fluent_values::FluentArgs;
use std::alloc::{AllocError, Global};
use std::borrow::CowStr;

/// In so many bytes no more than some fifty arguments stand, which are set as they come; of more, some would move others too
/// often.
const SHORT: usize = 512;

/// Reads the arguments of a call. The last of a repeated name stands.
///
/// # Errors
///
/// The first [`Fault`] from the start. No bytes take no memory.
pub fn read_args(alloc: Global, bytes: &[u8]) -> Result<FluentArgs<'_, OwnValue>, Fault>
    ensures ok { IfOk result (λ args. HaveValues bytes.now (args_view args)) }
    ensures err { IfErr result (NotRead bytes.now) }
{
    if bytes.len() > SHORT {
        read_many(alloc, bytes)
    } else {
        read_few(alloc, bytes)
    }
}

/// Reads all, and then sets them in order.
fn read_many(alloc: Global, bytes: &[u8]) -> Result<FluentArgs<'_, OwnValue>, Fault>
    requires { 0 < length bytes.now }
    ensures ok { IfOk result (λ args. HaveValues bytes.now (args_view args)) }
    ensures err { IfErr result (NotRead bytes.now) }
{
    let list = match arguments(alloc, bytes) {
        Ok(list) => list,
        Err(fault) => return Err(fault),
    };
    match values(alloc, list) {
        Ok(args) => Ok(args),
        Err(AllocError) => Err(Fault::Memory),
    }
}

/// Sets each that is read.
fn read_few(alloc: Global, bytes: &[u8]) -> Result<FluentArgs<'_, OwnValue>, Fault>
    ensures ok { IfOk result (λ args. HaveValues bytes.now (args_view args)) }
    ensures err { IfErr result (NotRead bytes.now) }
{
    let mut args = FluentArgs::new(alloc);
    let mut rest = bytes;
    while !rest.is_empty() {
        match read_one(alloc, &mut args, rest) {
            Ok(after) => rest = after,
            Err(fault) => return Err(fault),
        }
    }
    Ok(args)
}

/// Reads an argument and sets it, and gives what stands after it.
#[inline(always)]
fn read_one<'b>(
    alloc: Global,
    args: &mut FluentArgs<'b, OwnValue>,
    rest: &'b [u8],
) -> Result<&'b [u8], Fault>
    ensures ok { IfOk result (λ after. SetsOne rest.now after.now (args_view args.old) (args_view args.new)) }
    ensures shorter { IfOk result (λ after. length after.now < length rest.now) }
    ensures err { IfErr result (HasNotOne rest.now) }
{
    let (argument, after) = next_argument(rest)?;
    match set_argument(alloc, args, argument) {
        Ok(()) => Ok(after),
        Err(AllocError) => Err(Fault::Memory),
    }
}

/// The argument at the start, and what stands after it.
#[inline(always)]
fn next_argument(rest: &[u8]) -> Result<(Argument<'_>, &[u8]), Fault>
    ensures ok { IfOk result (λ r. IsOne rest.now (argument_view r.0) r.1.now) }
    ensures shorter { IfOk result (λ r. length r.1.now < length rest.now) }
    ensures err { IfErr result (HasNotOne rest.now) }
{
    let Some((raw, after)) = next(rest) else {
        return Err(Fault::Cut);
    };
    let Some(argument) = text(raw) else {
        return Err(Fault::NotText);
    };
    Ok((argument, after))
}

/// Sets an argument.
fn set_argument<'b>(
    alloc: Global,
    args: &mut FluentArgs<'b, OwnValue>,
    argument: Argument<'b>,
) -> Result<(), AllocError>
    ensures { OnOk result (args_view args.new ≡ set argument.entry.name.now (record_value (argument_view argument.entry)) (args_view args.old)) }
{
    let value = value(alloc, argument.kind, argument.value)?;
    args.set(CowStr::Borrowed(argument.name), value)
}
