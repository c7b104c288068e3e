//! The values of arguments and answers.
ghost use Rattle.std.specs.Prelude.{◌≡◌, map, IfOk, OnOk};
ghost use Rattle.fluent_values.specs.View.{value_view};
ghost use Rattle.fluent_answers.specs.Values.{argument_values, value_of};
ghost use Rattle.fluent_answers.specs.ArgumentView.{args_view, argument_view};
ghost use Rattle.fluent_answers.specs.OwnContent.{own_content};

use crate::argument::Argument;
use crate::kind::Kind;
use crate::numbers::number;
use crate::own::OwnValue;
use fluent_values::{FluentArgs, FluentValue};
use std::alloc::{AllocError, Global};
use std::borrow::CowStr;

/// So many arguments are set in the order in which they came; more would move one another too often.
const FEW: usize = 16;

/// The value of a kind by its text, which it borrows where it is one.
///
/// # Errors
///
/// An allocation failed, which only a number with options and a value of the caller's own can meet.
pub(crate) fn value<'b>(
    alloc: Global,
    kind: Kind,
    text: &'b str,
) -> Result<FluentValue<'b, OwnValue>, AllocError>
    ensures { IfOk result (λ v. value_view own_content v ≡ value_of kind text.now) }
{
    match kind {
        Kind::Text => Ok(FluentValue::String(CowStr::Borrowed(text))),
        Kind::Number => number(alloc, text),
        Kind::Own => Ok(FluentValue::Custom(OwnValue::new(alloc, text)?)),
        Kind::Nothing => Ok(FluentValue::None),
        Kind::Error => Ok(FluentValue::Error),
    }
}

/// The arguments of a call. The last of a repeated name stands.
///
/// # Errors
///
/// An allocation failed.
pub fn values<'b>(
    alloc: Global,
    list: Vec<Argument<'b>>,
) -> Result<FluentArgs<'b, OwnValue>, AllocError>
    ensures { IfOk result (λ args. args_view args ≡ argument_values (map argument_view list.entry.items)) }
{
    let mut list = list;
    if list.len() > FEW {
        put_in_order(&mut list)?;
    }
    set_all(alloc, list.as_slice())
}

/// Puts arguments in the order of their names, those of one name in the order in which they came.
fn put_in_order(list: &mut Vec<Argument<'_>>) -> Result<(), AllocError>
    ensures { OnOk result (argument_values (map argument_view list.new.items) ≡ argument_values (map argument_view list.old.items)) }
{
    list.sort_by_key(|argument| argument.name)?;
    Ok(())
}

/// Sets arguments one after the other. One that stands behind all others by its name moves none.
fn set_all<'b>(alloc: Global, list: &[Argument<'b>]) -> Result<FluentArgs<'b, OwnValue>, AllocError>
    ensures { IfOk result (λ args. args_view args ≡ argument_values (map argument_view list.now)) }
{
    let mut args = FluentArgs::new(alloc);
    for argument in list {
        let value = value(alloc, argument.kind, argument.value)?;
        args.set(CowStr::Borrowed(argument.name), value)?;
    }
    Ok(args)
}
