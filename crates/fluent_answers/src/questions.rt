//! What a caller is asked, in bytes.
ghost use Rattle.std.specs.Prelude.{◌≡◌, ◌++◌, map, IfOk, OnOk};
ghost use Rattle.fluent_values.specs.View.{named, value_view};
ghost use Rattle.fluent_answers.specs.Encoded.{all_encoded, encoded, sized_bytes};
ghost use Rattle.fluent_answers.specs.OwnContent.{own_content};
ghost use Rattle.fluent_answers.specs.Questions.{formatter_question, function_question, named_record, positional_record, record_of, transform_question};

mod number_text;

use crate::kind::{Kind, byte_of};
use crate::own::OwnValue;
use fluent_values::{FluentArgs, FluentValue};
use number_text::number_text;
use std::alloc::{AllocError, Global};

/// What a function is asked.
///
/// # Errors
///
/// An allocation failed, or a text is too long for a record.
pub(crate) fn function_question(
    alloc: Global,
    name: &str,
    positional: &[FluentValue<'_, OwnValue>],
    arguments: &FluentArgs<'_, OwnValue>,
) -> Result<Vec<u8>, AllocError>
    ensures { IfOk result (λ q. q.items ≡ function_question name.now (map (value_view own_content) positional.now) (named own_content arguments.now)) }
{
    let mut question = Vec::new(alloc);
    question.push(b'f')?;
    put_sized(&mut question, name)?;
    put_positional(alloc, &mut question, positional)?;
    put_named(alloc, &mut question, arguments)?;
    Ok(question)
}

/// What the formatter is asked.
///
/// # Errors
///
/// As of a function.
pub(crate) fn formatter_question(
    alloc: Global,
    value: &FluentValue<'_, OwnValue>,
) -> Result<Vec<u8>, AllocError>
    ensures { IfOk result (λ q. q.items ≡ formatter_question (value_view own_content value.now)) }
{
    let mut question = Vec::new(alloc);
    question.push(b'v')?;
    put_value(alloc, &mut question, "", value)?;
    Ok(question)
}

/// What the transform is asked.
///
/// # Errors
///
/// As of a function.
pub(crate) fn transform_question(alloc: Global, text: &str) -> Result<Vec<u8>, AllocError>
    ensures { IfOk result (λ q. q.items ≡ transform_question text.now) }
{
    let mut question = Vec::new(alloc);
    question.push(b'x')?;
    put_sized(&mut question, text)?;
    Ok(question)
}

/// Writes positional arguments, in order.
fn put_positional(
    alloc: Global,
    out: &mut Vec<u8>,
    values: &[FluentValue<'_, OwnValue>],
) -> Result<(), AllocError>
    ensures { OnOk result (out.new.items ≡ out.old.items ++ all_encoded (map positional_record (map (value_view own_content) values.now))) }
{
    for value in values {
        put_value(alloc, out, "", value)?;
    }
    Ok(())
}

/// Writes named arguments, in the order of their names.
fn put_named(
    alloc: Global,
    out: &mut Vec<u8>,
    arguments: &FluentArgs<'_, OwnValue>,
) -> Result<(), AllocError>
    ensures { OnOk result (out.new.items ≡ out.old.items ++ all_encoded (map named_record (named own_content arguments.now))) }
{
    for (name, value) in arguments.iter() {
        put_value(alloc, out, name, value)?;
    }
    Ok(())
}

/// Writes a value with its name.
fn put_value(
    alloc: Global,
    out: &mut Vec<u8>,
    name: &str,
    value: &FluentValue<'_, OwnValue>,
) -> Result<(), AllocError>
    ensures { OnOk result (out.new.items ≡ out.old.items ++ encoded (record_of name.now (value_view own_content value.now))) }
{
    match value {
        FluentValue::String(text) => put_record(out, name, Kind::Text, text.as_str()),
        FluentValue::Number(number) => {
            let text = number_text(alloc, number)?;
            put_record(out, name, Kind::Number, text.as_str())
        }
        FluentValue::Custom(own) => put_record(out, name, Kind::Own, own.text()),
        FluentValue::None => put_record(out, name, Kind::Nothing, ""),
        FluentValue::Error => put_record(out, name, Kind::Error, ""),
    }
}

/// Writes a record.
fn put_record(out: &mut Vec<u8>, name: &str, kind: Kind, value: &str) -> Result<(), AllocError>
    ensures { OnOk result (out.new.items ≡ out.old.items ++ encoded (record { name = name.now; kind = kind; value = value.now })) }
{
    out.push(byte_of(kind))?;
    put_sized(out, name)?;
    put_sized(out, value)
}

/// Writes a text after its length, which has four bytes.
fn put_sized(out: &mut Vec<u8>, text: &str) -> Result<(), AllocError>
    ensures { OnOk result (out.new.items ≡ out.old.items ++ sized_bytes text.now) }
{
    let Ok(length) = u32::try_from(text.len()) else {
        return Err(AllocError);
    };
    out.extend_from_slice(&length.to_le_bytes())?;
    out.extend_from_slice(text.as_bytes())
}
