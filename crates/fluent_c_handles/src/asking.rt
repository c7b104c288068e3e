//! A text by what the caller answered, or what it is asked.
ghost use Rattle.std.specs.Prelude.{◌≡◌, true};
ghost use Rattle.fluent_answers.specs.Answered.{AllAgree};
ghost use Rattle.fluent_c_handles.specs.Answers.{stock_content};
ghost use Rattle.fluent_c_handles.specs.Family.{is_something};
ghost use Rattle.fluent_c_handles.specs.Inside.Asking.{AnswersBy, FormatsWanted};

use crate::answer::Answer;
use crate::lookup::has_pattern;
use crate::sources::SourceFault;
use crate::stock::Stock;
use crate::texts::{Form, FormatFault, read_values};
use crate::written::written;
use fluent_answers::{Answers, Meant, OwnValue};
use fluent_bundle::FluentArgs;
use std::alloc::Global;
use std::rc::Rc;
use std::str;

/// A message that is to be formatted: its value, or its attribute of a name that is not empty.
#[derive(Clone, Copy, Drop)]
pub(crate) struct Wanted<'w> {
    pub form: Form,
    pub id: &'w [u8],
    pub name: &'w [u8],
    pub args: &'w [u8],
}

/// The text of a message by what was answered, or a question that was not.
pub(crate) fn asked<'r, 's: 'r>(
    alloc: Global,
    stock: &mut Stock<'r, 's>,
    meant: &Meant,
    answers: &[u8],
    wanted: &Wanted<'_>,
) -> Answer
    requires agree { AllAgree meant.now.table answers.now }
    requires declared { is_something (stock_content stock.old).declared ≡ true }
    ensures { FormatsWanted meant.now.table answers.now wanted.now (stock_content stock.old) (stock_content stock.new) result }
{
    let (Ok(id), Ok(name)) = (str::from_utf8(wanted.id), str::from_utf8(wanted.name)) else {
        return Answer::Fault(SourceFault::Format(FormatFault::NotText));
    };
    if !has_pattern(stock, id, name) {
        return Answer::Fault(SourceFault::Format(FormatFault::NoMessage));
    }
    let args = match read_values(alloc, wanted.args) {
        Ok(args) => args,
        Err(fault) => return Answer::Fault(SourceFault::Format(fault)),
    };
    match Answers::read(alloc, meant, answers) {
        Ok(answers) => by_answers(alloc, stock, answers, wanted.form, id, name, &args),
        Err(fault) => Answer::Fault(SourceFault::Format(FormatFault::Answers(fault))),
    }
}

/// The same of what was read.
fn by_answers<'r, 's: 'r>(
    alloc: Global,
    stock: &mut Stock<'r, 's>,
    answers: Answers,
    form: Form,
    id: &str,
    name: &str,
    args: &FluentArgs<'_, OwnValue>,
) -> Answer
    ensures by { AnswersBy form ((stock_content stock.old).by answers.meant.table) (stock_content stock.old).declared answers id.now name.now args.now result }
    ensures kept { stock_content stock.new ≡ stock_content stock.old }
{
    let Ok(answers) = Rc::new(alloc, answers) else {
        return Answer::Fault(SourceFault::Format(FormatFault::Memory));
    };
    if stock.answer_by(alloc, &answers).is_err() {
        return Answer::Fault(SourceFault::Format(FormatFault::Memory));
    }
    match written(alloc, &stock.bundle, form, id, name, args) {
        Ok((text, lines)) => Answer::Texts { text, lines },
        Err(FormatFault::Memory) => match answers.asked() {
            Some(question) if stock.declared.has_asker(&question.asker) => {
                Answer::Asks(question.bytes)
            }
            _ => Answer::Fault(SourceFault::Format(FormatFault::Memory)),
        },
        Err(fault) => Answer::Fault(SourceFault::Format(fault)),
    }
}
