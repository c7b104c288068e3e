//! What a caller has answered.
ghost use Rattle.fluent_answers.specs.Answered.{AgreeOn, kept_answer};

mod given;

use crate::answer::Answer;
use crate::fault::Fault;
use crate::meant::Meant;
use crate::own::OwnValue;
use crate::question::Question;
use crate::value::value;
use fluent_values::FluentValue;
use given::{read_given, rows_of};
use std::alloc::{AllocError, Global};
use std::cell::RefCell;
use std::collections::BTreeMap;

/// What a caller has answered to the questions of a call, and where a question goes that it has not.
#[derive(Drop)]
pub struct Answers {
    /// All that the caller answers, of which these are a part.
    pub meant: Meant,
    rows: BTreeMap<Vec<u8>, Answer>,
    asked: RefCell<Option<Question>>,
    ghost agrees: { AgreeOn meant.table (kept_answer rows) },
}

impl Answers {
    ghost use Rattle.std.specs.Prelude.{◌≡◌, None, IfOk, IfErr, IfSome, string_bytes};
    ghost use Rattle.std.specs.Option.{option_map};
    ghost use Rattle.fluent_values.specs.View.{value_view};
    ghost use Rattle.fluent_answers.specs.Records.{NotReadAsAnswers};
    ghost use Rattle.fluent_answers.specs.Answered.{AllAgree, answer_in, answer_view, text_answered};
    ghost use Rattle.fluent_answers.specs.Asked.{IsReadFrom, answered_in};
    ghost use Rattle.fluent_answers.specs.OwnContent.{own_content};

    /// Reads answers that stand one after the other. The first to a question stands.
    ///
    /// # Errors
    ///
    /// The first [`Fault`] from the start. No bytes take no memory.
    pub fn read(alloc: Global, meant: &Meant, bytes: &[u8]) -> Result<Answers, Fault>
        requires { AllAgree meant.now.table bytes.now }
        ensures table { IfOk result (λ answers. answers.meant.table ≡ meant.now.table) }
        ensures ok { IfOk result (IsReadFrom bytes.now) }
        ensures err { IfErr result (NotReadAsAnswers bytes.now) }
    {
        let list = match read_given(alloc, bytes) {
            Ok(list) => list,
            Err(fault) => return Err(fault),
        };
        let Ok(rows) = rows_of(alloc, list.as_slice()) else {
            return Err(Fault::Memory);
        };
        Ok(Answers {
            meant: meant.again(),
            rows,
            asked: RefCell::new(None),
        })
    }

    /// Takes the question that was not answered, if there is one.
    pub fn asked(&self) -> Option<Question>
        ensures { IfSome result (λ question. answered_in self.now question.bytes.items ≡ None) }
    {
        match self.asked.try_take() {
            Ok(Some(question)) if !self.rows.contains_key(question.bytes.as_slice()) => {
                Some(question)
            }
            _ => None,
        }
    }

    /// Keeps a question that was not answered.
    pub(crate) fn keep(&self, question: Question) {
        let _ = self.asked.try_replace(Some(question));
    }

    /// The value that was answered to a question, if it was.
    pub(crate) fn value<'a>(
        &self,
        alloc: Global,
        question: &[u8],
    ) -> Result<Option<FluentValue<'a, OwnValue>>, AllocError>
        ensures { IfOk result (λ found. IfSome found (λ v. value_view own_content v ≡ answer_in self.now.meant.table question.now)) }
    {
        let Some(answer) = self.rows.get(question) else {
            return Ok(None);
        };
        let value = value(alloc, answer.kind, answer.text.as_str())?;
        Ok(Some(value.into_owned(alloc)?))
    }

    /// The text that was answered to a question, if it was: nothing where the answer is no text.
    pub(crate) fn text(
        &self,
        alloc: Global,
        question: &[u8],
    ) -> Result<Option<Option<String>>, AllocError>
        ensures { IfOk result (λ found. IfSome found (λ text. option_map string_bytes text ≡ text_answered (answer_in self.now.meant.table question.now))) }
    {
        match self.value(alloc, question)? {
            Some(FluentValue::String(text)) => Ok(Some(Some(text.into_owned(alloc)?))),
            Some(_) => Ok(Some(None)),
            None => Ok(None),
        }
    }
}
