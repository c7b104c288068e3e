//! The formatter of the caller's.
ghost use Rattle.std.specs.Prelude.{◌≡◌, IfOk};

use crate::answers::Answers;
use crate::own::OwnValue;
use crate::question::{Asker, Question};
use crate::questions::formatter_question;
use fluent_values::{FluentFormatter, FluentValue};
use std::alloc::{AllocError, Global};
use std::rc::Rc;

/// The formatter of the caller's, by what the caller has answered.
#[derive(Drop)]
pub struct AskedFormatter {
    answers: Option<Rc<Answers>>,
}

impl AskedFormatter {
    ghost use Rattle.fluent_answers.specs.Answered.{formatted_in};
    ghost use Rattle.fluent_answers.specs.Asked.{IsNewFormatter, formatter_of};

    /// A formatter before there are answers: no call of it succeeds.
    pub fn new() -> AskedFormatter
        ensures { IsNewFormatter result }
    {
        AskedFormatter { answers: None }
    }

    /// A formatter by answers.
    ///
    /// # Errors
    ///
    /// The answers are shared too often.
    pub fn by(answers: &Rc<Answers>) -> Result<AskedFormatter, AllocError>
        ensures { IfOk result (λ g. formatter_of g ≡ formatted_in answers.now.value.meant.table) }
    {
        let answers = answers.clone()?;
        Ok(AskedFormatter {
            answers: Some(answers),
        })
    }
}

impl<M> FluentFormatter<OwnValue, M> for AskedFormatter {
    ghost use Rattle.std.specs.Prelude.{IsErr};
    ghost use Rattle.fluent_values.specs.Shown.{IsFormatted};
    ghost use Rattle.fluent_answers.specs.Asked.{IsNewFormatter, formatter_of};
    ghost use Rattle.fluent_answers.specs.OwnContent.{own_content};

    ghost formatted = { λ g v _. formatter_of g v };

    fn format<'a>(
        &self,
        alloc: Global,
        value: &FluentValue<'a, OwnValue>,
        _intls: &M,
    ) -> Result<Option<String>, AllocError>
        ensures answer { IfOk result (IsFormatted own_content (formatter_of self.now) value.now) }
        ensures new { IsNewFormatter self.now → IsErr result }
    {
        let Some(answers) = &self.answers else {
            return Err(AllocError);
        };
        let bytes = formatter_question(alloc, value)?;
        match answers.text(alloc, bytes.as_slice())? {
            Some(text) => Ok(text),
            None => {
                let asker = Asker::Formatter;
                answers.keep(Question { asker, bytes });
                Err(AllocError)
            }
        }
    }
}
