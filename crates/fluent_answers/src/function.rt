//! A function of the caller's.
ghost use Rattle.std.specs.Prelude.{◌≡◌, IfOk};

use crate::answers::Answers;
use crate::own::OwnValue;
use crate::question::{Asker, Question};
use crate::questions::function_question;
use fluent_values::{FluentArgs, FluentFunction, FluentValue};
use std::alloc::{AllocError, Global};
use std::rc::Rc;

/// A function of the caller's, by its name and what the caller has answered.
#[derive(Drop)]
pub struct AskedFunction {
    name: String,
    answers: Option<Rc<Answers>>,
}

impl AskedFunction {
    ghost use Rattle.fluent_answers.specs.Answered.{function_in};
    ghost use Rattle.fluent_answers.specs.Asked.{IsNewFunction, function_of};

    /// A function before there are answers: no call of it succeeds.
    pub fn new(alloc: Global, name: &str) -> Result<AskedFunction, AllocError>
        ensures { IfOk result IsNewFunction }
    {
        let name = String::from_str(alloc, name)?;
        Ok(AskedFunction {
            name,
            answers: None,
        })
    }

    /// A function by answers.
    ///
    /// # Errors
    ///
    /// An allocation failed, or the answers are shared too often.
    pub fn by(alloc: Global, name: &str, answers: &Rc<Answers>) -> Result<AskedFunction, AllocError>
        ensures { IfOk result (λ f. function_of f ≡ function_in answers.now.value.meant.table name.now) }
    {
        let name = String::from_str(alloc, name)?;
        let answers = answers.clone()?;
        Ok(AskedFunction {
            name,
            answers: Some(answers),
        })
    }
}

impl FluentFunction<OwnValue> for AskedFunction {
    ghost use Rattle.std.specs.Prelude.{IsErr};
    ghost use Rattle.fluent_values.specs.Answers.{IsAnswer};
    ghost use Rattle.fluent_answers.specs.Asked.{IsNewFunction, function_of};
    ghost use Rattle.fluent_answers.specs.OwnContent.{own_content};

    ghost answer = { function_of };

    fn call<'a>(
        &self,
        alloc: Global,
        positional: &[FluentValue<'a, OwnValue>],
        arguments: &FluentArgs<'a, OwnValue>,
    ) -> Result<FluentValue<'a, OwnValue>, AllocError>
        ensures answer { IfOk result (IsAnswer own_content (function_of self.now) positional.now arguments.now) }
        ensures new { IsNewFunction self.now → IsErr result }
    {
        let Some(answers) = &self.answers else {
            return Err(AllocError);
        };
        let bytes = function_question(alloc, self.name.as_str(), positional, arguments)?;
        match answers.value(alloc, bytes.as_slice())? {
            Some(value) => Ok(value),
            None => {
                let asker = Asker::Function(String::from_str(alloc, self.name.as_str())?);
                answers.keep(Question { asker, bytes });
                Err(AllocError)
            }
        }
    }
}
