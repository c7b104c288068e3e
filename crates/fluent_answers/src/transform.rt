//! The transform of the caller's.
ghost use Rattle.std.specs.Prelude.{◌≡◌, IfOk};

use crate::answers::Answers;
use crate::question::{Asker, Question};
use crate::questions::transform_question;
use fluent_values::Transform;
use std::alloc::{AllocError, Global};
use std::rc::Rc;

/// The transform of the caller's, by what the caller has answered.
#[derive(Drop)]
pub struct AskedTransform {
    answers: Option<Rc<Answers>>,
}

impl AskedTransform {
    ghost use Rattle.fluent_answers.specs.Answered.{changed_in};
    ghost use Rattle.fluent_answers.specs.Asked.{IsNewTransform, transform_of};

    /// A transform before there are answers: no call of it succeeds.
    pub fn new() -> AskedTransform
        ensures { IsNewTransform result }
    {
        AskedTransform { answers: None }
    }

    /// A transform by answers.
    ///
    /// # Errors
    ///
    /// The answers are shared too often.
    pub fn by(answers: &Rc<Answers>) -> Result<AskedTransform, AllocError>
        ensures { IfOk result (λ t. transform_of t ≡ changed_in answers.now.value.meant.table) }
    {
        let answers = answers.clone()?;
        Ok(AskedTransform {
            answers: Some(answers),
        })
    }
}

impl Transform for AskedTransform {
    ghost use Rattle.std.specs.Prelude.{IsErr, string_bytes};
    ghost use Rattle.fluent_answers.specs.Asked.{IsNewTransform, transform_of};

    ghost changed = { transform_of };

    fn transform(&self, alloc: Global, text: &str) -> Result<String, AllocError>
        ensures answer { IfOk result (λ made. string_bytes made ≡ transform_of self.now text.now) }
        ensures new { IsNewTransform self.now → IsErr result }
    {
        let Some(answers) = &self.answers else {
            return Err(AllocError);
        };
        let bytes = transform_question(alloc, text)?;
        match answers.text(alloc, bytes.as_slice())? {
            Some(Some(changed)) => Ok(changed),
            Some(None) => String::from_str(alloc, text),
            None => {
                let asker = Asker::Transform;
                answers.keep(Question { asker, bytes });
                Err(AllocError)
            }
        }
    }
}
