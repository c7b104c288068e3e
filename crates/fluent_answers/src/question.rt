//! A question that a caller has not answered.
ghost use Rattle.fluent_answers.specs.Questions.{IsQuestion};

/// Who asks: a function by its name, the formatter, or the transform.
#[derive(Drop)]
pub enum Asker {
    Function(String),
    Formatter,
    Transform,
}

/// What is asked, in bytes, and who asks it.
#[derive(Drop)]
pub struct Question {
    pub asker: Asker,
    pub bytes: Vec<u8>,
    ghost is: { ∥ IsQuestion asker bytes.items ∥₁ },
}
