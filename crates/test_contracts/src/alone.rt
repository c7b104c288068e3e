//! A message made by hand, as all that a bundle has.
use fluent_ast::ast::{Message, Term};
use fluent_bundle_entries::{FunctionRef, GetEntry};

/// A message that stands alone.
#[derive(Drop)]
pub struct Alone<'s> {
    pub message: Message<'s>,
}

/// It has no functions, so any type stands for theirs.
impl<'s> GetEntry<'s, u8> for Alone<'s> {
    ghost use Rattle.std.specs.Prelude.{◌≡◌, IfSome};
    ghost use Rattle.std.specs.Option.{option_map};
    ghost use Rattle.fluent_semantics.specs.Bundle.{function_found};
    ghost use Rattle.fluent_bundle_entries.specs.EntryView.{function_of, given_message, given_term, message_content, term_content};
    ghost use Rattle.test_contracts.specs.Alone.{answer, named};

    ghost named = { λ alone. named alone.message };

    ghost answer = { answer };

    fn get_entry_message(&self, id: &str) -> Option<&Message<'s>>
        ensures content { given_message result ≡ message_content (named self.now.message id.now) }
        ensures own { IfSome result (λ x. x.now.id.name.now ≡ id.now) }
    {
        if self.message.id.name == id {
            Some(&self.message)
        } else {
            None
        }
    }

    #[tactic(auto, using(crate::proofs::NoOther::no_term))]
    fn get_entry_term(&self, id: &str) -> Option<&Term<'s>>
        ensures content { given_term result ≡ term_content (named self.now.message id.now) }
        ensures own { IfSome result (λ x. x.now.id.name.now ≡ id.now) }
    {
        None
    }

    #[tactic(auto, using(crate::proofs::NoOther::no_function))]
    fn get_entry_function(&self, id: &str) -> Option<FunctionRef<'_, u8>>
        ensures { option_map (function_of answer) result ≡ function_found (named self.now.message id.now) }
    {
        None
    }
}
