//! What an id of a bundle names.
ghost use Rattle.std.specs.Prelude.{◌≡◌, IfSome, Option};
ghost use Rattle.std.specs.Option.{option_map};
ghost use Rattle.fluent_ast.specs.Tree.{Text};
ghost use Rattle.fluent_semantics.specs.Bundle.{Function, function_found};
ghost use Rattle.fluent_semantics.specs.Bundle as m;
ghost use Rattle.fluent_bundle_entries.specs.EntryView.{function_of, given_message, given_term, message_content, term_content};

use fluent_ast::ast;

/// What an id names: messages, terms and functions share one map. `Ids::named` gives it.
#[derive(Drop)]
pub enum Entry<'r, 's, F> {
    /// A message of a resource.
    Message(&'r ast::Message<'s>),
    /// A term of a resource; its id stands without the dash.
    Term(&'r ast::Term<'s>),
    /// A function of the application.
    Function(F),
    /// The built-in function `NUMBER`.
    Number,
}

/// A function that an id names.
#[derive(Clone, Copy, Debug, Drop)]
pub enum FunctionRef<'b, F> {
    /// A function of the application.
    Own(&'b F),
    /// The built-in function `NUMBER`.
    Number,
}

/// Look-ups of what an id names, by kind. They take no memory.
pub trait GetEntry<'s, F> {
    /// What an id names, by its content.
    ghost named: { Self → Text → Option (m.Entry Text) };

    /// What a function answers.
    ghost answer: { F → Function Text };

    /// The message that the id names, or `None`.
    fn get_entry_message(&self, id: &str) -> Option<&ast::Message<'s>>
        ensures content { given_message result ≡ message_content (named self.now id.now) }
        ensures own { IfSome result (λ x. x.now.id.name.now ≡ id.now) };

    /// The term that the id names, without its dash, or `None`.
    fn get_entry_term(&self, id: &str) -> Option<&ast::Term<'s>>
        ensures content { given_term result ≡ term_content (named self.now id.now) }
        ensures own { IfSome result (λ x. x.now.id.name.now ≡ id.now) };

    /// The function that the id names, or `None`.
    fn get_entry_function(&self, id: &str) -> Option<FunctionRef<'_, F>>
        ensures { option_map (function_of answer) result ≡ function_found (named self.now id.now) };
}
