//! Why a source was not read without a fault.
ghost use Rattle.std.specs.Prelude.{◌≡◌};

use fluent_ast::ParserError;
use fluent_ast::ast::Resource;
use std::alloc::AllocError;

/// Why a source was not read without a fault.
#[derive(Debug, Drop)]
pub enum ParseFault<'s> {
    /// The tree, whole and usable, and an error for each Junk in it, in order: at least one.
    Parser(Resource<'s>, Vec<ParserError>),
    Memory,
}

impl<'s> From<AllocError> for ParseFault<'s> {
    ghost use Rattle.fluent_syntax.specs.declared.parser.errors.ParseFault.TheVariants.{Memory};

    ghost from_gives = { λ _ e. e ≡ Memory };

    fn from(_: AllocError) -> ParseFault<'s> {
        ParseFault::Memory
    }
}
