//! What is wrong with the references of a pattern.

ghost use Rattle.std.specs.Prelude.{◌≡◌, IfOk};
ghost use Rattle.fluent_ast.specs.View.{pattern_view};
ghost use Rattle.fluent_places.specs.Asked.{texts};
ghost use Rattle.fluent_patterns.specs.Found.{flaws_in};
ghost use Rattle.fluent_patterns.specs.References.{reference_flaws};
ghost use Rattle.fluent_patterns.specs.Terms.{asks_of, AreOf};

use crate::finding::Flaw;
use crate::missing::add_missing;
use crate::numbers::add_no_numbers;
use crate::terms::{Terms, add_term_flaws};
use fluent_ast::ast::Pattern;
use fluent_bundle_entries::GetEntry;
use std::alloc::{AllocError, Global};

/// What is wrong with the references of a pattern: what is missing, where an application has these functions too; what
/// references to terms don't give them, and give them for nothing; and calls of `NUMBER` whose answer is no number,
/// whatever the arguments are.
///
/// # Errors
///
/// An allocation failed.
pub fn reference_flaws<'s, F, B: GetEntry<'s, F>>(
    alloc: Global,
    bundle: &B,
    functions: &[&str],
    terms: &Terms<'s>,
    pattern: &Pattern<'s>,
) -> Result<Vec<Flaw<'s>>, AllocError>
    requires { AreOf (B.named bundle.now) terms.now }
    ensures { IfOk result (λ flaws. flaws_in flaws
        ≡ reference_flaws (B.named bundle.now) (texts functions.now) (asks_of terms.now) (pattern_view pattern.now)) }
{
    let mut flaws: Vec<Flaw<'s>> = Vec::new(alloc);
    add_missing(alloc, bundle, functions, pattern, &mut flaws)?;
    add_term_flaws(alloc, bundle, terms, pattern, &mut flaws)?;
    add_no_numbers(alloc, pattern, &mut flaws)?;
    Ok(flaws)
}
