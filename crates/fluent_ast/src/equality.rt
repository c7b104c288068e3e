//! `==` of the types of the tree: equal contents, wherever they lie in memory.

use crate::ast::{
    Attribute, CallArguments, Entry, Expression, Identifier, InlineExpression, Message,
    NamedArgument, Pattern, PatternElement, Resource, Term, Variant, VariantKey,
};
use crate::same::{
    same_arguments, same_element, same_expression, same_inline, same_key, same_named, same_pattern,
    same_variant,
};
use crate::same_entries::{same_attribute, same_entries, same_entry, same_message, same_term};

impl<'s> PartialEq for Resource<'s> {
    ghost use Rattle.std.specs.Cmp.{partial_equiv_from_equiv};
    ghost use Rattle.fluent_ast.specs.Tree.{is_yes};
    ghost use Rattle.fluent_ast.specs.Same.{equivalent, entries_same};
    ghost use Rattle.fluent_ast.specs.View.{resource_view};

    ghost eq = { λ a b. is_yes (entries_same (resource_view a) (resource_view b)) };

    ghost laws = { partial_equiv_from_equiv (equivalent resource_view entries_same) };

    #[tactic(auto, using(crate::proofs::Decided::decided))]
    fn eq(&self, other: &Self) -> bool {
        same_entries(&self.body, &other.body)
    }
}

impl<'s> Eq for Resource<'s> {
    ghost use Rattle.fluent_ast.specs.Same.{equivalent, entries_same};
    ghost use Rattle.fluent_ast.specs.View.{resource_view};

    ghost laws = { equivalent resource_view entries_same };
}

impl<'s> PartialEq for Entry<'s> {
    ghost use Rattle.std.specs.Cmp.{partial_equiv_from_equiv};
    ghost use Rattle.fluent_ast.specs.Tree.{is_yes};
    ghost use Rattle.fluent_ast.specs.Same.{equivalent, entry_same};
    ghost use Rattle.fluent_ast.specs.View.{entry_view};

    ghost eq = { λ a b. is_yes (entry_same (entry_view a) (entry_view b)) };

    ghost laws = { partial_equiv_from_equiv (equivalent entry_view entry_same) };

    #[tactic(auto, using(crate::proofs::Decided::decided))]
    fn eq(&self, other: &Self) -> bool {
        same_entry(self, other)
    }
}

impl<'s> Eq for Entry<'s> {
    ghost use Rattle.fluent_ast.specs.Same.{equivalent, entry_same};
    ghost use Rattle.fluent_ast.specs.View.{entry_view};

    ghost laws = { equivalent entry_view entry_same };
}

impl<'s> PartialEq for Message<'s> {
    ghost use Rattle.std.specs.Cmp.{partial_equiv_from_equiv};
    ghost use Rattle.fluent_ast.specs.Tree.{is_yes};
    ghost use Rattle.fluent_ast.specs.Same.{equivalent, entry_same};
    ghost use Rattle.fluent_ast.specs.View.{message_view};

    ghost eq = { λ a b. is_yes (entry_same (message_view a) (message_view b)) };

    ghost laws = { partial_equiv_from_equiv (equivalent message_view entry_same) };

    #[tactic(auto, using(crate::proofs::Decided::decided))]
    fn eq(&self, other: &Self) -> bool {
        same_message(self, other)
    }
}

impl<'s> Eq for Message<'s> {
    ghost use Rattle.fluent_ast.specs.Same.{equivalent, entry_same};
    ghost use Rattle.fluent_ast.specs.View.{message_view};

    ghost laws = { equivalent message_view entry_same };
}

impl<'s> PartialEq for Term<'s> {
    ghost use Rattle.std.specs.Cmp.{partial_equiv_from_equiv};
    ghost use Rattle.fluent_ast.specs.Tree.{is_yes};
    ghost use Rattle.fluent_ast.specs.Same.{equivalent, entry_same};
    ghost use Rattle.fluent_ast.specs.View.{term_view};

    ghost eq = { λ a b. is_yes (entry_same (term_view a) (term_view b)) };

    ghost laws = { partial_equiv_from_equiv (equivalent term_view entry_same) };

    #[tactic(auto, using(crate::proofs::Decided::decided))]
    fn eq(&self, other: &Self) -> bool {
        same_term(self, other)
    }
}

impl<'s> Eq for Term<'s> {
    ghost use Rattle.fluent_ast.specs.Same.{equivalent, entry_same};
    ghost use Rattle.fluent_ast.specs.View.{term_view};

    ghost laws = { equivalent term_view entry_same };
}

impl<'s> PartialEq for Attribute<'s> {
    ghost use Rattle.std.specs.Cmp.{partial_equiv_from_equiv};
    ghost use Rattle.fluent_ast.specs.Tree.{is_yes};
    ghost use Rattle.fluent_ast.specs.Same.{equivalent, attribute_same};
    ghost use Rattle.fluent_ast.specs.View.{attribute_view};

    ghost eq = { λ a b. is_yes (attribute_same (attribute_view a) (attribute_view b)) };

    ghost laws = { partial_equiv_from_equiv (equivalent attribute_view attribute_same) };

    #[tactic(auto, using(crate::proofs::Decided::decided))]
    fn eq(&self, other: &Self) -> bool {
        same_attribute(self, other)
    }
}

impl<'s> Eq for Attribute<'s> {
    ghost use Rattle.fluent_ast.specs.Same.{equivalent, attribute_same};
    ghost use Rattle.fluent_ast.specs.View.{attribute_view};

    ghost laws = { equivalent attribute_view attribute_same };
}

impl<'s> PartialEq for Identifier<'s> {
    ghost use Rattle.std.specs.Cmp.{partial_equiv_from_equiv};
    ghost use Rattle.fluent_ast.specs.Tree.{is_yes, text_same};
    ghost use Rattle.fluent_ast.specs.Same.{equivalent};
    ghost use Rattle.fluent_ast.specs.View.{name_view};

    ghost eq = { λ a b. is_yes (text_same (name_view a) (name_view b)) };

    ghost laws = { partial_equiv_from_equiv (equivalent name_view text_same) };

    #[tactic(auto, using(crate::proofs::Decided::decided))]
    fn eq(&self, other: &Self) -> bool {
        self.name == other.name
    }
}

impl<'s> Eq for Identifier<'s> {
    ghost use Rattle.fluent_ast.specs.Tree.{text_same};
    ghost use Rattle.fluent_ast.specs.Same.{equivalent};
    ghost use Rattle.fluent_ast.specs.View.{name_view};

    ghost laws = { equivalent name_view text_same };
}

impl<'s> PartialEq for Pattern<'s> {
    ghost use Rattle.std.specs.Cmp.{partial_equiv_from_equiv};
    ghost use Rattle.fluent_ast.specs.Tree.{is_yes, pattern_same};
    ghost use Rattle.fluent_ast.specs.Same.{equivalent};
    ghost use Rattle.fluent_ast.specs.View.{pattern_view};

    ghost eq = { λ a b. is_yes (pattern_same (pattern_view a) (pattern_view b)) };

    ghost laws = { partial_equiv_from_equiv (equivalent pattern_view pattern_same) };

    #[tactic(auto, using(crate::proofs::Decided::decided))]
    fn eq(&self, other: &Self) -> bool {
        same_pattern(self, other)
    }
}

impl<'s> Eq for Pattern<'s> {
    ghost use Rattle.fluent_ast.specs.Tree.{pattern_same};
    ghost use Rattle.fluent_ast.specs.Same.{equivalent};
    ghost use Rattle.fluent_ast.specs.View.{pattern_view};

    ghost laws = { equivalent pattern_view pattern_same };
}

impl<'s> PartialEq for PatternElement<'s> {
    ghost use Rattle.std.specs.Cmp.{partial_equiv_from_equiv};
    ghost use Rattle.fluent_ast.specs.Tree.{is_yes};
    ghost use Rattle.fluent_ast.specs.Same.{equivalent, element_same};
    ghost use Rattle.fluent_ast.specs.View.{element_view};

    ghost eq = { λ a b. is_yes (element_same (element_view a) (element_view b)) };

    ghost laws = { partial_equiv_from_equiv (equivalent element_view element_same) };

    #[tactic(auto, using(crate::proofs::Decided::decided))]
    fn eq(&self, other: &Self) -> bool {
        same_element(self, other)
    }
}

impl<'s> Eq for PatternElement<'s> {
    ghost use Rattle.fluent_ast.specs.Same.{equivalent, element_same};
    ghost use Rattle.fluent_ast.specs.View.{element_view};

    ghost laws = { equivalent element_view element_same };
}

impl<'s> PartialEq for Expression<'s> {
    ghost use Rattle.std.specs.Cmp.{partial_equiv_from_equiv};
    ghost use Rattle.fluent_ast.specs.Tree.{is_yes};
    ghost use Rattle.fluent_ast.specs.Same.{equivalent, expression_same};
    ghost use Rattle.fluent_ast.specs.View.{expression_view};

    ghost eq = { λ a b. is_yes (expression_same (expression_view a) (expression_view b)) };

    ghost laws = { partial_equiv_from_equiv (equivalent expression_view expression_same) };

    #[tactic(auto, using(crate::proofs::Decided::decided))]
    fn eq(&self, other: &Self) -> bool {
        same_expression(self, other)
    }
}

impl<'s> Eq for Expression<'s> {
    ghost use Rattle.fluent_ast.specs.Same.{equivalent, expression_same};
    ghost use Rattle.fluent_ast.specs.View.{expression_view};

    ghost laws = { equivalent expression_view expression_same };
}

impl<'s> PartialEq for InlineExpression<'s> {
    ghost use Rattle.std.specs.Cmp.{partial_equiv_from_equiv};
    ghost use Rattle.fluent_ast.specs.Tree.{is_yes};
    ghost use Rattle.fluent_ast.specs.Same.{equivalent, inline_same};
    ghost use Rattle.fluent_ast.specs.View.{inline_view};

    ghost eq = { λ a b. is_yes (inline_same (inline_view a) (inline_view b)) };

    ghost laws = { partial_equiv_from_equiv (equivalent inline_view inline_same) };

    #[tactic(auto, using(crate::proofs::Decided::decided))]
    fn eq(&self, other: &Self) -> bool {
        same_inline(self, other)
    }
}

impl<'s> Eq for InlineExpression<'s> {
    ghost use Rattle.fluent_ast.specs.Same.{equivalent, inline_same};
    ghost use Rattle.fluent_ast.specs.View.{inline_view};

    ghost laws = { equivalent inline_view inline_same };
}

impl<'s> PartialEq for CallArguments<'s> {
    ghost use Rattle.std.specs.Cmp.{partial_equiv_from_equiv};
    ghost use Rattle.fluent_ast.specs.Tree.{is_yes};
    ghost use Rattle.fluent_ast.specs.Same.{equivalent, arguments_same};
    ghost use Rattle.fluent_ast.specs.View.{arguments_view};

    ghost eq = { λ a b. is_yes (arguments_same (arguments_view a) (arguments_view b)) };

    ghost laws = { partial_equiv_from_equiv (equivalent arguments_view arguments_same) };

    #[tactic(auto, using(crate::proofs::Decided::decided))]
    fn eq(&self, other: &Self) -> bool {
        same_arguments(self, other)
    }
}

impl<'s> Eq for CallArguments<'s> {
    ghost use Rattle.fluent_ast.specs.Same.{equivalent, arguments_same};
    ghost use Rattle.fluent_ast.specs.View.{arguments_view};

    ghost laws = { equivalent arguments_view arguments_same };
}

impl<'s> PartialEq for NamedArgument<'s> {
    ghost use Rattle.std.specs.Cmp.{partial_equiv_from_equiv};
    ghost use Rattle.fluent_ast.specs.Tree.{is_yes};
    ghost use Rattle.fluent_ast.specs.Same.{equivalent, named_same};
    ghost use Rattle.fluent_ast.specs.View.{named_view};

    ghost eq = { λ a b. is_yes (named_same (named_view a) (named_view b)) };

    ghost laws = { partial_equiv_from_equiv (equivalent named_view named_same) };

    #[tactic(auto, using(crate::proofs::Decided::decided))]
    fn eq(&self, other: &Self) -> bool {
        same_named(self, other)
    }
}

impl<'s> Eq for NamedArgument<'s> {
    ghost use Rattle.fluent_ast.specs.Same.{equivalent, named_same};
    ghost use Rattle.fluent_ast.specs.View.{named_view};

    ghost laws = { equivalent named_view named_same };
}

impl<'s> PartialEq for Variant<'s> {
    ghost use Rattle.std.specs.Cmp.{partial_equiv_from_equiv};
    ghost use Rattle.fluent_ast.specs.Tree.{is_yes};
    ghost use Rattle.fluent_ast.specs.Same.{equivalent, variant_same};
    ghost use Rattle.fluent_ast.specs.View.{variant_view};

    ghost eq = { λ a b. is_yes (variant_same (variant_view a) (variant_view b)) };

    ghost laws = { partial_equiv_from_equiv (equivalent variant_view variant_same) };

    #[tactic(auto, using(crate::proofs::Decided::decided))]
    fn eq(&self, other: &Self) -> bool {
        same_variant(self, other)
    }
}

impl<'s> Eq for Variant<'s> {
    ghost use Rattle.fluent_ast.specs.Same.{equivalent, variant_same};
    ghost use Rattle.fluent_ast.specs.View.{variant_view};

    ghost laws = { equivalent variant_view variant_same };
}

impl<'s> PartialEq for VariantKey<'s> {
    ghost use Rattle.std.specs.Cmp.{partial_equiv_from_equiv};
    ghost use Rattle.fluent_ast.specs.Tree.{is_yes, key_same};
    ghost use Rattle.fluent_ast.specs.Same.{equivalent};
    ghost use Rattle.fluent_ast.specs.View.{key_view};

    ghost eq = { λ a b. is_yes (key_same (key_view a) (key_view b)) };

    ghost laws = { partial_equiv_from_equiv (equivalent key_view key_same) };

    #[tactic(auto, using(crate::proofs::Decided::decided))]
    fn eq(&self, other: &Self) -> bool {
        same_key(self, other)
    }
}

impl<'s> Eq for VariantKey<'s> {
    ghost use Rattle.fluent_ast.specs.Tree.{key_same};
    ghost use Rattle.fluent_ast.specs.Same.{equivalent};
    ghost use Rattle.fluent_ast.specs.View.{key_view};

    ghost laws = { equivalent key_view key_same };
}
