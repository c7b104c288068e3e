//! Messages and attributes as a caller sees them.
#![tactic(auto, unfolding(crate::specs::MessageView::message_view, crate::specs::MessageView::entry_seen, crate::specs::MessageView::attribute_content, crate::specs::MessageView::attributes_left))]

ghost use Rattle.std.specs.Prelude.{◌≡◌};
ghost use Rattle.std.specs.Option.{option_map};
ghost use Rattle.fluent_ast.specs.View.{pattern_view};
ghost use Rattle.fluent_bundle_entries.specs.MessageView.{attribute_content, attribute_named, attributes_left, message_view};

use fluent_ast::ast;
use std::slice::Iter;

/// A message of a resource. Two are equal where their contents are, their ids among them.
#[derive(Clone, Copy, Debug, Drop)]
pub struct FluentMessage<'m, 's> {
    node: &'m ast::Message<'s>,
}

impl<'m, 's> FluentMessage<'m, 's> {
    /// The value, which a message with attributes may lack.
    pub fn value(&self) -> Option<&'m ast::Pattern<'s>>
        ensures { option_map (λ p. pattern_view p.now) result ≡ (message_view self.now).value }
    {
        match &self.node.value {
            Some(pattern) => Some(pattern),
            None => None,
        }
    }

    /// The attributes in order.
    pub fn attributes(&self) -> Attributes<'m, 's>
        ensures { attributes_left result ≡ (message_view self.now).attributes }
    {
        Attributes {
            rest: self.node.attributes.iter(),
        }
    }

    /// The first attribute of the name, or `None` where none has it.
    pub fn get_attribute(&self, name: &str) -> Option<FluentAttribute<'m, 's>>
        ensures { option_map attribute_content result ≡ attribute_named name.now self.now }
    {
        for attribute in &self.node.attributes {
            if attribute.id.name == name {
                return Some(FluentAttribute::from(attribute));
            }
        }
        None
    }
}

impl<'m, 's> From<&'m ast::Message<'s>> for FluentMessage<'m, 's> {
    ghost use Rattle.fluent_bundle_entries.specs.MessageView.{IsOfMessage};

    ghost from_gives = { λ m made. IsOfMessage m.now made };

    fn from(node: &'m ast::Message<'s>) -> FluentMessage<'m, 's> {
        FluentMessage { node }
    }
}

impl<'m, 's> PartialEq for FluentMessage<'m, 's> {
    ghost use Rattle.std.specs.Cmp.{partial_equiv_from_equiv};
    ghost use Rattle.fluent_ast.specs.Tree.{is_yes};
    ghost use Rattle.fluent_ast.specs.Same.{equivalent, entry_same};
    ghost use Rattle.fluent_bundle_entries.specs.MessageView.{entry_seen};

    ghost eq = { λ a b. is_yes (entry_same (entry_seen a) (entry_seen b)) };

    ghost laws = { partial_equiv_from_equiv (equivalent entry_seen entry_same) };

    fn eq(&self, other: &FluentMessage<'m, 's>) -> bool {
        self.node == other.node
    }
}

impl<'m, 's> Eq for FluentMessage<'m, 's> {
    ghost use Rattle.fluent_ast.specs.Same.{equivalent, entry_same};
    ghost use Rattle.fluent_bundle_entries.specs.MessageView.{entry_seen};

    ghost laws = { equivalent entry_seen entry_same };
}

/// An attribute of a message. Two are equal where their contents are, their names among them.
#[derive(Clone, Copy, Debug, Drop)]
pub struct FluentAttribute<'m, 's> {
    node: &'m ast::Attribute<'s>,
}

impl<'m, 's> FluentAttribute<'m, 's> {
    /// The name.
    pub fn id(&self) -> &'s str
        ensures { result.now ≡ (attribute_content self.now).0 }
    {
        let node = self.node;
        node.id.name
    }

    /// The value.
    pub fn value(&self) -> &'m ast::Pattern<'s>
        ensures { pattern_view result.now ≡ (attribute_content self.now).1 }
    {
        &self.node.value
    }
}

impl<'m, 's> From<&'m ast::Attribute<'s>> for FluentAttribute<'m, 's> {
    ghost use Rattle.std.specs.Prelude.{◌≡◌};
    ghost use Rattle.fluent_ast.specs.View.{attribute_view};
    ghost use Rattle.fluent_bundle_entries.specs.MessageView.{attribute_content};

    ghost from_gives = { λ a result. attribute_content result ≡ attribute_view a.now };

    fn from(node: &'m ast::Attribute<'s>) -> FluentAttribute<'m, 's> {
        FluentAttribute { node }
    }
}

impl<'m, 's> PartialEq for FluentAttribute<'m, 's> {
    ghost use Rattle.std.specs.Cmp.{partial_equiv_from_equiv};
    ghost use Rattle.fluent_ast.specs.Tree.{is_yes};
    ghost use Rattle.fluent_ast.specs.Same.{equivalent, attribute_same};
    ghost use Rattle.fluent_bundle_entries.specs.MessageView.{attribute_content};

    ghost eq = { λ a b. is_yes (attribute_same (attribute_content a) (attribute_content b)) };

    ghost laws = { partial_equiv_from_equiv (equivalent attribute_content attribute_same) };

    fn eq(&self, other: &FluentAttribute<'m, 's>) -> bool {
        self.node == other.node
    }
}

impl<'m, 's> Eq for FluentAttribute<'m, 's> {
    ghost use Rattle.fluent_ast.specs.Same.{equivalent, attribute_same};
    ghost use Rattle.fluent_bundle_entries.specs.MessageView.{attribute_content};

    ghost laws = { equivalent attribute_content attribute_same };
}

/// The attributes of a message from the start.
#[derive(Debug, Drop)]
pub struct Attributes<'m, 's> {
    rest: Iter<'m, ast::Attribute<'s>>,
}

impl<'m, 's> Iterator for Attributes<'m, 's> {
    ghost use Rattle.std.specs.Prelude.{length};
    ghost use Rattle.std.specs.Iterator.{at_most};
    ghost use Rattle.fluent_bundle_entries.specs.MessageView.{attributes_left, GivesFirst};

    type Item = FluentAttribute<'m, 's>;

    ghost remaining = { λ a. at_most (length (attributes_left a)) };

    ghost next_gives = { GivesFirst };

    fn next(&mut self) -> Option<FluentAttribute<'m, 's>> {
        match self.rest.next() {
            Some(attribute) => Some(FluentAttribute::from(attribute)),
            None => None,
        }
    }
}
