//! The ids of the messages of a bundle, a line each.
ghost use Rattle.std.specs.Prelude.{◌≡◌, IfOk, OnOk, string_bytes};
ghost use Rattle.fluent_resource.specs.ResourceView.{entries_of};
ghost use Rattle.fluent_c_handles.specs.Answers.{bundle_view, stock_content, unanswered};
ghost use Rattle.fluent_c_handles.specs.Inside.Gathered.{PutsId, PutsIds, texts_of};
ghost use Rattle.fluent_c_handles.specs.Inside.Resources.{ComeFrom};
ghost use Rattle.fluent_c_handles.specs.Calls.Finding.{id_lines, message_ids};

use crate::opening::Asking;
use crate::stock::Stock;
use fluent_bundle::FluentResource;
use fluent_syntax::ast;
use std::alloc::{AllocError, Global};
use std::collections::BTreeSet;

/// A resource that was added to a bundle.
#[derive(Clone, Copy, Debug, Drop)]
pub struct Added<'r, 's> {
    pub resource: &'r FluentResource<'s>,
}

/// The ids of the messages of a bundle, a line each, in the order of their bytes. The resources are those that the
/// bundle's messages come from.
///
/// # Errors
///
/// An allocation failed.
pub fn listed(
    alloc: Global,
    bundle: &Asking<'_, '_>,
    resources: &[Added<'_, '_>],
) -> Result<String, AllocError>
    requires { ComeFrom resources.now bundle.now }
    ensures { IfOk result (λ t. string_bytes t ≡ id_lines (message_ids (bundle_view bundle.now))) }
{
    let mut ids = BTreeSet::new(alloc);
    for added in resources {
        put_entries(bundle, added.resource, &mut ids)?;
    }
    lines(alloc, ids)
}

/// The same of a stock, whatever the caller answers.
///
/// # Errors
///
/// An allocation failed.
pub(crate) fn listed_of(alloc: Global, stock: &Stock<'_, '_>) -> Result<String, AllocError>
    ensures { IfOk result (λ t. string_bytes t ≡ id_lines (message_ids (unanswered (stock_content stock.now)))) }
{
    listed(alloc, &stock.bundle, stock.added.as_slice())
}

/// Puts the ids of the messages of a bundle that are among the entries of a resource beside others.
fn put_entries<'s>(
    bundle: &Asking<'_, '_>,
    resource: &FluentResource<'s>,
    ids: &mut BTreeSet<&'s str>,
) -> Result<(), AllocError>
    ensures { OnOk result (PutsIds (bundle_view bundle.now) (entries_of resource.now) ids.old ids.new) }
{
    for entry in resource.entries() {
        if let ast::Entry::Message(message) = entry {
            put(bundle, message.id.name, ids)?;
        }
    }
    Ok(())
}

/// Puts an id beside others where it names a message of the bundle.
fn put<'s>(
    bundle: &Asking<'_, '_>,
    id: &'s str,
    ids: &mut BTreeSet<&'s str>,
) -> Result<(), AllocError>
    ensures { OnOk result (PutsId (bundle_view bundle.now) id.now ids.old ids.new) }
{
    if bundle.has_message(id) {
        ids.insert(id)?;
    }
    Ok(())
}

/// A line for each id.
pub(crate) fn lines(alloc: Global, ids: BTreeSet<&str>) -> Result<String, AllocError>
    ensures { IfOk result (λ text. string_bytes text ≡ id_lines (texts_of ids.entry.keys)) }
{
    let mut text = String::new(alloc);
    for id in ids {
        text.push_str(id)?;
        text.push_str("\n")?;
    }
    Ok(text)
}
