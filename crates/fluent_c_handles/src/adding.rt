//! Resources that are added to a bundle.
ghost use Rattle.std.specs.Prelude.{◌≡◌, ◌≢◌, [], OnOk, OnErr};
ghost use Rattle.fluent_bundle.specs.BundleView.{KeepsSettings};
ghost use Rattle.fluent_resource.specs.ResourceView.{entries_of};
ghost use Rattle.fluent_c_handles.specs.Answers.{bundle_view};
ghost use Rattle.fluent_c_handles.specs.Inside.Resources.{with_all, with_free};

use crate::opening::Asking;
use fluent_bundle::{AddFault, FluentResource};
use std::alloc::AllocError;

/// Adds what has a free id.
pub(crate) fn add_free<'r, 's: 'r>(
    bundle: &mut Asking<'r, 's>,
    resource: &'r FluentResource<'s>,
) -> Result<(), AllocError>
    ensures ok { OnOk result (bundle_view bundle.new ≡ with_free resource.now (bundle_view bundle.old)) }
    ensures left { OnErr result (bundle_view bundle.new ≡ bundle_view bundle.old) }
    ensures some { OnErr result (entries_of resource.now ≢ []) }
    ensures kept { KeepsSettings bundle.old bundle.new }
{
    match bundle.add_resource(resource) {
        Ok(()) => Ok(()),
        Err(AddFault::Overriding(_)) => Ok(()),
        Err(AddFault::Memory) => Err(AllocError),
    }
}

/// Adds each entry in place of what has its id.
pub(crate) fn override_with<'r, 's: 'r>(
    bundle: &mut Asking<'r, 's>,
    resource: &'r FluentResource<'s>,
) -> Result<(), AllocError>
    ensures ok { OnOk result (bundle_view bundle.new ≡ with_all resource.now (bundle_view bundle.old)) }
    ensures left { OnErr result (bundle_view bundle.new ≡ bundle_view bundle.old) }
    ensures kept { KeepsSettings bundle.old bundle.new }
{
    bundle.add_resource_overriding(resource)
}
