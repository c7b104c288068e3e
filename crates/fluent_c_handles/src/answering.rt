//! The caller's functions, formatter and transform answer as one call says.
ghost use Rattle.std.specs.Prelude.{◌≡◌, [], ◌∷◌, map, is_some, string_bytes, OnOk, OnErr};
ghost use Rattle.fluent_semantics.specs.Arguments.{get};
ghost use Rattle.fluent_bundle.specs.BundleView.{KeepsSettings, formatter_in, transform_in};
ghost use Rattle.fluent_c_handles.specs.Answers.{bundle_view};
ghost use Rattle.fluent_c_handles.specs.Family.{is_asked};
ghost use Rattle.fluent_c_handles.specs.Inside.Put.{PutsSome, changed_by, shown_by, with_functions};

use crate::opening::Asking;
use fluent_answers::{Answers, AskedFormatter, AskedFunction, AskedTransform};
use fluent_bundle::Entry;
use std::alloc::{AllocError, Global};
use std::rc::Rc;

/// Has each name that stands for a function of the caller's answer so.
pub(crate) fn put_functions(
    alloc: Global,
    bundle: &mut Asking<'_, '_>,
    names: &[String],
    answers: &Rc<Answers>,
) -> Result<(), AllocError>
    ensures ok { OnOk result (bundle_view bundle.new
        ≡ with_functions answers.now.value.meant.table (map string_bytes names.now) (bundle_view bundle.old)) }
    ensures some { PutsSome answers.now.value.meant.table (map string_bytes names.now) (bundle_view bundle.old) (bundle_view bundle.new) }
    ensures kept { KeepsSettings bundle.old bundle.new }
{
    for name in names {
        put_function(alloc, bundle, name.as_str(), answers)?;
    }
    Ok(())
}

/// The same of one name.
fn put_function(
    alloc: Global,
    bundle: &mut Asking<'_, '_>,
    name: &str,
    answers: &Rc<Answers>,
) -> Result<(), AllocError>
    ensures ok { OnOk result (bundle_view bundle.new
        ≡ with_functions answers.now.value.meant.table (name.now ∷ []) (bundle_view bundle.old)) }
    ensures err { OnErr result (bundle_view bundle.new ≡ bundle_view bundle.old) }
    ensures kept { KeepsSettings bundle.old bundle.new }
{
    if is_function(bundle, name) {
        let function = AskedFunction::by(alloc, name, answers)?;
        bundle.override_function(name, function)?;
    }
    Ok(())
}

/// Whether a name stands for a function of the caller's.
fn is_function(bundle: &Asking<'_, '_>, name: &str) -> bool
    ensures { result ≡ is_asked (get name.now (bundle_view bundle.now).ids) }
{
    match bundle.ids().named(name) {
        Some(Entry::Function(_)) => true,
        _ => false,
    }
}

/// Has the formatter answer so, where there is one.
pub(crate) fn put_formatter(
    bundle: &mut Asking<'_, '_>,
    on: bool,
    answers: &Rc<Answers>,
) -> Result<(), AllocError>
    requires { is_some (formatter_in bundle.old) ≡ on }
    ensures ok { OnOk result (bundle_view bundle.new ≡ shown_by answers.now.value.meant.table on (bundle_view bundle.old)) }
    ensures err { OnErr result (bundle_view bundle.new ≡ bundle_view bundle.old) }
    ensures formatter { is_some (formatter_in bundle.new) ≡ on }
    ensures transform { transform_in bundle.new ≡ transform_in bundle.old }
{
    if on {
        let formatter = AskedFormatter::by(answers)?;
        bundle.set_formatter(Some(formatter));
    }
    Ok(())
}

/// Has the transform answer so, where there is one.
pub(crate) fn put_transform(
    bundle: &mut Asking<'_, '_>,
    on: bool,
    answers: &Rc<Answers>,
) -> Result<(), AllocError>
    requires { is_some (transform_in bundle.old) ≡ on }
    ensures ok { OnOk result (bundle_view bundle.new ≡ changed_by answers.now.value.meant.table on (bundle_view bundle.old)) }
    ensures err { OnErr result (bundle_view bundle.new ≡ bundle_view bundle.old) }
    ensures transform { is_some (transform_in bundle.new) ≡ on }
    ensures formatter { formatter_in bundle.new ≡ formatter_in bundle.old }
{
    if on {
        let transform = AskedTransform::by(answers)?;
        bundle.set_transform(Some(transform));
    }
    Ok(())
}
