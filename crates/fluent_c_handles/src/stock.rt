//! A bundle with its resources and their sources.
ghost use Rattle.std.specs.Prelude.{◌≡◌, IfOk, IfErr, OnOk, OnErr, None, [], map, is_some, string_bytes};
ghost use Rattle.std.specs.Str.{IsUtf8};
ghost use Rattle.fluent_syntax.specs.Chunks.{entries, junk_ranges};
ghost use Rattle.fluent_syntax.specs.Parsed.{error_range};
ghost use Rattle.fluent_bundle.specs.BundleView.{formatter_in, transform_in};
ghost use Rattle.fluent_resource.specs.ResourceView.{entries_of, source_in};
ghost use Rattle.fluent_c_handles.specs.Inside.Resources.{AreDeclared, ComeFrom};
ghost use Rattle.self_borrow.specs.Loans.{AreFor};

use crate::adding::{add_free, override_with};
use crate::answering::{put_formatter, put_functions, put_transform};
use crate::declared::Declared;
use crate::message_ids::Added;
use crate::opening::{Asking, OpenFault, Opened, open, open_by_rules};
use crate::shelves::Shelves;
use crate::sources::SourceFault;
use crate::telling::{told, told_overriding};
use fluent_answers::{Answers, AskedFormatter, AskedFunction, AskedTransform};
use fluent_bundle::{AddFault, FluentResource, ParserError};
use self_borrow::{Lifetime, Loan, Shelf};
use std::alloc::{AllocError, Global};
use std::rc::Rc;
use std::str;

/// A bundle with the resources that it borrows, and the sources that these borrow.
#[derive(Drop)]
pub struct Stock<'r, 's> {
    pub bundle: Asking<'r, 's>,
    /// What was told of the source that was added last.
    pub told: String,
    pub(crate) declared: Declared,
    pub(crate) added: Vec<Added<'r, 's>>,
    shelves: Shelves<'r, 's>,
    ghost from: { ComeFrom added.items bundle },
    ghost names: { AreDeclared declared.functions.items bundle },
    ghost shows: { is_some (formatter_in bundle) ≡ declared.formatter },
    ghost changes: { is_some (transform_in bundle) ≡ declared.transform },
}

impl<'r, 's: 'r> Stock<'r, 's> {
    ghost use Rattle.fluent_c_handles.specs.Answers.{NotOpenedByTag, OpenedByTag, bundle_view, language_rules, new_kept, stock_content};
    ghost use Rattle.fluent_c_handles.specs.Inside.Asking.{BuiltinsAdded, DeclaredAs, LimitSet};
    ghost use Rattle.fluent_c_handles.specs.Inside.Opened.{IsBare, OpensStock};
    ghost use Rattle.fluent_c_handles.specs.Calls.Declaring.{is_taken, with_declared, with_formatter, with_transform};
    ghost use Rattle.fluent_semantics.specs.Number.{is_text};
    ghost use Rattle.std.specs.List.{list_any};
    ghost use Rattle.std.specs.Prelude.{true, false};
    ghost use Rattle.fluent_c_handles.specs.Calls.Adding.{NotAdded, added_to, overridden_by};
    ghost use Rattle.fluent_c_handles.specs.Calls.Opening.{NotOpenedByRules, OpenedByRules};
    ghost use Rattle.fluent_resource.specs.ResourceView.{IsReadWith};

    /// A bundle by the tag of its language, without sources.
    ///
    /// # Errors
    ///
    /// As [`OpenFault`] says.
    pub(crate) fn open(
        alloc: Global,
        tag: &[u8],
        isolate: bool,
        bare: bool,
    ) -> Result<(Stock<'r, 's>, bool), OpenFault>
        ensures ok { IfOk result (λ r. OpensStock (OpenedByTag tag.now isolate bare) r.0) }
        ensures known { IfOk result (λ r. r.1 ≡ is_some (language_rules tag.now)) }
        ensures err { IfErr result (NotOpenedByTag tag.now) }
    {
        match open(alloc, tag, isolate, bare) {
            Ok(Opened { bundle, is_known }) => Ok((Stock::of(alloc, bundle), is_known)),
            Err(fault) => Err(fault),
        }
    }

    /// A bundle by the texts of its plural rules, without sources.
    ///
    /// # Errors
    ///
    /// As [`OpenFault`] says.
    pub(crate) fn open_by_rules(
        alloc: Global,
        cardinal: &[u8],
        ordinal: &[u8],
        isolate: bool,
    ) -> Result<Stock<'r, 's>, OpenFault>
        ensures ok { IfOk result (OpensStock (OpenedByRules cardinal.now ordinal.now isolate)) }
        ensures err { IfErr result (NotOpenedByRules cardinal.now ordinal.now) }
    {
        match open_by_rules(alloc, cardinal, ordinal, isolate) {
            Ok(bundle) => Ok(Stock::of(alloc, bundle)),
            Err(fault) => Err(fault),
        }
    }

    /// A bundle without sources.
    fn of(alloc: Global, bundle: Asking<'r, 's>) -> Stock<'r, 's>
        requires new { IsBare bundle }
        ensures { stock_content result ≡ new_kept (bundle_view bundle.entry) }
    {
        Stock {
            bundle,
            told: String::new(alloc),
            declared: Declared::none(alloc),
            added: Vec::new(alloc),
            shelves: Shelves::new(alloc),
        }
    }

    /// Reads a source, of which a copy is kept, and keeps the resource. It comes with an error for each part that can't be
    /// read.
    pub(crate) fn read(
        &mut self,
        alloc: Global,
        source: &[u8],
    ) -> Result<(&'r FluentResource<'s>, Vec<ParserError>), SourceFault>
        ensures ok { IfOk result (λ read. IsReadWith source.now read.0.now read.1) }
        ensures text { OnOk result (IsUtf8 source.now) }
        ensures err { IfErr result (NotAdded source.now) }
        ensures left { stock_content self.new ≡ stock_content self.old }
    {
        let Ok(text) = str::from_utf8(source) else {
            return Err(SourceFault::NotText);
        };
        match self.shelves.read(alloc, text) {
            Some(read) => Ok(read),
            None => Err(SourceFault::Memory),
        }
    }

    /// Adds what has a free id in a resource, and keeps what is told of it.
    pub(crate) fn put(
        &mut self,
        alloc: Global,
        resource: &'r FluentResource<'s>,
        unreadable: &[ParserError],
    ) -> Result<(), AllocError>
        requires read { entries_of resource.now ≡ entries (source_in resource.now) }
        requires unreadable { map error_range unreadable.now ≡ junk_ranges (source_in resource.now) }
        ensures ok { OnOk result (stock_content self.new ≡ added_to (source_in resource.now) (stock_content self.old)) }
        ensures left { OnErr result (stock_content self.new ≡ stock_content self.old) }
    {
        let told = told(alloc, &self.bundle, resource, unreadable)?;
        self.added.reserve(1)?;
        add_free(&mut self.bundle, resource)?;
        self.told = told;
        self.added.push_reserved(Added { resource });
        Ok(())
    }

    /// Adds the entries of a resource, each in place of what has its id, and keeps what is told of it.
    pub(crate) fn put_over(
        &mut self,
        alloc: Global,
        resource: &'r FluentResource<'s>,
        unreadable: &[ParserError],
    ) -> Result<(), AllocError>
        requires read { entries_of resource.now ≡ entries (source_in resource.now) }
        requires unreadable { map error_range unreadable.now ≡ junk_ranges (source_in resource.now) }
        ensures ok { OnOk result (stock_content self.new ≡ overridden_by (source_in resource.now) (stock_content self.old)) }
        ensures left { OnErr result (stock_content self.new ≡ stock_content self.old) }
    {
        let told = told_overriding(alloc, resource, unreadable)?;
        self.added.reserve(1)?;
        override_with(&mut self.bundle, resource)?;
        self.told = told;
        self.added.push_reserved(Added { resource });
        Ok(())
    }

    /// Whether an id names something.
    fn is_taken(&self, id: &str) -> bool
        ensures { result ≡ is_taken id.now (stock_content self.now) }
    {
        self.bundle.ids().named(id).is_some()
    }

    /// Has an id stand for a function of the caller's, and says whether that was done: in place of what has the id where `over` is
    /// set.
    pub(crate) fn declare_function(
        &mut self,
        alloc: Global,
        name: &str,
        over: bool,
    ) -> Result<bool, AllocError>
        ensures ok { IfOk result (DeclaredAs name.now over (stock_content self.old) (stock_content self.new)) }
        ensures err { OnErr result (stock_content self.new ≡ stock_content self.old) }
    {
        if !over && self.is_taken(name) {
            return Ok(false);
        }
        let function = AskedFunction::new(alloc, name)?;
        if self.declared.has(name) {
            self.declare_again(name, function)?;
        } else {
            self.declare_new(alloc, name, function)?;
        }
        Ok(true)
    }

    /// Has an id stand for a function whose name is known.
    fn declare_again(&mut self, name: &str, function: AskedFunction) -> Result<(), AllocError>
        requires { list_any (λ one. is_text name.now (string_bytes one)) self.old.declared.functions.items ≡ true }
        ensures ok { OnOk result (stock_content self.new ≡ with_declared name.now (stock_content self.old)) }
        ensures err { OnErr result (stock_content self.new ≡ stock_content self.old) }
    {
        self.bundle.override_function(name, function)?;
        Ok(())
    }

    /// Has an id stand for a function of a new name.
    fn declare_new(
        &mut self,
        alloc: Global,
        name: &str,
        function: AskedFunction,
    ) -> Result<(), AllocError>
        requires { list_any (λ one. is_text name.now (string_bytes one)) self.old.declared.functions.items ≡ false }
        ensures ok { OnOk result (stock_content self.new ≡ with_declared name.now (stock_content self.old)) }
        ensures err { OnErr result (stock_content self.new ≡ stock_content self.old) }
    {
        let copy = String::from_str(alloc, name)?;
        self.declared.functions.reserve(1)?;
        self.bundle.override_function(name, function)?;
        self.declared.functions.push_reserved(copy);
        Ok(())
    }

    /// Has the caller be asked how each value is shown, or not.
    pub(crate) fn declare_formatter(&mut self, on: bool)
        ensures { stock_content self.new ≡ with_formatter on (stock_content self.old) }
    {
        self.bundle.set_formatter(if on {
            Some(AskedFormatter::new())
        } else {
            None
        });
        self.declared.formatter = on;
    }

    /// Has the caller be asked what each text element becomes, or not.
    pub(crate) fn declare_transform(&mut self, on: bool)
        ensures { stock_content self.new ≡ with_transform on (stock_content self.old) }
    {
        self.bundle.set_transform(if on {
            Some(AskedTransform::new())
        } else {
            None
        });
        self.declared.transform = on;
    }

    /// Sets how many placeables one call opens, and says whether that was done.
    pub(crate) fn set_limit(&mut self, limit: usize) -> bool
        ensures { LimitSet limit (stock_content self.old) (stock_content self.new) result }
    {
        self.bundle.set_placeable_limit(limit)
    }

    /// Adds the function `NUMBER`, and says whether its id was free.
    pub(crate) fn add_builtins(&mut self) -> Result<bool, AllocError>
        ensures ok { IfOk result (BuiltinsAdded (stock_content self.old) (stock_content self.new)) }
        ensures err { OnErr result (stock_content self.new ≡ stock_content self.old) }
    {
        match self.bundle.add_builtins() {
            Ok(()) => Ok(true),
            Err(AddFault::Overriding(_)) => Ok(false),
            Err(AddFault::Memory) => Err(AllocError),
        }
    }

    /// Has the caller's functions, formatter and transform answer as one call says.
    pub(crate) fn answer_by(
        &mut self,
        alloc: Global,
        answers: &Rc<Answers>,
    ) -> Result<(), AllocError>
        ensures ok { OnOk result (bundle_view self.new.bundle ≡ (stock_content self.old).by answers.now.value.meant.table) }
        ensures kept { stock_content self.new ≡ stock_content self.old }
    {
        let names = self.declared.functions.as_slice();
        put_functions(alloc, &mut self.bundle, names, answers)?;
        put_formatter(&mut self.bundle, self.declared.formatter, answers)?;
        put_transform(&mut self.bundle, self.declared.transform, answers)
    }

    /// What is left once the bundle is dropped.
    pub(crate) fn into_parts(
        self,
    ) -> (
        Lifetime<'r>,
        Vec<Loan<FluentResource<'s>, Global>>,
        Shelf<'s, String>,
    )
        ensures { AreFor result.0.life result.1.items }
    {
        let Stock {
            bundle: _,
            told: _,
            declared: _,
            added: _,
            shelves,
        } = self;
        shelves.into_parts()
    }
}
