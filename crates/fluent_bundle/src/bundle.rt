//! The bundle: messages, terms and functions by id, and its settings.
#![tactic(auto, unfolding(crate::specs::BundleView::bundle_parts))]

ghost use Rattle.std.specs.Prelude.{◌≡◌, ◌≤◌, ◌↔◌, is_some, map, None, [], IfOk, IsOk, OnOk, OnErr, IsTrue};
ghost use Rattle.std.specs.Option.{option_map};
ghost use Rattle.fluent_intl.specs.Plurals.{english};
ghost use Rattle.fluent_semantics.specs.Bundle.{add_builtins, add_function, add_resource, add_resource_overriding, after, answered, empty_bundle, set_formatter, set_placeable_limit, set_transform, set_use_isolating};
ghost use Rattle.fluent_bundle.specs.BundleView.{custom_by, entries_in, formatter_in, intls_in, message_at, message_entry_at, shown_by, transform_in, with_function, AnswersCall, AreUndetermined, KeepsSettings, KeepsLanguages};
ghost use Rattle.fluent_resource.specs.ResourceView.{entries_of};
ghost use Rattle.fluent_bundle_entries.specs.MessageView.{entry_seen, message_view};
ghost use Rattle.fluent_bundle_entries.specs.ErrorView.{error_view};
ghost use Rattle.fluent_bundle.specs.Inside.AddAnswers.{answer_of};

use fluent_bundle_entries::{Entry, FluentError, FluentMessage, FunctionRef, GetEntry, Ids};
use fluent_intl::{EnglishPlurals, LanguageIdentifier, MemoizerKind};
use fluent_resolver::Means;
use fluent_resource::FluentResource;
use fluent_syntax::ast;
use fluent_values::types::FluentType;
use fluent_values::{Context, FluentFormatter, FluentFunction, Transform};
use std::alloc::{AllocError, Global};
use std::borrow::CowStr;
use std::marker::PhantomData;

/// How many placeables one formatting call opens, where nothing else is set.
const DEFAULT_PLACEABLE_LIMIT: u32 = 100;

/// The largest limit on placeables that can be set.
const MAX_PLACEABLE_LIMIT: usize = 10_000;

/// Messages by id, from one resource or many, and the settings under which patterns are resolved.
///
/// It refers to its resources for `'r`; their sources live for `'s`. Two lifetimes, so that a resource made in
/// a function can be borrowed by a bundle made there. Its types: `M` chooses plural categories, `C` is a value of
/// the application's own, `F` a function, `G` a formatter, `T` a transform.
pub struct FluentBundle<'r, 's, M, C, F, G, T = Box<dyn Transform>> {
    /// The languages of the bundle, which nothing here reads.
    pub locales: Vec<LanguageIdentifier>,
    pub(crate) entries: Ids<'r, 's, F>,
    pub(crate) use_isolating: bool,
    pub(crate) transform: Option<T>,
    pub(crate) formatter: Option<G>,
    pub(crate) intls: M,
    pub(crate) placeable_limit: u32,
    pub(crate) custom: PhantomData<C>,
    pub(crate) alloc: Global,
}

// Written out, since a derived drop puts the drop of each part of a part into every proof that a bundle goes out of scope
// in: some twenty steps at each exit of a caller's function, where this is one.
impl<'r, 's: 'r, M: Drop, C, F: Drop, G: Drop, T: Drop> Drop
    for FluentBundle<'r, 's, M, C, F, G, T> {
    fn drop(self) {
        let FluentBundle {
            locales: _,
            entries: _,
            use_isolating: _,
            transform: _,
            formatter: _,
            intls: _,
            placeable_limit: _,
            custom: _,
            alloc: _,
        } = self;
    }
}

/// Why not everything was added.
#[derive(Drop)]
pub enum AddFault {
    /// Some ids were there: one error for each entry that was left, in order. All else was added.
    Overriding(Vec<FluentError>),
    /// An allocation failed, and nothing was added.
    Memory,
}

impl<
    'r,
    's,
    M: MemoizerKind,
    C: FluentType,
    F: FluentFunction<C>,
    G: FluentFormatter<C, M>,
    T: Transform,
> FluentBundle<'r, 's, M, C, F, G, T> {
    /// Makes a bundle with no messages, with isolation on, without transform and formatter, and with a limit of 100
    /// placeables. It keeps the allocator and takes no memory yet.
    pub fn new(alloc: Global, locales: Vec<LanguageIdentifier>, intls: M) -> Self
        ensures holds { (result.locales ≡ locales) × (intls_in result ≡ intls) }
        ensures unset { (transform_in result ≡ None) × (formatter_in result ≡ None) }
        ensures empty { ⟦<Self as Means>⟧.meaning result
            ≡ empty_bundle (M.category intls) (custom_by C.shown C.alike) }
    {
        FluentBundle {
            locales,
            entries: Ids::new(alloc),
            use_isolating: true,
            transform: None,
            formatter: None,
            intls,
            placeable_limit: DEFAULT_PLACEABLE_LIMIT,
            custom: PhantomData,
            alloc,
        }
    }

    /// What the bundle's ids name, which a scope is handed beside the bundle.
    pub fn ids(&self) -> &Ids<'r, 's, F>
        ensures { result.now ≡ entries_in self.now }
    {
        &self.entries
    }

    /// Says whether placeables are written between U+2068 and U+2069.
    pub fn set_use_isolating(&mut self, value: bool)
        ensures step { ⟦<Self as Means>⟧.meaning self.new
            ≡ after (set_use_isolating value) (⟦<Self as Means>⟧.meaning self.old) }
        ensures kept { KeepsSettings self.old self.new }
    {
        self.use_isolating = value;
    }

    /// Sets what changes text elements; `None` leaves them as they are. The transform that was set is dropped.
    pub fn set_transform(&mut self, transform: Option<T>)
        ensures step { ⟦<Self as Means>⟧.meaning self.new
            ≡ after (set_transform (option_map T.changed transform)) (⟦<Self as Means>⟧.meaning self.old) }
        ensures set { transform_in self.new ≡ transform }
        ensures kept { KeepsLanguages self.old self.new }
        ensures formatter { formatter_in self.new ≡ formatter_in self.old }
    {
        self.transform = transform;
    }

    /// Sets what is asked how a value is shown; `None` shows each value by its own text. The formatter that was
    /// set is dropped.
    pub fn set_formatter(&mut self, formatter: Option<G>)
        ensures step { ⟦<Self as Means>⟧.meaning self.new
            ≡ after (set_formatter (shown_by G.formatted (intls_in self.old) formatter)) (⟦<Self as Means>⟧.meaning self.old) }
        ensures set { formatter_in self.new ≡ formatter }
        ensures kept { KeepsLanguages self.old self.new }
        ensures transform { transform_in self.new ≡ transform_in self.old }
    {
        self.formatter = formatter;
    }

    /// Sets how many placeables one formatting call opens, 100 at first, and says whether that was done: a limit
    /// of 1 to 10,000 is set, any other leaves the bundle as it was.
    pub fn set_placeable_limit(&mut self, limit: usize) -> bool
        ensures step { ⟦<Self as Means>⟧.meaning self.new
            ≡ after (set_placeable_limit limit) (⟦<Self as Means>⟧.meaning self.old) }
        ensures set { IsTrue result ↔ ((1 ≤ limit) × (limit ≤ 10000)) }
        ensures kept { KeepsSettings self.old self.new }
    {
        let is_allowed = limit >= 1 && limit <= MAX_PLACEABLE_LIMIT;
        if is_allowed {
            self.placeable_limit = limit as u32;
        }
        is_allowed
    }

    /// How many placeables one formatting call opens.
    pub fn placeable_limit(&self) -> u32
        ensures { result ≡ (⟦<Self as Means>⟧.meaning self.now).limit }
    {
        self.placeable_limit
    }

    /// Adds the messages and terms of a resource in order. An entry whose id is there is left and reported. Junk is
    /// passed over.
    ///
    /// # Errors
    ///
    /// `Overriding` where an id was there, also from an earlier entry of the same resource: all others are added.
    /// `Memory` where an allocation failed, which a resource without entries can't meet: the bundle is as before.
    pub fn add_resource(&mut self, resource: &'r FluentResource<'s>) -> Result<(), AddFault>
        ensures step { AnswersCall (⟦<Self as Means>⟧.meaning self.old) (add_resource (entries_of resource.now))
            (⟦<Self as Means>⟧.meaning self.new) result }
        ensures kept { KeepsSettings self.old self.new }
        ensures empty { entries_of resource.now ≡ [] → IsOk result }
    {
        all_added(self.take_resource(resource))
    }

    /// Adds what has a free id, and gives the reports of what has none.
    fn take_resource(
        &mut self,
        resource: &'r FluentResource<'s>,
    ) -> Result<Vec<FluentError>, AllocError>
        ensures ok { OnOk result (⟦<Self as Means>⟧.meaning self.new
            ≡ after (add_resource (entries_of resource.now)) (⟦<Self as Means>⟧.meaning self.old)) }
        ensures errors { IfOk result (λ left. map error_view left.items
            ≡ answered (add_resource (entries_of resource.now)) (⟦<Self as Means>⟧.meaning self.old)) }
        ensures err { OnErr result (⟦<Self as Means>⟧.meaning self.new ≡ ⟦<Self as Means>⟧.meaning self.old) }
        ensures kept { KeepsSettings self.old self.new }
        ensures empty { entries_of resource.now ≡ [] → IsOk result }
    {
        let entries = resource.all();
        if entries.is_empty() {
            return Ok(Vec::new(self.alloc));
        }
        fluent_adding::add_entries(self.alloc, &mut self.entries, entries)
    }

    /// Adds the messages and terms of a resource in order, each in place of what had its id, a function too. Junk
    /// is passed over.
    ///
    /// # Errors
    ///
    /// An allocation failed: the bundle is as before.
    pub fn add_resource_overriding(
        &mut self,
        resource: &'r FluentResource<'s>,
    ) -> Result<(), AllocError>
        ensures ok { OnOk result (⟦<Self as Means>⟧.meaning self.new
            ≡ after (add_resource_overriding (entries_of resource.now)) (⟦<Self as Means>⟧.meaning self.old)) }
        ensures err { OnErr result (⟦<Self as Means>⟧.meaning self.new ≡ ⟦<Self as Means>⟧.meaning self.old) }
        ensures kept { KeepsSettings self.old self.new }
    {
        fluent_adding::override_entries(self.alloc, &mut self.entries, resource.all())
    }

    /// Adds a function of the application under an id, which is copied.
    ///
    /// # Errors
    ///
    /// `Overriding` with one error where the id was there, `Memory` where an allocation failed: the bundle is as
    /// before, and the function is dropped.
    pub fn add_function(&mut self, id: &str, function: F) -> Result<(), AddFault>
        ensures step { AnswersCall (⟦<Self as Means>⟧.meaning self.old) (add_function id.now (F.answer function))
            (⟦<Self as Means>⟧.meaning self.new) result }
        ensures kept { KeepsSettings self.old self.new }
    {
        all_added(self.take_function(id, function))
    }

    /// Adds a function where its id is free, and gives the report where it is not.
    fn take_function(&mut self, id: &str, function: F) -> Result<Vec<FluentError>, AllocError>
        ensures ok { OnOk result (⟦<Self as Means>⟧.meaning self.new
            ≡ after (add_function id.now (F.answer function)) (⟦<Self as Means>⟧.meaning self.old)) }
        ensures errors { IfOk result (λ left. map error_view left.items
            ≡ answered (add_function id.now (F.answer function)) (⟦<Self as Means>⟧.meaning self.old)) }
        ensures err { OnErr result (⟦<Self as Means>⟧.meaning self.new ≡ ⟦<Self as Means>⟧.meaning self.old) }
        ensures kept { KeepsSettings self.old self.new }
    {
        let id = CowStr::Owned(String::from_str(self.alloc, id)?);
        fluent_adding::add_function(self.alloc, &mut self.entries, id, function)
    }

    /// Puts a function of the application under an id, which is copied, in place of what had it: also a message or a term.
    ///
    /// # Errors
    ///
    /// An allocation failed: the bundle is as before, and the function is dropped.
    pub fn override_function(&mut self, id: &str, function: F) -> Result<(), AllocError>
        ensures ok { OnOk result (⟦<Self as Means>⟧.meaning self.new
            ≡ with_function id.now (F.answer function) (⟦<Self as Means>⟧.meaning self.old)) }
        ensures err { OnErr result (⟦<Self as Means>⟧.meaning self.new ≡ ⟦<Self as Means>⟧.meaning self.old) }
        ensures kept { KeepsSettings self.old self.new }
    {
        let id = CowStr::Owned(String::from_str(self.alloc, id)?);
        fluent_adding::override_function(&mut self.entries, id, function)
    }

    /// Adds the function `NUMBER`, which gives a number the options in its named arguments.
    ///
    /// # Errors
    ///
    /// `Overriding` with one error where the id `NUMBER` was there, `Memory` where an allocation failed: the bundle
    /// is as before.
    pub fn add_builtins(&mut self) -> Result<(), AddFault>
        ensures step { AnswersCall (⟦<Self as Means>⟧.meaning self.old) add_builtins
            (⟦<Self as Means>⟧.meaning self.new) result }
        ensures kept { KeepsSettings self.old self.new }
    {
        let id = CowStr::Borrowed("NUMBER");
        all_added(fluent_adding::add_number(self.alloc, &mut self.entries, id))
    }

    /// Whether the id names a message. Takes no memory.
    pub fn has_message(&self, id: &str) -> bool
        ensures { result ≡ is_some (message_at id.now (⟦<Self as Means>⟧.meaning self.now)) }
    {
        self.get_message(id).is_some()
    }

    /// The message that the id names, or `None`. Takes no memory.
    pub fn get_message(&self, id: &str) -> Option<FluentMessage<'r, 's>>
        ensures content { option_map message_view result ≡ message_at id.now (⟦<Self as Means>⟧.meaning self.now) }
        ensures whole { option_map entry_seen result ≡ message_entry_at id.now (⟦<Self as Means>⟧.meaning self.now) }
    {
        match self.entries.named(id) {
            Some(Entry::Message(node)) => Some(FluentMessage::from(*node)),
            _ => None,
        }
    }
}

impl<
    'r,
    's,
    C: FluentType,
    F: FluentFunction<C>,
    G: FluentFormatter<C, EnglishPlurals>,
    T: Transform,
> FluentBundle<'r, 's, EnglishPlurals, C, F, G, T> {
    /// Makes a bundle with English plural rules, as `new` does. Its one locale is the undetermined one.
    ///
    /// # Errors
    ///
    /// An allocation failed.
    pub fn new_default(alloc: Global) -> Result<Self, AllocError>
        ensures empty { IfOk result (λ b. ⟦<Self as Means>⟧.meaning b
            ≡ empty_bundle english (custom_by C.shown C.alike)) }
        ensures locales { IfOk result (λ b. AreUndetermined b.locales.items) }
        ensures unset { IfOk result (λ b. (transform_in b ≡ None) × (formatter_in b ≡ None)) }
    {
        let mut locales = Vec::new(alloc);
        locales.push(LanguageIdentifier::und(alloc))?;
        Ok(FluentBundle::new(alloc, locales, EnglishPlurals))
    }
}

impl<
    'r,
    's: 'r,
    M: MemoizerKind,
    C: FluentType,
    F: FluentFunction<C>,
    G: FluentFormatter<C, M>,
    T: Transform,
> GetEntry<'s, F> for FluentBundle<'r, 's, M, C, F, G, T> {
    ghost use Rattle.std.specs.Prelude.{Some};
    ghost use Rattle.fluent_semantics.specs.Arguments.{get};
    ghost use Rattle.fluent_semantics.specs.Bundle.{function_found, number_builtin};
    ghost use Rattle.fluent_bundle_entries.specs.EntryView.{ids};
    ghost use Rattle.fluent_bundle.specs.BundleView.{function_seen};

    // The ids of what the bundle means.
    ghost named = { λ b id. get id (ids F.answer (entries_in b)) };

    ghost answer = { F.answer };

    fn get_entry_message(&self, id: &str) -> Option<&ast::Message<'s>> {
        match self.entries.named(id) {
            Some(Entry::Message(message)) => Some(*message),
            _ => None,
        }
    }

    fn get_entry_term(&self, id: &str) -> Option<&ast::Term<'s>> {
        match self.entries.named(id) {
            Some(Entry::Term(term)) => Some(*term),
            _ => None,
        }
    }

    fn get_entry_function(&self, id: &str) -> Option<FunctionRef<'_, F>>
        ensures answer { function_seen F.answer result
            ≡ function_found (get id.now (⟦<Self as Means>⟧.meaning self.now).ids) }
        ensures builtin { (result ≡ Some FunctionRef.Number)
            ↔ (get id.now (⟦<Self as Means>⟧.meaning self.now).ids ≡ Some number_builtin) }
    {
        match self.entries.named(id) {
            Some(Entry::Function(function)) => Some(FunctionRef::Own(function)),
            Some(Entry::Number) => Some(FunctionRef::Number),
            _ => None,
        }
    }
}

/// What an adding call answers, by the reports of what it left.
fn all_added(left: Result<Vec<FluentError>, AllocError>) -> Result<(), AddFault>
    ensures { result ≡ answer_of left }
{
    match left {
        Ok(errors) => {
            if errors.is_empty() {
                Ok(())
            } else {
                Err(AddFault::Overriding(errors))
            }
        }
        Err(_) => Err(AddFault::Memory),
    }
}
