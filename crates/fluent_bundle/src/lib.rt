//! Resources and bundles of Fluent, and what they report.
#![tactic(auto)]

pub mod bundle;
mod by_id;
mod calls;
pub mod examples;
mod formatting;
pub mod laws;
mod means;
mod messages;
pub mod resolver;

pub use bundle::{AddFault, FluentBundle};
pub use calls::Call;
pub use fluent_bundle_entries::{
    Attributes, Entry, EntryKind, FluentAttribute, FluentError, FluentMessage, FunctionRef,
    GetEntry, Ids, ReferenceKind,
};
pub use fluent_intl::{
    EnglishPlurals, LanguageIdentifier, MemoizerKind, NotANumber, OutOfRange, PluralCategory,
    PluralOperands, PluralRuleType,
};
pub use fluent_resource::{Entries, FluentResource, TryNewFault};
pub use fluent_syntax::{Counting, ParserError, WriteFault, ast};
pub use fluent_values::{
    AnswerRule, Answering, ArgsIntoIter, ArgsIter, FluentArgs, FluentFormatter, FluentFunction,
    FluentNumber, FluentNumberOptions, FluentType, FluentValue, FunctionOf, MergeArgs, NoCustom,
    NoFormatter, NoFunction, NoTransform, Transform, builtins, memoizer, types,
};
pub use messages::{FormattedAttribute, FormattedMessage};
pub use resolver::{Context, Means, ResolverError, Scope, category_word};
