//! Sources of plural categories.

pub use fluent_intl::{EnglishPlurals, MemoizerKind};
