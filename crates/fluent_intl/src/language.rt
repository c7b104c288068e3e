//! Names of languages.
ghost use Rattle.std.specs.Prelude.{◌≡◌, []};

use std::alloc::Global;

/// A language with its script, region and variants, each part as it is written in a language tag.
#[derive(Drop)]
pub struct LanguageIdentifier {
    pub language: Option<String>,
    pub script: Option<String>,
    pub region: Option<String>,
    pub variants: Vec<String>,
}

impl LanguageIdentifier {
    /// The undetermined language, which has no part. It takes no memory.
    pub fn und(alloc: Global) -> LanguageIdentifier
        ensures language { result.language ≡ None }
        ensures script { result.script ≡ None }
        ensures region { result.region ≡ None }
        ensures variants { result.variants.items ≡ [] }
    {
        LanguageIdentifier {
            language: None,
            script: None,
            region: None,
            variants: Vec::new(alloc),
        }
    }
}
