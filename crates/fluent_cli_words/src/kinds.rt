//! The kinds of findings.

ghost use Rattle.std.specs.Prelude.{◌≡◌, find, not, option_map};
ghost use Rattle.std.specs.List.{list_any};
ghost use Rattle.std.specs.Str.{bytes_eq};
ghost use Rattle.fluent_cli_words.specs.Faults.{is_kind};
ghost use Rattle.fluent_cli_words.specs.Given.{texts};

/// The names of the kinds of findings.
pub const KINDS: [&str; 27] = [
    "unreadable",
    "id-taken",
    "function-id",
    "repeated-attribute",
    "missing-message",
    "missing-attribute",
    "missing-value",
    "missing-term",
    "missing-term-attribute",
    "missing-function",
    "not-a-function",
    "cycle",
    "too-many-placeables",
    "may-open-too-many",
    "refers-to-unclean",
    "variable-not-given",
    "unused-argument",
    "not-a-number",
    "plural-category",
    "unused-category",
    "repeated-variant",
    "not-translated",
    "not-in-reference",
    "unknown-variable",
    "variable-left-out",
    "term-left-out",
    "function-left-out",
];

/// Whether a name is one of these.
fn is_among(name: &str, names: &[&str]) -> bool
    ensures { result ≡ list_any (λ one. bytes_eq one name.now) (texts names.now) }
{
    for one in names {
        if *one == name {
            return true;
        }
    }
    false
}

/// Whether there is a kind of finding of this name.
#[tactic(auto, unfolding(crate::specs::Faults::is_kind))]
fn is_kind(name: &str) -> bool
    ensures { result ≡ is_kind name.now }
{
    is_among(name, KINDS.as_slice())
}

/// The first name of no kind.
pub(crate) fn no_kind<'w>(names: &[&'w str]) -> Option<&'w str>
    ensures { option_map (λ name. name.now) result ≡ find (λ name. not (is_kind name)) (texts names.now) }
{
    for name in names {
        if !is_kind(*name) {
            return Some(*name);
        }
    }
    None
}
