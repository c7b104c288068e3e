//! The language that serves one range.
ghost use Rattle.std.specs.Prelude.{◌≡◌, map};
ghost use Rattle.fluent_langneg.specs.Lookup.{lookup, index_of};

use crate::tags::{cut, is_same_tag};
use std::convert::AsStr;

/// Which of the available languages serves a language range, by the look-up of RFC 4647, section 3.4: its index among
/// them, from 0 on, or `None` where none does.
///
/// The language whose tag is the range serves it, and where there is none, one for what is left when the last subtag is
/// taken off, and again: `de-CH-1996` is served by `de-CH-1996`, `de-CH` or `de`, whichever is there first in this order.
/// A single letter or digit goes with the subtag after it. In tags and ranges letters are alike in either case, and so
/// are `-` and `_`. `*` is no language's tag, so nothing serves it.
///
/// It takes no memory, and goes over the languages once for each subtag.
pub fn lookup<A: AsStr>(available: &[A], range: &str) -> Option<usize>
    ensures { result ≡ lookup (map A.text available.now) range.now }
{
    let mut asked = range.as_bytes();
    loop {
        if let Some(index) = index_of(available, asked) {
            return Some(index);
        }
        asked = cut(asked)?;
    }
}

/// The index of the first language with this very tag.
fn index_of<A: AsStr>(available: &[A], tag: &[u8]) -> Option<usize>
    ensures { result ≡ index_of (map A.text available.now) tag.now }
{
    for (index, language) in available.iter().enumerate() {
        if is_same_tag(language.as_str().as_bytes(), tag) {
            return Some(index);
        }
    }
    None
}
