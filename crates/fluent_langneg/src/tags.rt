//! Language tags, and language ranges that are cut from the end.
ghost use Rattle.std.specs.Prelude.{◌≡◌, ◌==◌, ◌∷◌, [], ◌<◌, ◌-◌, ◌&&◌, ◌||◌, not, length, slice_index, MatchOption, IfSome};
ghost use Rattle.fluent_intl.specs.LanguageTags.{alike, folded, is_separator, same_tag};
ghost use Rattle.fluent_langneg.specs.Lookup.{ends_in_single, tried};

/// A range without its last subtag, nor a single letter or digit that would stand last then; `None` where nothing is
/// left.
pub(crate) fn cut(range: &[u8]) -> Option<&[u8]>
    ensures shorter { IfSome result (λ prefix. length prefix.now < length range.now) }
    ensures steps { MatchOption result
        (tried range.now ≡ range.now ∷ [])
        (λ prefix. tried range.now ≡ range.now ∷ tried prefix.now) }
{
    for end in (0..range.len()).rev() {
        if is_separator(range[end]) && !ends_in_single(&range[..end]) {
            return Some(&range[..end]);
        }
    }
    None
}

/// Whether the last subtag is a single letter or digit.
fn ends_in_single(tag: &[u8]) -> bool
    ensures { result ≡ ends_in_single tag.now }
{
    let len = tag.len();
    len > 0 && !is_separator(tag[len - 1]) && (len == 1 || is_separator(tag[len - 2]))
}

/// Whether two tags are the same but for the case of letters, and `_` for `-`.
pub(crate) fn is_same_tag(a: &[u8], b: &[u8]) -> bool
    ensures { result ≡ same_tag a.now b.now }
{
    a.len() == b.len() && a.iter().zip(b).all(|(x, y)| folded(*x) == folded(*y))
}

/// Whether a subtag ends before this byte.
fn is_separator(byte: u8) -> bool
    ensures { result ≡ is_separator byte }
{
    folded(byte) == b'-'
}

/// A byte of a tag as it is compared.
fn folded(byte: u8) -> u8
    ensures { result ≡ folded byte }
{
    if byte == b'_' {
        b'-'
    } else {
        byte.to_ascii_lowercase()
    }
}
