//! The bytes at the start of a quoted text.
ghost use Rattle.std.specs.Prelude.{◌≡◌, ◌+◌, ◌<◌, ◌≤◌, Some, length, slice_index, IfSome};
ghost use Rattle.fluent_text.specs.Parser as parser;
ghost use Rattle.fluent_text.specs.Reading.{passed};
ghost use Rattle.fluent_text.specs.Lexical.{is_plain};

/// The byte at `index`, or 0 past the end.
pub fn byte_at(s: &str, index: usize) -> u8
    ensures { result ≡ slice_index s.now index }
{
    match s.as_bytes().get(index) {
        Some(b) => *b,
        None => 0,
    }
}

/// What follows this byte, which is ASCII.
#[tactic(auto, unfolding(crate::specs::Parser::byte))]
pub fn eat(s: &str, byte: u8) -> Option<&str>
    requires some { 0 < byte }
    requires ascii { byte < 128 }
    ensures gives { passed result ≡ parser.byte byte s.now }
    ensures shorter { IfSome result (λ rest. length rest.now < length s.now) }
{
    if byte_at(s, 0) == byte {
        Some(&s[1..])
    } else {
        None
    }
}

/// How many bytes stand before the first backslash.
#[tactic(auto, using(crate::specs::Facts::Runs::the_runs))]
fn plain_len(s: &str) -> usize
    ensures len { result ≡ parser.run_len is_plain s.now }
    ensures within { result ≤ length s.now }
{
    let bytes = s.as_bytes();
    'bytes: for at in 0..bytes.len() {
        if bytes[at] == b'\\' {
            return at;
        }
    }
    bytes.len()
}

/// What stands before the first backslash, and what it begins.
pub fn split_plain<'s>(s: &'s str) -> (&'s str, &'s str)
    ensures parts { parser.run is_plain s.now ≡ Some (result.0.now, result.1.now) }
    ensures lens { length result.0.now + length result.1.now ≡ length s.now }
{
    s.split_at(plain_len(s))
}
