//! Runs of bytes.
ghost use Rattle.std.specs.Prelude.{◌≡◌, ◌+◌, ◌<◌, ◌≤◌, length, drop, slice_index, IfSome};
ghost use Rattle.fluent_text.specs.Parser as parser;
ghost use Rattle.fluent_text.specs.Reading.{passed};
ghost use Rattle.fluent_reasons.specs.ReasonRead.{class_test};

/// A set of bytes, each judged with the byte after it.
#[derive(Clone, Copy)]
pub enum Class {
    Identifier,
    Space,
    Text,
    Digit,
    /// The text of a string literal, escapes aside.
    Quoted,
    /// The name of a function.
    Function,
}

/// The byte at `index`, or 0 past the end.
#[inline(always)]
pub fn byte_at(s: &[u8], index: usize) -> u8
    ensures { result ≡ slice_index s.now index }
{
    match s.get(index) {
        Some(b) => *b,
        None => 0,
    }
}

/// What follows the next byte.
#[inline(always)]
pub fn over(s: &[u8]) -> &[u8]
    ensures { result.now ≡ drop 1 s.now }
{
    if s.is_empty() { s } else { &s[1..] }
}

/// What follows this byte.
#[inline(always)]
#[tactic(auto, unfolding(fluent_text::specs::Parser::byte))]
pub fn eat(s: &[u8], byte: u8) -> Option<&[u8]>
    ensures { passed result ≡ parser.byte byte s.now }
{
    if byte_at(s, 0) == byte {
        Some(over(s))
    } else {
        None
    }
}

#[inline(always)]
fn is_in(class: Class, byte: u8, next: u8) -> bool
    ensures { result ≡ class_test class byte next }
{
    match class {
        Class::Identifier => byte.is_ascii_alphanumeric() || byte == b'_' || byte == b'-',
        Class::Space => byte == b' ',
        Class::Digit => byte.is_ascii_digit(),
        Class::Function => {
            byte.is_ascii_uppercase() || byte.is_ascii_digit() || byte == b'_' || byte == b'-'
        }
        Class::Quoted => {
            byte != b'"' && byte != b'\\' && byte != b'\n' && !(byte == b'\r' && next == b'\n')
        }
        Class::Text => {
            byte != b'{' && byte != b'}' && byte != b'\n' && !(byte == b'\r' && next == b'\n')
        }
    }
}

/// How many bytes at the start are of the class.
#[tactic(auto, using(fluent_text::specs::Facts::Runs::the_runs))]
pub fn run_len(s: &[u8], class: Class) -> usize
    ensures len { result ≡ parser.run_len (class_test class) s.now }
    ensures within { result ≤ length s.now }
{
    'bytes: for at in 0..s.len() {
        if !is_in(class, s[at], byte_at(s, at + 1)) {
            return at;
        }
    }
    s.len()
}

/// What follows the bytes of the class at the start.
#[inline(always)]
pub fn after_run(s: &[u8], class: Class) -> &[u8]
    ensures { result.now ≡ drop (parser.run_len (class_test class) s.now) s.now }
{
    &s[run_len(s, class)..]
}
