//! Runs of bytes.
ghost use Rattle.std.specs.Prelude.{◌≡◌, ◌+◌, ◌<◌, ◌≤◌, ℕ, true, Some, length, drop, slice_index, IfSome};
ghost use Rattle.fluent_text.specs.Parser as parser;
ghost use Rattle.fluent_text.specs.Lexical as spec;
ghost use Rattle.fluent_syntax.specs.Inside.Classes.{class_test};
ghost use Rattle.fluent_text.specs.Reading.{passed};

use crate::parser::lanes::{LANES, name_lanes, space_lanes};
use crate::parser::text::{line_len, text_len};

/// A set of bytes, each judged with the byte after it.
#[derive(Clone, Copy)]
pub enum Class {
    Identifier,
    Space,
    Text,
    Digit,
    /// All but a line feed.
    Inside,
    /// The text of a string literal, escapes aside.
    Quoted,
    /// The name of a function.
    Function,
}

/// The byte at `index`, or 0 past the end.
#[inline(always)]
pub fn byte_at(s: &str, index: usize) -> u8
    ensures { result ≡ slice_index s.now index }
{
    match s.as_bytes().get(index) {
        Some(b) => *b,
        None => 0,
    }
}

/// What follows this byte, which is ASCII.
#[inline(always)]
#[tactic(auto, unfolding(fluent_text::specs::Parser::byte))]
pub fn eat(s: &str, byte: u8) -> Option<&str>
    requires some { 0 < byte }
    requires ascii { byte < 128 }
    ensures gives { passed result ≡ parser.byte byte s.now }
    ensures shorter { IfSome result (λ rest. length rest.now < length s.now) }
{
    if byte_at(s, 0) == byte {
        Some(&s[1..])
    } else {
        None
    }
}

/// 1 for each byte that may stand in an identifier. One look-up takes the place of up to six comparisons, and names are
/// most of what is read byte by byte.
static NAME_BYTES: [u8; 256] = [
    0, 0, 0, 0, 0, 0, 0, 0, 0, 0, 0, 0, 0, 0, 0, 0, 0, 0, 0, 0, 0, 0, 0, 0, 0, 0, 0, 0, 0, 0, 0, 0,
    0, 0, 0, 0, 0, 0, 0, 0, 0, 0, 0, 0, 0, 1, 0, 0, 1, 1, 1, 1, 1, 1, 1, 1, 1, 1, 0, 0, 0, 0, 0, 0,
    0, 1, 1, 1, 1, 1, 1, 1, 1, 1, 1, 1, 1, 1, 1, 1, 1, 1, 1, 1, 1, 1, 1, 1, 1, 1, 1, 0, 0, 0, 0, 1,
    0, 1, 1, 1, 1, 1, 1, 1, 1, 1, 1, 1, 1, 1, 1, 1, 1, 1, 1, 1, 1, 1, 1, 1, 1, 1, 1, 0, 0, 0, 0, 0,
    0, 0, 0, 0, 0, 0, 0, 0, 0, 0, 0, 0, 0, 0, 0, 0, 0, 0, 0, 0, 0, 0, 0, 0, 0, 0, 0, 0, 0, 0, 0, 0,
    0, 0, 0, 0, 0, 0, 0, 0, 0, 0, 0, 0, 0, 0, 0, 0, 0, 0, 0, 0, 0, 0, 0, 0, 0, 0, 0, 0, 0, 0, 0, 0,
    0, 0, 0, 0, 0, 0, 0, 0, 0, 0, 0, 0, 0, 0, 0, 0, 0, 0, 0, 0, 0, 0, 0, 0, 0, 0, 0, 0, 0, 0, 0, 0,
    0, 0, 0, 0, 0, 0, 0, 0, 0, 0, 0, 0, 0, 0, 0, 0, 0, 0, 0, 0, 0, 0, 0, 0, 0, 0, 0, 0, 0, 0, 0, 0,
];

#[inline(always)]
#[tactic(auto, using(crate::proofs::NameBytes::name_bytes))]
fn is_name_byte(byte: u8) -> bool
    ensures { result ≡ spec.is_identifier_byte byte 0 }
{
    NAME_BYTES[byte as usize] != 0
}

/// How many bytes at the start may stand in an identifier. Most names end within sixteen bytes, which are looked at at
/// once. It stands by itself, so that what reads names stays small enough to be inlined.
#[inline(never)]
fn name_len(s: &str) -> usize
    ensures { result ≡ parser.run_len spec.is_identifier_byte s.now }
{
    let bytes = s.as_bytes();
    if bytes.len() <= LANES {
        return long_name_len(s, 0);
    }
    let at = name_lanes(bytes);
    if is_name_byte(bytes[at]) {
        return long_name_len(s, at);
    }
    at
}

/// The same, byte by byte from `from` on.
#[inline(never)]
fn long_name_len(s: &str, from: usize) -> usize
    requires within { from ≤ length s.now }
    requires passed { (k : ℕ) → k < from → spec.is_identifier_byte (slice_index s.now k) 0 ≡ true }
    ensures { result ≡ parser.run_len spec.is_identifier_byte s.now }
{
    let bytes = s.as_bytes();
    'name: for at in from..bytes.len() {
        if !is_name_byte(bytes[at]) {
            return at;
        }
    }
    bytes.len()
}

#[inline(always)]
fn is_in(class: Class, byte: u8, next: u8) -> bool
    ensures { result ≡ class_test class byte next }
{
    match class {
        Class::Identifier => is_name_byte(byte),
        Class::Space => byte == b' ',
        Class::Digit => byte.is_ascii_digit(),
        Class::Inside => byte != b'\n',
        Class::Function => {
            byte.is_ascii_uppercase() || byte.is_ascii_digit() || byte == b'_' || byte == b'-'
        }
        Class::Quoted => {
            byte != b'"' && byte != b'\\' && byte != b'\n' && !(byte == b'\r' && next == b'\n')
        }
        Class::Text => {
            byte != b'{' && byte != b'}' && byte != b'\n' && !(byte == b'\r' && next == b'\n')
        }
    }
}

/// How many bytes at the start are of the class.
#[inline(always)]
#[tactic(auto, using(fluent_text::specs::Facts::Runs::the_runs))]
pub fn run_len(s: &str, class: Class) -> usize
    ensures len { result ≡ parser.run_len (class_test class) s.now }
    ensures within { result ≤ length s.now }
{
    if let Class::Text = class {
        return text_len(s);
    }
    if let Class::Inside = class {
        return line_len(s);
    }
    if let Class::Identifier = class {
        return name_len(s);
    }
    let bytes = s.as_bytes();
    'bytes: for at in 0..bytes.len() {
        if !is_in(class, bytes[at], byte_at(s, at + 1)) {
            return at;
        }
    }
    bytes.len()
}

/// The longest prefix of the class, and the rest.
#[inline(always)]
pub fn split_run<'s>(s: &'s str, class: Class) -> (&'s str, &'s str)
    ensures parts { parser.run (class_test class) s.now ≡ Some (result.0.now, result.1.now) }
    ensures lens { length result.0.now + length result.1.now ≡ length s.now }
{
    s.split_at(run_len(s, class))
}

/// How many spaces a line begins with: mostly some, but fewer than sixteen, which are looked at at once.
#[inline(always)]
fn indent_len(s: &str) -> usize
    ensures { result ≡ parser.run_len spec.is_space s.now }
{
    let bytes = s.as_bytes();
    if bytes.len() <= LANES {
        return long_indent_len(s);
    }
    let at = space_lanes(bytes);
    if bytes[at] == b' ' {
        return long_indent_len(s);
    }
    at
}

/// The same, byte by byte.
#[inline(never)]
fn long_indent_len(s: &str) -> usize
    ensures { result ≡ parser.run_len spec.is_space s.now }
{
    run_len(s, Class::Space)
}

/// The spaces that a line begins with, and the rest.
#[inline(always)]
pub fn split_indent<'s>(s: &'s str) -> (&'s str, &'s str)
    ensures parts { parser.run spec.is_space s.now ≡ Some (result.0.now, result.1.now) }
    ensures lens { length result.0.now + length result.1.now ≡ length s.now }
{
    s.split_at(indent_len(s))
}
