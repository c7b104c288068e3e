//! Escapes of string literals (Fluent Syntax 1.0, "Special Characters").

ghost use Rattle.std.specs.Prelude.{◌≡◌, ◌≢◌, ◌<◌, ◌≤◌, ◌++◌, ◌∷◌, take, drop, true, false, encode_utf8, List, ℕ, length, OnOk, OnErr, IfOk, MatchOption, IfSome, Some, string_bytes, zero};
ghost use Rattle.std.specs.Cow.{cow_str_bytes};
ghost use Rattle.std.specs.List.{All};
ghost use Rattle.fluent_text.specs.Escapes as spec;
ghost use Rattle.fluent_text.specs.Unescaped.{bytes_of, Borrows};
ghost use Rattle.fluent_text.specs.Reading.{found};
ghost use Rattle.fluent_text.specs.Taken.{ByWriter};
ghost use Rattle.fluent_text.specs.Writer.{CountsFault};
ghost use Rattle.fluent_text.specs.Written.{WroteAll, WroteLess, WrotePrefix};

use crate::bytes::{byte_at, eat, split_plain};
use crate::counting::{Counting, WriteFault};
use crate::writing::put;
use std::alloc::{AllocError, Global};
use std::borrow::CowStr;
use std::io::Write;

/// A part of a text: as the source has it, or what an escape means.
enum Unescaped<'s> {
    Plain(&'s str),
    Character(char),
}

/// Writes a quoted text with its escapes resolved, without taking memory.
///
/// `\\` and `\"` give their second character, `\u` with four and `\U` with six hexadecimal digits
/// the character of that number, or U+FFFD where there is none. A backslash that begins no escape
/// gives U+FFFD, and what stands after it is text.
///
/// The one error is a fault of the writer: `Writer` with its error, or `Zero` where a write took no byte.
/// After it the writer has taken a beginning of that text, but not the whole, and nothing is written any more.
pub fn unescape_unicode<W: Write>(w: &mut Counting<W>, text: &str) -> Result<(), WriteFault>
    ensures whole { OnOk result (WroteAll W.contents w.old w.new (spec.unescaped text.now)) }
    ensures prefix { OnErr result (WrotePrefix W.contents w.old w.new (spec.unescaped text.now)) }
    ensures left { OnErr result (WroteLess W.contents w.old w.new (spec.unescaped text.now)) }
    ensures fault { CountsFault w.old w.new result }
    ensures writer { ByWriter result }
{
    let mut rest = text;
    'parts: for _turn in 0..text.len() {
        let Some((part, after)) = next_part(rest) else {
            return Ok(());
        };
        put_part(w, part)?;
        rest = after;
    }
    Ok(())
}

fn put_part<W: Write>(w: &mut Counting<W>, part: Unescaped) -> Result<(), WriteFault>
    ensures whole { OnOk result (WroteAll W.contents w.old w.new (bytes_of part.entry)) }
    ensures prefix { OnErr result (WrotePrefix W.contents w.old w.new (bytes_of part.entry)) }
    ensures left { OnErr result (WroteLess W.contents w.old w.new (bytes_of part.entry)) }
    ensures fault { CountsFault w.old w.new result }
    ensures writer { ByWriter result }
{
    match part {
        Unescaped::Plain(text) => put(w, text.as_bytes()),
        Unescaped::Character(c) => put(w, c.encode_utf8(&mut [0; 4]).as_bytes()),
    }
}

/// A quoted text with its escapes resolved, as `unescape_unicode` writes it.
///
/// Where the text has no backslash, the answer is the text itself, borrowed: no memory is taken, and the call succeeds.
/// Elsewhere the answer is a new text, and the one error is that there was no memory for it.
pub fn unescape_unicode_to_string<'s>(
    alloc: Global,
    text: &'s str,
) -> Result<CowStr<'s>, AllocError>
    ensures text { IfOk result (λ c. cow_str_bytes c ≡ spec.unescaped text.now) }
    ensures borrowed { All (λ c. c ≢ 92) text.now → Borrows result text.now }
{
    let (plain, after) = split_plain(text);
    if after.is_empty() {
        return Ok(CowStr::Borrowed(plain));
    }
    Ok(CowStr::Owned(resolved(alloc, text)?))
}

fn resolved(alloc: Global, text: &str) -> Result<String, AllocError>
    ensures { IfOk result (λ s. string_bytes s ≡ spec.unescaped text.now) }
{
    let mut out = String::with_capacity(alloc, text.len())?;
    let mut rest = text;
    'parts: for _turn in 0..text.len() {
        let Some((part, after)) = next_part(rest) else {
            return Ok(out);
        };
        push_part(&mut out, part)?;
        rest = after;
    }
    Ok(out)
}

fn push_part(out: &mut String, part: Unescaped) -> Result<(), AllocError>
    ensures { OnOk result (string_bytes out.new ≡ string_bytes out.old ++ bytes_of part.entry) }
{
    match part {
        Unescaped::Plain(text) => out.push_str(text)?,
        Unescaped::Character(c) => out.push(c)?,
    }
    Ok(())
}

/// The part at the start, and what follows it.
#[tactic(auto, unfolding(crate::specs::Escapes::part, crate::specs::Parser::run1))]
fn next_part<'s>(text: &'s str) -> Option<(Unescaped<'s>, &'s str)>
    ensures gives { found bytes_of result ≡ spec.part text.now }
    ensures shorter { IfSome result (λ p. length p.1.now < length text.now) }
{
    let (plain, rest) = split_plain(text);
    if !plain.is_empty() {
        return Some((Unescaped::Plain(plain), rest));
    }
    Some(escape(eat(text, b'\\')?))
}

/// What stands after a backslash means, and what follows it.
#[tactic(auto, unfolding(crate::specs::Escapes::escape))]
fn escape<'s>(text: &'s str) -> (Unescaped<'s>, &'s str)
    ensures gives { spec.escape text.now ≡ Some (bytes_of result.0, result.1.now) }
    ensures shorter { length result.1.now ≤ length text.now }
{
    if let Some(rest) = eat(text, b'\\') {
        return (Unescaped::Plain("\\"), rest);
    }
    if let Some(rest) = eat(text, b'"') {
        return (Unescaped::Plain("\""), rest);
    }
    if let Some((c, rest)) = numbered(text, b'u', 4) {
        return (Unescaped::Character(c), rest);
    }
    if let Some((c, rest)) = numbered(text, b'U', 6) {
        return (Unescaped::Character(c), rest);
    }
    (Unescaped::Character(char::REPLACEMENT_CHARACTER), text)
}

/// The character of so many hexadecimal digits after a letter.
#[tactic(auto, unfolding(crate::specs::Escapes::numbered))]
fn numbered(text: &str, letter: u8, count: usize) -> Option<(char, &str)>
    requires some { 0 < letter }
    requires ascii { letter < 128 }
    requires digits { count ≤ 6 }
    ensures gives { found encode_utf8 result ≡ spec.numbered_after letter count text.now }
    ensures shorter { IfSome result (λ p. length p.1.now ≤ length text.now) }
{
    let (number, rest) = hex_number(eat(text, letter)?, count)?;
    Some((character(number), rest))
}

/// The character of this number, or U+FFFD.
fn character(number: u32) -> char
    ensures { encode_utf8 result ≡ spec.character number }
{
    match char::from_u32(number) {
        Some(c) => c,
        None => char::REPLACEMENT_CHARACTER,
    }
}

/// The number of so many hexadecimal digits at the start.
#[tactic(auto, using(crate::proofs::Hexadecimal::hex_turns))]
fn hex_number(text: &str, count: usize) -> Option<(u32, &str)>
    requires { count ≤ 6 }
    ensures gives { found (λ n. n) result ≡ spec.hex_number count 0 text.now }
    ensures shorter { IfSome result (λ p. length p.1.now ≤ length text.now) }
{
    let mut number = 0;
    let mut rest = text;
    'digits: for _turn in 0..count {
        let Some((digit, after)) = hex_digit(rest) else {
            return None;
        };
        number = number * 16 + digit;
        rest = after;
    }
    Some((number, rest))
}

#[tactic(auto, unfolding(crate::specs::Escapes::hex_digit, crate::specs::Parser::byte))]
fn hex_digit(text: &str) -> Option<(u32, &str)>
    ensures gives { found (λ n. n) result ≡ spec.hex_digit text.now }
    ensures digit { IfSome result (λ p. p.0 < 16) }
    ensures shorter { IfSome result (λ p. length p.1.now < length text.now) }
{
    let first = byte_at(text, 0);
    let digit = (first as char).to_digit(16)?;
    Some((digit, eat(text, first)?))
}
