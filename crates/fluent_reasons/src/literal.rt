//! Names, numbers and strings.
ghost use Rattle.std.specs.Prelude.{◌≡◌, take, slice_index};
ghost use Rattle.fluent_text.specs.Parser as parser;
ghost use Rattle.fluent_text.specs.Lexical.{is_identifier_byte};
ghost use Rattle.fluent_text.specs.Reading.{passed};
ghost use Rattle.fluent_syntax.specs.Expressions as expressions;
ghost use Rattle.fluent_reasons.specs.Reasons as spec;
ghost use Rattle.fluent_reasons.specs.Stopping.{repeated};
ghost use Rattle.fluent_reasons.specs.ReasonRead.{Passes, Gives, GivesTurn};

use crate::bytes::{Class, after_run, byte_at, eat, over, run_len};
use crate::expected::Expected;
use crate::kind::Kind;
use crate::spaces::after_spaces;
use crate::stop::{Stop, Turn};

#[tactic(auto, unfolding(fluent_text::specs::Lexical::identifier))]
pub fn identifier<'s>(s: &'s [u8]) -> Result<&'s [u8], Stop<'s>>
    ensures { Passes result (spec.identifier s.now) }
{
    if !byte_at(s, 0).is_ascii_alphabetic() {
        return Err(Stop::At(s, Expected::Letter));
    }
    Ok(after_run(s, Class::Identifier))
}

/// The name that a text begins with.
pub fn name_at<'s>(s: &'s [u8]) -> &'s [u8]
    ensures { result.now ≡ spec.name_at s.now }
{
    &s[..run_len(s, Class::Identifier)]
}

/// In upper case: capital letters, digits, `_` and `-`, a letter first.
pub fn is_function_name(name: &[u8]) -> bool
    ensures { result ≡ expressions.is_function_name name.now }
{
    byte_at(name, 0).is_ascii_uppercase() && run_len(name, Class::Function) == name.len()
}

#[tactic(auto, unfolding(fluent_text::specs::Parser::run1))]
fn digits<'s>(s: &'s [u8]) -> Result<&'s [u8], Stop<'s>>
    ensures { Passes result (spec.digits s.now) }
{
    let len = run_len(s, Class::Digit);
    if len == 0 {
        return Err(Stop::At(s, Expected::Digit));
    }
    Ok(&s[len..])
}

#[tactic(auto, unfolding(crate::specs::Reasons::number))]
pub fn number<'s>(s: &'s [u8]) -> Result<&'s [u8], Stop<'s>>
    ensures { Passes result (spec.number s.now) }
{
    let positive = match eat(s, b'-') {
        Some(rest) => rest,
        None => s,
    };
    let whole = digits(positive)?;
    if byte_at(whole, 0) == b'.' {
        return digits(over(whole));
    }
    Ok(whole)
}

#[tactic(auto, unfolding(fluent_syntax::specs::Expressions::hex_digit))]
fn hex_digit(s: &[u8]) -> Option<&[u8]>
    ensures { passed result ≡ expressions.hex_digit s.now }
{
    if !byte_at(s, 0).is_ascii_hexdigit() {
        return None;
    }
    Some(over(s))
}

/// After so many hexadecimal digits.
#[tactic(auto, using(fluent_syntax::specs::Facts::Literals::hex_turns))]
fn hex_digits(s: &[u8], count: usize) -> Option<&[u8]>
    ensures { passed result ≡ expressions.hex_digits count s.now }
{
    let mut rest = s;
    'digits: for _turn in 0..count {
        rest = hex_digit(rest)?;
    }
    Some(rest)
}

#[tactic(auto, unfolding(fluent_syntax::specs::Expressions::escape))]
fn escape(s: &[u8]) -> Option<&[u8]>
    ensures { passed result ≡ expressions.escape s.now }
{
    let rest = eat(s, b'\\')?;
    if let Some(after) = eat(rest, b'\\') {
        return Some(after);
    }
    if let Some(after) = eat(rest, b'"') {
        return Some(after);
    }
    if let Some(number) = eat(rest, b'u')
        && let Some(after) = hex_digits(number, 4)
    {
        return Some(after);
    }
    hex_digits(eat(rest, b'U')?, 6)
}

/// What an escape lacks.
fn escape_fault(s: &[u8]) -> Expected
    ensures { result ≡ spec.escape_fault s.now }
{
    if byte_at(s, 1) == b'u' || byte_at(s, 1) == b'U' {
        Expected::HexadecimalDigits
    } else {
        Expected::KnownEscape
    }
}

/// The text before an escape, and the escape.
#[tactic(auto, unfolding(crate::specs::Reasons::quoted_turn))]
fn quoted_turn<'s>(s: &'s [u8]) -> Result<Turn<'s>, Stop<'s>>
    ensures { GivesTurn result (spec.quoted_turn s.now) }
{
    let rest = after_run(s, Class::Quoted);
    if byte_at(rest, 0) != b'\\' {
        return Ok(Turn::Last(rest));
    }
    match escape(rest) {
        Some(after) => Ok(Turn::Again(after)),
        None => Err(Stop::At(rest, escape_fault(rest))),
    }
}

#[tactic(auto, using(crate::proofs::Turns::turns_of))]
fn quoted<'s>(s: &'s [u8]) -> Result<&'s [u8], Stop<'s>>
    ensures { Passes result (repeated spec.quoted_turn s.now) }
{
    let mut rest = s;
    'quoted: for _turn in 0..s.len() {
        let turn = quoted_turn(rest)?;
        match turn {
            Turn::Again(next) => rest = next,
            Turn::Last(end) => return Ok(end),
        }
    }
    Ok(rest)
}

/// A string, of which the first quote was seen.
#[tactic(auto, unfolding(crate::specs::Reasons::string))]
pub fn string<'s>(s: &'s [u8]) -> Result<&'s [u8], Stop<'s>>
    ensures { Passes result (spec.string s.now) }
{
    let end = quoted(over(s))?;
    eat(end, b'"').ok_or(Stop::At(end, Expected::ClosingQuote))
}

/// Whether a number begins here: a digit, or a dash before one.
pub fn begins_number(s: &[u8]) -> bool
    ensures { result ≡ spec.begins_number s.now }
{
    let byte = byte_at(s, 0);
    byte.is_ascii_digit() || (byte == b'-' && byte_at(s, 1).is_ascii_digit())
}

#[tactic(auto, unfolding(crate::specs::Reasons::literal))]
pub fn literal<'s>(s: &'s [u8]) -> Result<&'s [u8], Stop<'s>>
    ensures { Passes result (spec.literal s.now) }
{
    if byte_at(s, 0) == b'"' {
        return string(s);
    }
    if begins_number(s) {
        return number(s);
    }
    Err(Stop::At(s, Expected::Literal))
}

/// A name, the equals sign after it and the spaces round that.
#[tactic(auto, unfolding(crate::specs::Reasons::name_of_value))]
pub fn name_of_value<'s>(s: &'s [u8]) -> Result<&'s [u8], Stop<'s>>
    ensures { Passes result (spec.name_of_value s.now) }
{
    let rest = after_spaces(identifier(s)?);
    let value = eat(rest, b'=').ok_or(Stop::At(rest, Expected::EqualsSign))?;
    Ok(after_spaces(value))
}

/// The attribute after a name, if one is there, and what is referred to.
#[tactic(auto, unfolding(crate::specs::Reasons::attributed))]
pub fn attributed<'s>(s: &'s [u8], without: Kind, with: Kind) -> Result<(Kind, &'s [u8]), Stop<'s>>
    ensures { Gives (λ k. k) result (spec.attributed without with s.now) }
{
    if byte_at(s, 0) != b'.' {
        return Ok((without, s));
    }
    let rest = identifier(over(s))?;
    Ok((with, rest))
}
