//! String and number literals, which are kept as the source has them.
ghost use Rattle.std.specs.Prelude.{◌≡◌, ◌-◌, ◌≤◌, Some, length, take, drop};
ghost use Rattle.fluent_text.specs.Parser as parser;
ghost use Rattle.fluent_syntax.specs.Expressions as spec;
ghost use Rattle.fluent_syntax.specs.Inside.Parts as parts;
ghost use Rattle.fluent_text.specs.Reading.{found, passed};
ghost use Rattle.fluent_syntax.specs.Inside.Reading.{text_view};

use crate::parser::bytes::{Class, byte_at, eat, split_run};

/// What stands in `whole` before `rest`, which is its end.
fn before<'s>(whole: &'s str, rest: &str) -> &'s str
    requires within { length rest.now ≤ length whole.now }
    requires end { drop (length whole.now - length rest.now) whole.now ≡ rest.now }
    ensures { result.now ≡ take (length whole.now - length rest.now) whole.now }
{
    &whole[..whole.len() - rest.len()]
}

#[tactic(auto, unfolding(crate::specs::Expressions::hex_digit, fluent_text::specs::Parser::byte))]
fn hex_digit(s: &str) -> Option<&str>
    ensures { passed result ≡ spec.hex_digit s.now }
{
    let digit = byte_at(s, 0);
    if !digit.is_ascii_hexdigit() {
        return None;
    }
    eat(s, digit)
}

/// After so many hexadecimal digits.
#[tactic(auto, using(crate::specs::Facts::Literals::hex_turns))]
fn hex_digits(s: &str, count: usize) -> Option<&str>
    ensures { passed result ≡ spec.hex_digits count s.now }
{
    let mut rest = s;
    'digits: for _turn in 0..count {
        rest = hex_digit(rest)?;
    }
    Some(rest)
}

#[tactic(auto, unfolding(crate::specs::Expressions::escape))]
fn escape(s: &str) -> Option<&str>
    ensures { passed result ≡ spec.escape s.now }
{
    let rest = eat(s, b'\\')?;
    if let Some(after) = eat(rest, b'\\') {
        return Some(after);
    }
    if let Some(after) = eat(rest, b'"') {
        return Some(after);
    }
    if let Some(number) = eat(rest, b'u')
        && let Some(after) = hex_digits(number, 4)
    {
        return Some(after);
    }
    hex_digits(eat(rest, b'U')?, 6)
}

#[tactic(auto, unfolding(crate::specs::Expressions::quoted_turn, fluent_text::specs::Parser::run1))]
fn quoted_turn(s: &str) -> Option<&str>
    ensures { passed result ≡ spec.quoted_turn s.now }
{
    let (ordinary, rest) = split_run(s, Class::Quoted);
    if !ordinary.is_empty() {
        return Some(rest);
    }
    escape(s)
}

#[tactic(auto, using(fluent_text::specs::Facts::Turns::turns))]
fn quoted(s: &str) -> (usize, &str)
    ensures { parser.count spec.quoted_turn s.now ≡ Some (result.0, result.1.now) }
{
    let mut count = 0;
    let mut rest = s;
    'quoted: for _turn in 0..s.len() {
        let Some(next) = quoted_turn(rest) else {
            return (count, rest);
        };
        if next.len() >= rest.len() {
            return (count, rest);
        }
        count += 1;
        rest = next;
    }
    (count, rest)
}

/// The text between the quotes.
#[inline(always)]
#[tactic(auto, unfolding(crate::specs::Expressions::string_literal))]
pub fn string_literal<'s>(s: &'s str) -> Option<(&'s str, &'s str)>
    ensures { found text_view result ≡ spec.string_literal s.now }
{
    quoted_text(eat(s, b'"')?)
}

/// The text after a quote, up to the next.
#[inline(never)]
fn quoted_text<'s>(s: &'s str) -> Option<(&'s str, &'s str)>
    ensures { found text_view result ≡ parts.quoted_text s.now }
{
    let (_, end) = quoted(s);
    let rest = eat(end, b'"')?;
    Some((before(s, end), rest))
}

#[tactic(auto, unfolding(crate::specs::Expressions::digits, fluent_text::specs::Parser::run1))]
fn digits(s: &str) -> Option<&str>
    ensures { passed result ≡ parser.ignore spec.digits s.now }
{
    let (digits, rest) = split_run(s, Class::Digit);
    if digits.is_empty() {
        return None;
    }
    Some(rest)
}

#[tactic(auto, unfolding(crate::specs::Expressions::number_parts))]
fn number_parts(s: &str) -> Option<&str>
    ensures { passed result ≡ spec.number_parts s.now }
{
    let positive = match eat(s, b'-') {
        Some(rest) => rest,
        None => s,
    };
    let whole = digits(positive)?;
    if let Some(point) = eat(whole, b'.')
        && let Some(fraction) = digits(point)
    {
        return Some(fraction);
    }
    Some(whole)
}

/// A number as the source has it.
#[tactic(auto, unfolding(crate::specs::Expressions::number_literal))]
pub fn number_literal<'s>(s: &'s str) -> Option<(&'s str, &'s str)>
    ensures { found text_view result ≡ spec.number_literal s.now }
{
    let rest = number_parts(s)?;
    Some((before(s, rest), rest))
}
