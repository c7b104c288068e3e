//! Comments and Junk.
ghost use Rattle.std.specs.Prelude.{◌≡◌, Some};
ghost use Rattle.fluent_syntax.specs.Chunks as spec;
ghost use Rattle.fluent_text.specs.Parser as parser;
ghost use Rattle.fluent_text.specs.Reading.{passed};

use crate::parser::bytes::{Class, byte_at, eat, split_run};

/// What follows a comment line.
#[tactic(auto, unfolding(crate::specs::Chunks::comment_line))]
pub fn comment_line(s: &str) -> Option<&str>
    ensures { passed result ≡ spec.comment_line s.now }
{
    Some(rest_of_line(eat(s, b'#')?))
}

/// What follows Junk that begins here.
#[tactic(auto, unfolding(crate::specs::Chunks::junk))]
pub fn junk(s: &str) -> &str
    ensures { spec.junk s.now ≡ Some (tt, result.now) }
{
    let (_, rest) = more_junk(rest_of_line(s));
    rest
}

/// What follows the line's line feed, or the end.
#[tactic(auto, unfolding(crate::specs::Chunks::rest_of_line))]
fn rest_of_line(s: &str) -> &str
    ensures { spec.rest_of_line s.now ≡ Some (tt, result.now) }
{
    let (_, rest) = split_run(s, Class::Inside);
    match eat(rest, b'\n') {
        Some(next) => next,
        None => rest,
    }
}

#[tactic(auto, using(fluent_text::specs::Facts::Turns::turns))]
fn more_junk(s: &str) -> (usize, &str)
    ensures { parser.count spec.junk_line s.now ≡ Some (result.0, result.1.now) }
{
    let mut count = 0;
    let mut rest = s;
    'junk: for _turn in 0..s.len() {
        let Some(next) = junk_line(rest) else {
            return (count, rest);
        };
        if next.len() >= rest.len() {
            return (count, rest);
        }
        count += 1;
        rest = next;
    }
    (count, rest)
}

#[tactic(auto, unfolding(crate::specs::Chunks::junk_line))]
fn junk_line(s: &str) -> Option<&str>
    ensures { passed result ≡ spec.junk_line s.now }
{
    let byte = byte_at(s, 0);
    if s.is_empty() || byte == b'#' || byte == b'-' || byte.is_ascii_alphabetic() {
        return None;
    }
    Some(rest_of_line(s))
}
