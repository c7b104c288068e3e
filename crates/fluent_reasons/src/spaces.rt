//! Blanks and line ends.
ghost use Rattle.std.specs.Prelude.{◌≡◌, Some};
ghost use Rattle.fluent_text.specs.Parser as parser;
ghost use Rattle.fluent_text.specs.Lexical as lexical;
ghost use Rattle.fluent_text.specs.Reading.{passed};
ghost use Rattle.fluent_reasons.specs.Stopping.{past};

use crate::bytes::{Class, after_run, byte_at, eat};

/// What follows a line feed, or a carriage return and a line feed.
#[tactic(auto, unfolding(fluent_text::specs::Lexical::line_break))]
fn line_break(s: &[u8]) -> Option<&[u8]>
    ensures { passed result ≡ lexical.line_break s.now }
{
    if let Some(after_return) = eat(s, b'\r')
        && let Some(rest) = eat(after_return, b'\n')
    {
        return Some(rest);
    }
    eat(s, b'\n')
}

/// What follows a line end, or the end itself.
#[tactic(auto, unfolding(fluent_text::specs::Lexical::line_end))]
pub fn line_end(s: &[u8]) -> Option<&[u8]>
    ensures { passed result ≡ lexical.line_end s.now }
{
    if let Some(rest) = line_break(s) {
        return Some(rest);
    }
    if s.is_empty() { Some(s) } else { None }
}

/// After spaces.
#[tactic(auto, unfolding(fluent_text::specs::Lexical::blank_inline, fluent_text::specs::Parser::run1))]
pub fn after_spaces(s: &[u8]) -> &[u8]
    ensures { result.now ≡ past lexical.blank_inline s.now }
{
    after_run(s, Class::Space)
}

/// What follows spaces, or a line end.
#[tactic(auto, unfolding(fluent_text::specs::Lexical::blank_turn, fluent_text::specs::Lexical::blank_inline, fluent_text::specs::Parser::run1))]
fn blank_turn(s: &[u8]) -> Option<&[u8]>
    ensures { passed result ≡ lexical.blank_turn s.now }
{
    if byte_at(s, 0) == b' ' {
        return Some(after_run(s, Class::Space));
    }
    line_end(s)
}

/// After blanks and line ends.
#[tactic(auto, unfolding(fluent_text::specs::Lexical::blank))]
pub fn after_blank(s: &[u8]) -> &[u8]
    ensures { result.now ≡ past lexical.blank s.now }
{
    match blank_turn(s) {
        Some(rest) => {
            let (_, end) = more_blanks(rest);
            end
        }
        None => s,
    }
}

#[tactic(auto, using(fluent_text::specs::Facts::Turns::turns))]
fn more_blanks(s: &[u8]) -> (usize, &[u8])
    ensures { parser.count lexical.blank_turn s.now ≡ Some (result.0, result.1.now) }
{
    let mut count = 0;
    let mut rest = s;
    'blanks: for _turn in 0..s.len() {
        let Some(next) = blank_turn(rest) else {
            return (count, rest);
        };
        if next.len() >= rest.len() {
            return (count, rest);
        }
        count += 1;
        rest = next;
    }
    (count, rest)
}

#[tactic(auto, unfolding(fluent_text::specs::Lexical::blank_line))]
fn blank_line(s: &[u8]) -> Option<&[u8]>
    ensures { passed result ≡ lexical.blank_line s.now }
{
    line_end(after_spaces(s))
}

/// After blank lines.
#[tactic(auto, unfolding(fluent_text::specs::Lexical::blank_block))]
pub fn after_blank_block(s: &[u8]) -> &[u8]
    ensures { result.now ≡ past lexical.blank_block s.now }
{
    match blank_line(s) {
        Some(rest) => {
            let (_, end) = more_lines(rest);
            end
        }
        None => s,
    }
}

#[tactic(auto, using(fluent_text::specs::Facts::Turns::turns))]
fn more_lines(s: &[u8]) -> (usize, &[u8])
    ensures { parser.count lexical.blank_line s.now ≡ Some (result.0, result.1.now) }
{
    let mut count = 0;
    let mut rest = s;
    'lines: for _turn in 0..s.len() {
        let Some(next) = blank_line(rest) else {
            return (count, rest);
        };
        if next.len() >= rest.len() {
            return (count, rest);
        }
        count += 1;
        rest = next;
    }
    (count, rest)
}
