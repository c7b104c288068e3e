//! How far the text of a line goes.
ghost use Rattle.std.specs.Prelude.{◌≡◌, ◌≤◌, length};
ghost use Rattle.memchr.specs.Find.{IsFirstByte, Nowhere, Passes, is_byte3};
ghost use Rattle.fluent_text.specs.Parser as parser;
ghost use Rattle.fluent_text.specs.Lexical.{is_text, is_inside};

use crate::parser::bytes::byte_at;
use crate::parser::lanes::{LANES, plain_lanes};
use memchr::memchr;

/// How many bytes at the start are text: up to a brace or the end of the line, which may be a carriage return and a line feed.
#[inline(always)]
pub fn text_len(s: &str) -> usize
    ensures { result ≡ parser.run_len is_text s.now }
{
    let next = byte_at(s, 0);
    if next == b'{' {
        return 0;
    }
    if next == b'\n' {
        return 0;
    }
    let bytes = s.as_bytes();
    let Some(at) = first_stop(bytes) else {
        return bytes.len();
    };
    if bytes[at] != b'\n' {
        return at;
    }
    if at == 0 {
        return 0;
    }
    if bytes[at - 1] == b'\r' {
        return at - 1;
    }
    at
}

/// The first line feed or brace. Most stand near, so sixteen bytes are looked at at once.
#[inline(always)]
fn first_stop(bytes: &[u8]) -> Option<usize>
    ensures { IsFirstByte (is_byte3 10 123 125) bytes.now result }
{
    let mut at = 0;
    'loads: while bytes.len() - at >= LANES {
        let run = plain_lanes(bytes, at);
        if run < LANES {
            return Some(at + run);
        }
        at += LANES;
    }
    stop_from(bytes, at)
}

/// The same after bytes that were passed, byte by byte.
#[inline(never)]
fn stop_from(bytes: &[u8], from: usize) -> Option<usize>
    requires within { from ≤ length bytes.now }
    requires passed { Nowhere (Passes (is_byte3 10 123 125) bytes.now) 0 from }
    ensures { IsFirstByte (is_byte3 10 123 125) bytes.now result }
{
    'tail: for at in from..bytes.len() {
        let byte = bytes[at];
        if byte == b'\n' || byte == b'{' || byte == b'}' {
            return Some(at);
        }
    }
    None
}

/// How many bytes at the start stand before a line feed.
pub fn line_len(s: &str) -> usize
    ensures { result ≡ parser.run_len is_inside s.now }
{
    let bytes = s.as_bytes();
    match memchr(b'\n', bytes) {
        Some(at) => at,
        None => bytes.len(),
    }
}
