//! A number's text while it is written, from its end to its start.

ghost use Rattle.std.specs.Prelude.{◌≡◌, ◌+◌, ◌<◌, ◌≤◌, [], ◌∷◌, ◌++◌, length, map, if◌then◌else◌};
ghost use Rattle.std.specs.Option.{ForSome};
ghost use Rattle.std.specs.Fmt.{decimal};
ghost use Rattle.std.specs.List.{range_with_len};
ghost use Rattle.fluent_intl.specs.Decimal.{place_digit, point_text};

use std::marker::Model;

/// The most bytes of a number's text: a minus, 20 digits, a point and 18 digits.
const LONGEST: usize = 40;

/// The text of a number. It stands in place and takes no memory; it is written from its end to its start.
#[derive(Drop)]
pub struct DecimalText {
    bytes: [u8; LONGEST],
    start: usize,
}

impl Model for DecimalText {
    ghost use Rattle.std.specs.Prelude.{◌≤◌, List, ℕ, drop};
    ghost use Rattle.std.specs.Str.{IsAscii};

    ghost Value = { List ℕ };

    ghost view = { λ b. drop b.start b.bytes };

    ghost invariant = { λ b. (b.start ≤ 40) × IsAscii (drop b.start b.bytes) };
}

impl DecimalText {
    /// No text.
    pub(super) fn new() -> DecimalText
        ensures { result ≡ [] }
    {
        DecimalText {
            bytes: [0; LONGEST],
            start: LONGEST,
        }
    }

    /// Writes a byte at the start.
    fn put(&mut self, byte: u8)
        requires ascii { byte < 128 }
        requires room { length self.old < 40 }
        ensures { self.new ≡ byte ∷ self.old }
    {
        self.start -= 1;
        self.bytes[self.start] = byte;
    }

    /// Writes the digits of a whole number at the start.
    pub(super) fn put_whole(&mut self, whole: u64)
        requires { length (decimal whole) + length self.old ≤ 40 }
        ensures { self.new ≡ decimal whole ++ self.old }
    {
        let mut rest = whole;
        while rest >= 10 {
            self.put(b'0' + (rest % 10) as u8);
            rest /= 10;
        }
        self.put(b'0' + rest as u8);
    }

    /// Writes a point and the first digits of a fraction at the start, or nothing where there are no places.
    pub(super) fn put_point(&mut self, fraction: u64, places: Option<usize>)
        requires few { ForSome places (λ count. count ≤ 18) }
        requires room { length self.old ≤ 20 }
        ensures value { self.new ≡ point_text fraction places ++ self.old }
        ensures room { length self.new ≤ length self.old + 19 }
    {
        if let Some(places) = places {
            self.put_places(fraction, places);
            self.put(b'.');
        }
    }

    /// Writes a minus at the start, where there is to be one.
    pub(super) fn put_sign(&mut self, minus: bool)
        requires { length self.old < 40 }
        ensures { self.new ≡ (if minus then 45 ∷ [] else []) ++ self.old }
    {
        if minus {
            self.put(b'-');
        }
    }

    /// Writes the first digits of a fraction at the start.
    fn put_places(&mut self, fraction: u64, places: usize)
        requires few { places ≤ 18 }
        requires room { places + length self.old ≤ 40 }
        ensures { self.new ≡ map (place_digit fraction) (range_with_len 1 places) ++ self.old }
    {
        let mut left = places;
        let mut rest = fraction / 10u64.pow(18 - places as u32);
        while left > 0 {
            self.put(b'0' + (rest % 10) as u8);
            rest /= 10;
            left -= 1;
        }
    }

    /// The text.
    pub fn as_str(&self) -> &str
        ensures { result.now ≡ self.now }
    {
        match str::from_utf8(&self.bytes[self.start..]) {
            Ok(text) => text,
            Err(_) => unreachable!(),
        }
    }
}
