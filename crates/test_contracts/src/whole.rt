//! A whole number that is put in and taken out as its own type is itself: it is put in by value first, and then borrowed.
ghost use Rattle.std.specs.Prelude.{◌≡◌};

use fluent_intl::FluentNumber;

pub fn again_i8(x: i8) -> i8
    ensures { result ≡ x }
{
    i8::from(FluentNumber::from(&i8::from(FluentNumber::from(x))))
}

pub fn again_i16(x: i16) -> i16
    ensures { result ≡ x }
{
    i16::from(FluentNumber::from(&i16::from(FluentNumber::from(x))))
}

pub fn again_i32(x: i32) -> i32
    ensures { result ≡ x }
{
    i32::from(FluentNumber::from(&i32::from(FluentNumber::from(x))))
}

pub fn again_i64(x: i64) -> i64
    ensures { result ≡ x }
{
    i64::from(FluentNumber::from(&i64::from(FluentNumber::from(x))))
}

pub fn again_isize(x: isize) -> isize
    ensures { result ≡ x }
{
    isize::from(FluentNumber::from(&isize::from(FluentNumber::from(x))))
}

pub fn again_u8(x: u8) -> u8
    ensures { result ≡ x }
{
    u8::from(FluentNumber::from(&u8::from(FluentNumber::from(x))))
}

pub fn again_u16(x: u16) -> u16
    ensures { result ≡ x }
{
    u16::from(FluentNumber::from(&u16::from(FluentNumber::from(x))))
}

pub fn again_u32(x: u32) -> u32
    ensures { result ≡ x }
{
    u32::from(FluentNumber::from(&u32::from(FluentNumber::from(x))))
}

pub fn again_u64(x: u64) -> u64
    ensures { result ≡ x }
{
    u64::from(FluentNumber::from(&u64::from(FluentNumber::from(x))))
}

pub fn again_usize(x: usize) -> usize
    ensures { result ≡ x }
{
    usize::from(FluentNumber::from(&usize::from(FluentNumber::from(x))))
}
