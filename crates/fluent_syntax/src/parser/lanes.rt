//! Sixteen bytes, looked at at once.
ghost use Rattle.std.specs.Prelude.{◌≡◌, ◌+◌, ◌<◌, ◌≤◌, ◌==◌, ℕ, true, if◌then◌else◌, length, slice_index};
ghost use Rattle.std.specs.Int.{w64, trailing_zeros};
ghost use Rattle.memchr.specs.Find.{Nowhere, Passes, is_byte3};
ghost use Rattle.fluent_text.specs.Lexical.{is_identifier_byte, is_space};

use std::simd::prelude::*;

/// How many bytes are looked at at once.
pub const LANES: usize = 16;

/// The place of the lowest bit that is set, or 16 where none is.
#[inline(always)]
fn first_set(mask: u64) -> usize
    ensures { result ≡ (if mask == 0 then 16 else trailing_zeros w64 mask) }
{
    if mask == 0 {
        LANES
    } else {
        mask.trailing_zeros() as usize
    }
}

/// How many of the sixteen bytes from `at` on stand before the first line feed or brace among them.
#[inline(always)]
pub fn plain_lanes(bytes: &[u8], at: usize) -> usize
    requires room { at + 16 ≤ length bytes.now }
    ensures within { result ≤ 16 }
    ensures passed { Nowhere (Passes (is_byte3 10 123 125) bytes.now) at (at + result) }
    ensures stops { result < 16 → Passes (is_byte3 10 123 125) bytes.now (at + result) }
{
    let lanes = u8x16::from_slice(&bytes[at..]);
    let feeds = lanes.simd_eq(u8x16::splat(b'\n'));
    let braces = lanes.simd_eq(u8x16::splat(b'{')) | lanes.simd_eq(u8x16::splat(b'}'));
    first_set((feeds | braces).to_bitmask())
}

/// How many of the first sixteen bytes are letters, digits or dashes, of which most names are made.
#[inline(always)]
pub fn name_lanes(bytes: &[u8]) -> usize
    requires room { 16 ≤ length bytes.now }
    ensures within { result ≤ 16 }
    ensures passed { (k : ℕ) → k < result → is_identifier_byte (slice_index bytes.now k) 0 ≡ true }
{
    let lanes = u8x16::from_slice(bytes);
    let from_a = (lanes | u8x16::splat(0x20)) - u8x16::splat(b'a');
    let from_0 = lanes - u8x16::splat(b'0');
    let others = from_a.simd_ge(u8x16::splat(26)) & from_0.simd_ge(u8x16::splat(10));
    first_set((others & lanes.simd_ne(u8x16::splat(b'-'))).to_bitmask())
}

/// How many of the first sixteen bytes stand before the first that is no space.
#[inline(always)]
pub fn space_lanes(bytes: &[u8]) -> usize
    requires room { 16 ≤ length bytes.now }
    ensures within { result ≤ 16 }
    ensures passed { (k : ℕ) → k < result → is_space (slice_index bytes.now k) 0 ≡ true }
{
    let lanes = u8x16::from_slice(bytes);
    first_set(lanes.simd_ne(u8x16::splat(b' ')).to_bitmask())
}
