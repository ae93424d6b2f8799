ghost use Rattle.std.specs.Prelude.{◌≡◌, ◌≤◌, ◌<◌, ◌+◌, length, ◌==◌, ◌||◌, map, take, drop};
ghost use Rattle.std.specs.Simd.Lanes.{mask_l};
ghost use Rattle.mr_items.specs.Lines as lines;
ghost use Rattle.mr_items.specs.Words as words;
ghost use Rattle.mr_kernels.specs.Scan.{is_target};

use std::simd::prelude::*;

/// What a scan looks for.
#[derive(Clone, Copy, PartialEq, Eq)]
pub enum Target {
    WordByte,
    OtherByte,
    LineEnd,
    FieldByte,
}

/// Whether a byte belongs to a word: an ASCII letter, an ASCII digit, the apostrophe, or a byte from 128.
#[inline]
pub fn is_word_byte(byte: u8) -> bool
    ensures { result ≡ words.is_word_byte byte }
{
    (48 <= byte && byte <= 57)
        || ((65 <= byte && byte <= 90)
            || ((97 <= byte && byte <= 122) || (byte == 39 || 128 <= byte)))
}

#[inline(always)]
pub(crate) fn is_sought(byte: u8, target: Target) -> bool
    ensures { result ≡ is_target target byte }
{
    match target {
        Target::WordByte => is_word_byte(byte),
        Target::OtherByte => !is_word_byte(byte),
        Target::LineEnd => byte == 10,
        Target::FieldByte => byte != 32 && byte != 9,
    }
}

/// One bit for each of the 64 bytes from a place on, the first one lowest: whether it is a word byte.
#[inline(always)]
fn words_in_block(bytes: &[u8], at: usize) -> u64
    requires { at + 64 ≤ length bytes.now }
    ensures { result ≡ mask_l (map words.is_word_byte (take 64 (drop at bytes.now))) }
{
    let lanes = u8x64::from_slice(&bytes[at..]);
    let digits = lanes.simd_ge(u8x64::splat(48)) & lanes.simd_le(u8x64::splat(57));
    let upper = lanes.simd_ge(u8x64::splat(65)) & lanes.simd_le(u8x64::splat(90));
    let lower = lanes.simd_ge(u8x64::splat(97)) & lanes.simd_le(u8x64::splat(122));
    let other = lanes.simd_eq(u8x64::splat(39)) | lanes.simd_ge(u8x64::splat(128));
    (digits | (upper | (lower | other))).to_bitmask()
}

/// The same for a byte 10.
#[inline(always)]
fn line_ends_in_block(bytes: &[u8], at: usize) -> u64
    requires { at + 64 ≤ length bytes.now }
    ensures { result ≡ mask_l (map (λ b. b == 10) (take 64 (drop at bytes.now))) }
{
    u8x64::from_slice(&bytes[at..])
        .simd_eq(u8x64::splat(10))
        .to_bitmask()
}

/// The same for a space or a tab.
#[inline(always)]
fn blanks_in_block(bytes: &[u8], at: usize) -> u64
    requires { at + 64 ≤ length bytes.now }
    ensures { result ≡ mask_l (map (λ b. (b == 32) || (b == 9)) (take 64 (drop at bytes.now))) }
{
    let lanes = u8x64::from_slice(&bytes[at..]);
    (lanes.simd_eq(u8x64::splat(32)) | lanes.simd_eq(u8x64::splat(9))).to_bitmask()
}

/// The same for a byte that the scan looks for.
#[inline(always)]
pub(crate) fn sought_in_block(bytes: &[u8], at: usize, target: Target) -> u64
    requires { at + 64 ≤ length bytes.now }
    ensures { result ≡ mask_l (map (is_target target) (take 64 (drop at bytes.now))) }
{
    match target {
        Target::WordByte => words_in_block(bytes, at),
        Target::OtherByte => u64::MAX - words_in_block(bytes, at),
        Target::LineEnd => line_ends_in_block(bytes, at),
        Target::FieldByte => u64::MAX - blanks_in_block(bytes, at),
    }
}

/// The same where fewer than 64 bytes are left, looked at byte by byte from the last one on.
fn sought_in_rest(bytes: &[u8], at: usize, target: Target) -> u64
    requires order { at ≤ length bytes.now }
    requires few { length bytes.now < at + 64 }
    ensures { result ≡ mask_l (map (is_target target) (drop at bytes.now)) }
{
    let mut mask = 0;
    let mut left = bytes.len();
    while left > at {
        left -= 1;
        mask = mask * 2 + is_sought(bytes[left], target) as u64;
    }
    mask
}

/// The same for the next 64 bytes, or for those that are left.
#[inline(always)]
pub(crate) fn sought_from(bytes: &[u8], at: usize, target: Target) -> u64
    requires { at ≤ length bytes.now }
    ensures { result ≡ mask_l (map (is_target target) (take 64 (drop at bytes.now))) }
{
    if bytes.len() - at >= 64 {
        sought_in_block(bytes, at, target)
    } else {
        sought_in_rest(bytes, at, target)
    }
}
