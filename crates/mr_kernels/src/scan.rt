ghost use Rattle.std.specs.Prelude.{◌≡◌, ◌≤◌, length};
ghost use Rattle.mr_kernels.specs.Scan.{target_in, word_start_in, word_end_in, line_end_in};

use crate::masks::{Target, is_sought, is_word_byte, sought_in_block};

/// The first such byte from a place on, looked for byte by byte.
#[inline(always)]
fn scan_bytes(bytes: &[u8], from: usize, target: Target) -> usize
    requires { from ≤ length bytes.now }
    ensures place { result ≡ target_in target bytes.now from }
    ensures inside { (from ≤ result) × (result ≤ length bytes.now) }
{
    for at in from..bytes.len() {
        if is_sought(bytes[at], target) {
            return at;
        }
    }
    bytes.len()
}

/// The first such byte from a place on, looked for in blocks of 64 bytes.
#[inline(always)]
fn scan_blocks(bytes: &[u8], from: usize, target: Target) -> usize
    requires { from ≤ length bytes.now }
    ensures place { result ≡ target_in target bytes.now from }
    ensures inside { (from ≤ result) × (result ≤ length bytes.now) }
{
    let mut at = from;
    while bytes.len() - at >= 64 {
        let mask = sought_in_block(bytes, at, target);
        if mask != 0 {
            return at + mask.trailing_zeros() as usize;
        }
        at += 64;
    }
    scan_bytes(bytes, at, target)
}

/// The least place at or after `from` with a word byte, or the length.
pub fn word_start(bytes: &[u8], from: usize) -> usize
    requires { from ≤ length bytes.now }
    ensures place { result ≡ word_start_in bytes.now from }
    ensures inside { (from ≤ result) × (result ≤ length bytes.now) }
{
    if from < bytes.len() && is_word_byte(bytes[from]) {
        return from;
    }
    // mostly one byte stands between two words
    if from + 1 < bytes.len() && is_word_byte(bytes[from + 1]) {
        return from + 1;
    }
    scan_blocks(bytes, from, Target::WordByte)
}

/// The least place at or after `from` whose byte is no word byte, or the length.
pub fn word_end(bytes: &[u8], from: usize) -> usize
    requires { from ≤ length bytes.now }
    ensures place { result ≡ word_end_in bytes.now from }
    ensures inside { (from ≤ result) × (result ≤ length bytes.now) }
{
    scan_blocks(bytes, from, Target::OtherByte)
}

/// The least place at or after `from` with a byte 10, or the length.
pub fn line_end(bytes: &[u8], from: usize) -> usize
    requires { from ≤ length bytes.now }
    ensures place { result ≡ line_end_in bytes.now from }
    ensures inside { (from ≤ result) × (result ≤ length bytes.now) }
{
    scan_blocks(bytes, from, Target::LineEnd)
}
