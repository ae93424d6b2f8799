ghost use Rattle.std.specs.Prelude.{◌≡◌, ◌≤◌, ◌+◌, ◌==◌, length, slice_range, count_by};

use std::simd::prelude::*;

/// How many of the 32 bytes from a place on are this byte.
fn count_in_block(bytes: &[u8], at: usize, byte: u8) -> u32
    requires { at + 32 ≤ length bytes.now }
    ensures { result ≡ count_by (λ b. b == byte) (slice_range bytes.now at (at + 32)) }
{
    let lanes = u8x32::from_slice(&bytes[at..]);
    lanes.simd_eq(u8x32::splat(byte)).to_bitmask().count_ones()
}

/// How many of the bytes from a place on are this byte.
fn count_rest(bytes: &[u8], from: usize, byte: u8) -> u64
    requires { from ≤ length bytes.now }
    ensures { result ≡ count_by (λ b. b == byte) (slice_range bytes.now from (length bytes.now)) }
{
    let mut count = 0;
    for b in &bytes[from..] {
        if *b == byte {
            count += 1;
        }
    }
    count
}

/// How many of the bytes are this byte.
pub fn count_byte(bytes: &[u8], byte: u8) -> u64
    ensures { result ≡ count_by (λ b. b == byte) bytes.now }
{
    let mut at = 0;
    let mut count = 0u64;
    while bytes.len() - at >= 32 {
        count += count_in_block(bytes, at, byte) as u64;
        at += 32;
    }
    count + count_rest(bytes, at, byte)
}
