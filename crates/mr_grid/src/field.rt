ghost use Rattle.std.specs.Prelude.{◌≡◌, ◌≤◌, ◌<◌, ◌+◌, min, length, drop, slice_index, true};
ghost use Rattle.std.specs.Char.{is_ascii_digit};
ghost use Rattle.std.specs.List.{prefix_len};
ghost use Rattle.std.specs.Str.Parse.{digits_value};
ghost use Rattle.mr_items.specs.Grid.{element_of};
ghost use Rattle.mr_items.specs.Lines.{is_field_byte};
ghost use Rattle.mr_items.specs.Runs.{run_at};
ghost use Rattle.mr_grid.specs.Fields.{Continues, numeral_of, run_end_in};

use std::simd::prelude::*;

/// The largest magnitude of an element.
const MOST: u64 = 2147483647;

/// How many bytes are looked at together, and how many digits of them are read together.
const LANES: usize = 16;

const TOGETHER: usize = 8;

/// What the digits of a number of eight digits count for, and 0 for each of eight bytes behind them.
const WEIGHTS: [u32; 16] = [
    10000000, 1000000, 100000, 10000, 1000, 100, 10, 1, 0, 0, 0, 0, 0, 0, 0, 0,
];

/// A field that was read: its element, if it is one, and where the field ends.
#[derive(Clone, Copy)]
pub struct Field {
    pub element: Option<i32>,
    pub end: usize,
}

/// The digits from a place on: their number, or 2147483648 where it is larger, and where they end.
#[derive(Clone, Copy)]
struct Digits {
    value: u64,
    end: usize,
}

/// Neither a space nor a tab.
fn is_field(byte: u8) -> bool
    ensures { result ≡ is_field_byte byte }
{
    byte != 32 && byte != 9
}

/// Where the bytes of a field, or else the bytes between fields, end from a place on.
#[inline(always)]
pub fn run_end(line: &[u8], from: usize, of_field: bool) -> usize
    requires { from ≤ length line.now }
    ensures { result ≡ run_end_in of_field line.now from }
{
    for at in from..line.len() {
        if is_field(line[at]) != of_field {
            return at;
        }
    }
    line.len()
}

/// The digits from a place on, read one by one.
fn digits_one_by_one(line: &[u8], from: usize) -> Digits
    requires { from ≤ length line.now }
    ensures end { result.end ≡ from + prefix_len is_ascii_digit (drop from line.now) }
    ensures value { result.value ≡ min (digits_value 10 (run_at is_ascii_digit line.now from)) 2147483648 }
{
    let mut value = 0u64;
    for at in from..line.len() {
        if !line[at].is_ascii_digit() {
            return Digits { value, end: at };
        }
        value = (value * 10 + (line[at] - b'0') as u64).min(MOST + 1);
    }
    Digits {
        value,
        end: line.len(),
    }
}

/// How many digits stand in front of the sixteen bytes from a place on. Where all are digits it is 64.
#[inline(always)]
fn digits_in_front(bytes: &[u8], at: usize) -> u32
    requires { at + 16 ≤ length bytes.now }
    ensures { result ≤ 8 → result ≡ prefix_len is_ascii_digit (drop at bytes.now) }
{
    let lanes = u8x16::from_slice(&bytes[at..]);
    let others = lanes.simd_lt(u8x16::splat(b'0')) | lanes.simd_gt(u8x16::splat(b'9'));
    others.to_bitmask().trailing_zeros()
}

/// The number of all the digits from a place on, which are at most eight. Each byte counts by its weight, the bytes behind the digits by 0.
#[inline(always)]
fn digits_together(bytes: &[u8], at: usize, count: usize) -> u32
    requires inside { at + 8 ≤ length bytes.now }
    requires few { count ≤ 8 }
    requires count { count ≡ prefix_len is_ascii_digit (drop at bytes.now) }
    ensures value { result ≡ digits_value 10 (run_at is_ascii_digit bytes.now at) }
    ensures small { result < 100000000 }
{
    let mut value = 0;
    for i in 0..TOGETHER {
        let digit = bytes[at + i].saturating_sub(b'0');
        value += digit as u32 * WEIGHTS[TOGETHER - count + i];
    }
    value
}

/// The digits from a place of a line on, read together where there are few and enough bytes behind them.
#[inline(always)]
fn digits_at(line: &[u8], rest: &[u8], from: usize) -> Digits
    requires inside { from ≤ length line.now }
    requires rest { Continues line.now rest.now }
    ensures end { result.end ≡ from + prefix_len is_ascii_digit (drop from line.now) }
    ensures value { result.value ≡ min (digits_value 10 (run_at is_ascii_digit line.now from)) 2147483648 }
{
    if rest.len() - from >= LANES {
        let count = digits_in_front(rest, from) as usize;
        if count <= TOGETHER {
            return Digits {
                value: digits_together(rest, from, count) as u64,
                end: from + count,
            };
        }
    }
    digits_one_by_one(line, from)
}

/// The number of the field's bytes from a place on, if they are digits of a number that is at most 2147483647, and where they end.
#[inline(always)]
fn natural_at(line: &[u8], rest: &[u8], from: usize) -> (Option<u32>, usize)
    requires inside { from ≤ length line.now }
    requires rest { Continues line.now rest.now }
    ensures end { result.1 ≡ run_end_in true line.now from }
    ensures number { result.0 ≡ numeral_of (run_at is_field_byte line.now from) }
{
    let digits = digits_at(line, rest, from);
    let end = run_end(line, digits.end, true);
    if from < end && end == digits.end && digits.value <= MOST {
        return (Some(digits.value as u32), end);
    }
    (None, end)
}

/// The field that begins at a place of a line, whose text goes on as `rest`.
#[inline(always)]
pub fn field_at(line: &[u8], rest: &[u8], from: usize) -> Field
    requires rest { Continues line.now rest.now }
    requires inside { from < length line.now }
    requires begins { is_field_byte (slice_index line.now from) ≡ true }
    ensures end { result.end ≡ run_end_in true line.now from }
    ensures element { result.element ≡ element_of (run_at is_field_byte line.now from) }
{
    let minus = line[from] == b'-';
    let (natural, end) = natural_at(line, rest, from + usize::from(minus));
    let element = match natural {
        Some(n) if minus => Some(0 - n as i32),
        Some(n) => Some(n as i32),
        None => None,
    };
    Field { element, end }
}
