ghost use Rattle.std.specs.Prelude.{◌≡◌, ◌≤◌, ◌<◌, ◌+◌, ◌-◌, ◌++◌, length, take, slice_range};
ghost use Rattle.mr_items.specs.Lines.{is_field_byte};
ghost use Rattle.mr_items.specs.Words as words;
ghost use Rattle.mr_kernels.specs.Edges.{bits, set_places, run_edges};
ghost use Rattle.mr_kernels.specs.Scan.{is_target};

use crate::masks::{Target, sought_from};

/// Writes the places of the bits of the mask, counted from a base, into the list from a place on. Gives the place behind the last one.
#[inline(always)]
fn note_bits(edges: &mut [u32], from: usize, base: u32, mask: u64) -> usize
    requires room { from + 64 ≤ length edges.old }
    requires base { base ≤ 4294967231 }
    ensures same { length edges.new ≡ length edges.old }
    ensures number { result ≡ from + length (set_places base (bits 64 mask)) }
    ensures places { take result edges.new ≡ take from edges.old ++ set_places base (bits 64 mask) }
{
    let mut at = from;
    let mut rest = mask;
    while rest != 0 {
        edges[at] = base + rest.trailing_zeros();
        at += 1;
        rest &= rest - 1;
    }
    at
}

/// Writes the places where the bytes of a stretch begin or cease to be sought, and its end where they do not cease before, counted from
/// its start. Gives their number.
///
/// Each block of 64 bytes is a mask whose changes are its bits that differ from the one before; the last bit is carried to the next block.
#[inline(always)]
fn note_edges(bytes: &[u8], from: usize, to: usize, target: Target, edges: &mut [u32]) -> usize
    requires order { from ≤ to }
    requires inside { to ≤ length bytes.now }
    requires short { to - from ≤ 4294967231 }
    requires room { to - from + 64 ≤ length edges.old }
    ensures same { length edges.new ≡ length edges.old }
    ensures bound { result ≤ to - from + 1 }
    ensures edges { take result edges.new ≡ run_edges (is_target target) (slice_range bytes.now from to) }
{
    let mut at = from;
    let mut count = 0;
    let mut before = 0;
    while at < to {
        let size = (to - at).min(64);
        let mask = sought_from(bytes, at, target);
        let changes = mask ^ ((mask << 1) + before);
        count = note_bits(
            edges,
            count,
            (at - from) as u32,
            changes & (u64::MAX >> (64 - size)),
        );
        before = (mask >> (size - 1)) & 1;
        at += size;
    }
    if before == 1 {
        edges[count] = (to - from) as u32;
        count += 1;
    }
    count
}

/// Writes where the words of a stretch of a text begin and end, each word's two places after the other, counted from the start of the
/// stretch. Gives the number of places. Bytes outside the stretch belong to no word.
pub fn word_edges(text: &[u8], from: usize, to: usize, edges: &mut [u32]) -> usize
    requires order { from ≤ to }
    requires inside { to ≤ length text.now }
    requires short { to - from ≤ 4294967231 }
    requires room { to - from + 64 ≤ length edges.old }
    ensures same { length edges.new ≡ length edges.old }
    ensures bound { result ≤ to - from + 1 }
    ensures edges { take result edges.new ≡ run_edges words.is_word_byte (slice_range text.now from to) }
{
    note_edges(text, from, to, Target::WordByte, edges)
}

/// The same for the fields of a stretch, which are parted by spaces and tabs.
pub fn field_edges(text: &[u8], from: usize, to: usize, edges: &mut [u32]) -> usize
    requires order { from ≤ to }
    requires inside { to ≤ length text.now }
    requires short { to - from ≤ 4294967231 }
    requires room { to - from + 64 ≤ length edges.old }
    ensures same { length edges.new ≡ length edges.old }
    ensures bound { result ≤ to - from + 1 }
    ensures edges { take result edges.new ≡ run_edges is_field_byte (slice_range text.now from to) }
{
    note_edges(text, from, to, Target::FieldByte, edges)
}
