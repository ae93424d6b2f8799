ghost use Rattle.std.specs.Prelude.{◌≡◌, ◌≤◌, ◌+◌, ◌++◌, ℕ, ℤ, List, Ok, length, take, flat_map, slice_index_or, OnOk, OnErr};
ghost use Rattle.std.specs.List.{range_with_len};
ghost use Rattle.mr_defs.specs.Emission.{Emission};
ghost use Rattle.mr_defs.specs.Tasks as tasks;
ghost use Rattle.mr_items.specs.Bitmap.{pixel_rows};
ghost use Rattle.mr_items.specs.Histogram.{pixel_emits, histogram_emits, histogram_emissions};
ghost use Rattle.mr_grid.specs.Pixels.{bitmap_of};
ghost use Rattle.mr_split.specs.Pieces.{AreSpans};

use crate::pairs::emit_pairs;
use crate::spanned::{Items, Spanned};
use mr_base::{Memory, NumKey};
use mr_container::{Local, Mapper};
use mr_grid::Bitmap;
use mr_split::Spans;
use std::alloc::Global;

/// The rows of pixels of a bitmap. A row emits for each of its pixels the blue, 256 plus the green and 512 plus the red, each with the
/// value 1.
#[derive(Drop)]
pub struct PixelRows<'a> {
    input: &'a [u8],
    bitmap: Bitmap,
    ghost are: { bitmap_of input.now ≡ Ok bitmap },
}

/// Counts how often each blue, green and red stands in a bitmap.
pub type Histogram<'a> = Spanned<PixelRows<'a>>;

impl<'a> Spanned<PixelRows<'a>> {
    /// The job over the pixels of this input, whose rows are cut into these spans. Takes no memory.
    pub fn new(input: &'a [u8], bitmap: Bitmap, spans: Spans) -> Histogram<'a>
        requires bitmap { bitmap_of input.now ≡ Ok bitmap }
        requires spans { AreSpans bitmap.rows spans }
        ensures count { ⟦<Histogram<'a> as Mapper>⟧.task_count result ≡ length spans }
        ensures tasks { (t : ℕ) → ⟦<Histogram<'a> as Mapper>⟧.task_emissions result t
            ≡ tasks.task_emissions (histogram_emits input.now) (range_with_len 0 (pixel_rows input.now)) (slice_index_or spans t (0, 0)) }
        ensures whole { flat_map (⟦<Histogram<'a> as Mapper>⟧.task_emissions result)
            (range_with_len 0 (⟦<Histogram<'a> as Mapper>⟧.task_count result)) ≡ histogram_emissions input.now }
    {
        Spanned::over(PixelRows { input, bitmap }, spans)
    }
}

impl<'a> Items for PixelRows<'a> {
    type Value = i64;

    ghost count = { λ p. pixel_rows p.input.now };

    ghost emits = { λ p row. histogram_emits p.input.now row };

    fn emit_item<L: Local<Key = NumKey, Value = i64>>(
        &self,
        _alloc: Global,
        item: u64,
        out: &mut L,
    ) -> Result<(), Memory> {
        let start = self.bitmap.place + item as usize * self.bitmap.stride;
        for x in 0..self.bitmap.width as usize {
            emit_pixel(self.input, start + 3 * x, out)?;
        }
        Ok(())
    }
}

/// Emits the pixel at a place.
#[inline(always)]
fn emit_pixel<L: Local<Key = NumKey, Value = i64>>(
    bytes: &[u8],
    place: usize,
    out: &mut L,
) -> Result<(), Memory>
    requires { place + 3 ≤ length bytes.now }
    ensures ok { OnOk result ((es : List (Emission ℕ ℤ)) → L.stands out.old es → L.stands out.new (es ++ pixel_emits bytes.now place)) }
    ensures err { OnErr result
        ((es : List (Emission ℕ ℤ)) → L.stands out.old es → (n : ℕ) × L.stands out.new (es ++ take n (pixel_emits bytes.now place))) }
    ensures origin { L.same_origin out.old out.new }
{
    let blue = bytes[place] as u64;
    let green = bytes[place + 1] as u64;
    let red = bytes[place + 2] as u64;
    emit_pairs(&[(blue, 1), (256 + green, 1), (512 + red, 1)], out)
}
