ghost use Rattle.std.specs.Prelude.{◌≡◌, ◌≤◌, ◌+◌, ◌*◌, length, None, IfOk};
ghost use Rattle.mr_items.specs.Bitmap.{unsigned_at, signed_at};
ghost use Rattle.mr_grid.specs.Pixels.{bitmap_of, bitmap_unless, first_fault, format_tests, pixel_tests};

use byteorder::{ByteOrder, LittleEndian};
use mr_items::BitmapFault;

/// The pixels of a bitmap in its bytes: the place of the first one, the pixels in a row, the rows, and the bytes of a row, which are 3
/// times the pixels raised to a multiple of 4. A pixel is the three bytes blue, green and red.
#[derive(Clone, Copy, Debug, PartialEq, Eq)]
pub struct Bitmap {
    pub place: usize,
    pub width: u32,
    pub rows: u32,
    pub stride: usize,
}

fn u16_at(bytes: &[u8], offset: usize) -> u16
    requires { offset + 2 ≤ length bytes.now }
    ensures { result ≡ unsigned_at bytes.now 2 offset }
{
    LittleEndian::read_u16(&bytes[offset..])
}

fn u32_at(bytes: &[u8], offset: usize) -> u32
    requires { offset + 4 ≤ length bytes.now }
    ensures { result ≡ unsigned_at bytes.now 4 offset }
{
    LittleEndian::read_u32(&bytes[offset..])
}

fn i32_at(bytes: &[u8], offset: usize) -> i32
    requires { offset + 4 ≤ length bytes.now }
    ensures { result ≡ signed_at bytes.now 4 offset }
{
    LittleEndian::read_i32(&bytes[offset..])
}

/// The first fault of a bitmap's format, before that of its pixels.
fn format_fault(bytes: &[u8]) -> Option<BitmapFault>
    ensures first { result ≡ first_fault (format_tests bytes.now) }
    ensures long { result ≡ None → 54 ≤ length bytes.now }
{
    if bytes.len() < 54 {
        return Some(BitmapFault::Short);
    }
    if !(bytes[0] == b'B' && bytes[1] == b'M') {
        return Some(BitmapFault::Magic);
    }
    if u32_at(bytes, 14) != 40 {
        return Some(BitmapFault::Header);
    }
    if u16_at(bytes, 26) != 1 {
        return Some(BitmapFault::Planes);
    }
    if u16_at(bytes, 28) != 24 {
        return Some(BitmapFault::Depth);
    }
    if u32_at(bytes, 30) != 0 {
        return Some(BitmapFault::Compressed);
    }
    None
}

/// The pixels of a bitmap whose format has no fault.
fn read_pixels(bytes: &[u8]) -> Result<Bitmap, BitmapFault>
    requires { 54 ≤ length bytes.now }
    ensures pixels { result ≡ bitmap_unless (first_fault (pixel_tests bytes.now)) bytes.now }
    ensures inside { IfOk result (λ b. b.place + b.stride * b.rows ≤ length bytes.now) }
    ensures wide { IfOk result (λ b. 3 * b.width ≤ b.stride) }
    ensures few { IfOk result (λ b. b.rows ≤ length bytes.now) }
{
    let width = i32_at(bytes, 18);
    if width < 1 {
        return Err(BitmapFault::Width);
    }
    let rows = i32_at(bytes, 22).unsigned_abs();
    if rows == 0 {
        return Err(BitmapFault::Height);
    }
    let place = u32_at(bytes, 10) as usize;
    if place < 54 || place > bytes.len() {
        return Err(BitmapFault::Place);
    }
    let stride = (3 * width as usize).next_multiple_of(4);
    if place + stride * rows as usize > bytes.len() {
        return Err(BitmapFault::Pixels);
    }
    Ok(Bitmap {
        place,
        width: width as u32,
        rows,
        stride,
    })
}

/// Where the pixels of a bitmap stand, or its first fault in the order of `BitmapFault`. The format is that of the 24-bit uncompressed
/// Windows bitmap with a header of 40 bytes, whose numbers are little-endian; a negative height says that the top row comes first, and the
/// rows are its magnitude. All other header fields and the bytes after the pixels are passed over.
pub fn read_bitmap(bytes: &[u8]) -> Result<Bitmap, BitmapFault>
    ensures bitmap { result ≡ bitmap_of bytes.now }

    // The rows lie in the bytes, and the pixels of a row in its bytes.
    ensures inside { IfOk result (λ b. b.place + b.stride * b.rows ≤ length bytes.now) }
    ensures wide { IfOk result (λ b. 3 * b.width ≤ b.stride) }
    ensures few { IfOk result (λ b. b.rows ≤ length bytes.now) }
{
    match format_fault(bytes) {
        Some(fault) => Err(fault),
        None => read_pixels(bytes),
    }
}
