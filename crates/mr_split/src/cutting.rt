ghost use Rattle.std.specs.Prelude.{◌≡◌, ◌≤◌, ◌<◌, Bool, ℕ, IfOk, filter, flat_map, length, slice_range};
ghost use Rattle.std.specs.List.{All, range_with_len};
ghost use Rattle.mr_defs.specs.Limits.{input_limit};
ghost use Rattle.mr_defs.specs.Tasks.{items_in, most_tasks, pieces_of, spans_of};
ghost use Rattle.mr_split.specs.Pieces.{ArePieces, AreSpans, IsPiece, IsSpan, boundary_of};

use crate::boundary::{Boundary, next_boundary};
use crate::part::{Piece, Pieces, Spans, step};
use mr_base::Memory;
use std::alloc::Global;

/// The pieces, of which `pieces` says more.
fn cut(alloc: Global, bytes: &[u8], chunk: u32, kind: Boundary) -> Result<Pieces, Memory>
    requires chunk { 1 ≤ chunk }
    requires length { length bytes.now ≤ input_limit }
    ensures exact { IfOk result (λ p. p ≡ pieces_of (boundary_of kind bytes.now) chunk (length bytes.now)) }
    ensures few { IfOk result (λ p. length p ≤ most_tasks) }
{
    let step = step(bytes.len() as u64, chunk) as usize;
    let mut pieces = Vec::new(alloc);
    let mut last = 0;
    let cuts = bytes.len().saturating_sub(1) / step;
    for number in 0..cuts {
        let raw = (number + 1) * step;
        if last < raw {
            let end = next_boundary(bytes, raw, kind);
            pieces.push(Piece { start: last, end })?;
            last = end;
        }
    }
    if last < bytes.len() {
        pieces.push(Piece {
            start: last,
            end: bytes.len(),
        })?;
    }
    Ok(Pieces::of(pieces))
}

/// Cuts a text into pieces. A raw cut stands at each positive multiple of the step that is below the length, where the step is the
/// greater of `chunk` and the length divided by 1048576, rounded up. It moves forward to the first boundary at or after it. Cuts that
/// coincide count once, and a cut at the end is none. Both `chunk` and the length are in bytes.
pub fn pieces(alloc: Global, bytes: &[u8], chunk: u32, kind: Boundary) -> Result<Pieces, Memory>
    requires chunk { 1 ≤ chunk }
    requires length { length bytes.now ≤ input_limit }

    // Which pieces they are, and that they are what a mapper over this text asks for.
    ensures exact { IfOk result (λ p. p ≡ pieces_of (boundary_of kind bytes.now) chunk (length bytes.now)) }
    ensures of_text { IfOk result (λ p. ArePieces kind bytes.now p) }

    // Each has a byte and lies between two boundaries; together they are the text.
    ensures few { IfOk result (λ p. length p ≤ most_tasks) }
    ensures each { IfOk result (λ p. All (IsPiece (boundary_of kind bytes.now) (length bytes.now)) p) }
    ensures joined { IfOk result (λ p. flat_map (λ piece. slice_range bytes.now piece.0 piece.1) p ≡ bytes.now) }

    // What begins in the pieces, one after the other, is what begins in the text.
    ensures items { IfOk result (λ p. (begins : ℕ → Bool)
        → flat_map (λ piece. items_in piece (filter begins (range_with_len 0 (length bytes.now)))) p
        ≡ filter begins (range_with_len 0 (length bytes.now))) }
{
    let pieces = cut(alloc, bytes, chunk, kind)?;
    Ok(pieces)
}

/// Cuts a number of items into spans of one step, the last one maybe shorter. The step is the greater of `chunk` and the number divided by
/// 1048576, rounded up.
pub fn spans(items: u64, chunk: u32) -> Spans
    requires chunk { 1 ≤ chunk }
    requires items { items ≤ input_limit }

    // Which spans they are. Each has an item and ends with the last item at the latest.
    ensures exact { result ≡ spans_of chunk items }
    ensures of_items { AreSpans items result }
    ensures few { length result ≤ most_tasks }
    ensures each { All (IsSpan items) result }

    // The items of the spans, one after the other, are all items.
    ensures items { flat_map (λ span. items_in span (range_with_len 0 items)) result ≡ range_with_len 0 items }
{
    Spans::of(items, chunk)
}
