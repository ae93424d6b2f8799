ghost use Rattle.std.specs.Prelude.{◌≡◌, ◌≢◌, ◌≤◌, ◌<◌, ◌+◌, ◌++◌, ℕ, ℤ, List, All, length, negsuc, min, slice_index_or, slice_range, take};
ghost use Rattle.std.specs.Prelude.{true, IfOk, OnOk, OnErr};
ghost use Rattle.std.specs.List.{flat_map, range_with_len};
ghost use Rattle.mr_defs.specs.Emission.{Emission};
ghost use Rattle.mr_defs.specs.Folded.{limit};
ghost use Rattle.mr_defs.specs.Tasks.{task_emissions};
ghost use Rattle.mr_items.specs.Lines.{begins_line, is_line_boundary, line_at, line_places};
ghost use Rattle.mr_container.specs.Block.{block_emissions};
ghost use Rattle.mr_split.specs.Pieces.{ArePieces, IsPiece};
ghost use Rattle.mr_split.specs.declared.boundary.Boundary.{Boundary};
ghost use Rattle.mr_lines.specs.Ends.{is_line_end};
ghost use Rattle.mr_text.specs.Sent.{Sent, SentSome};

use mr_base::{Key, Memory};
use mr_container::{Local, Mapper};
use mr_kernels::line_end;
use mr_split::{Piece, Pieces};
use mr_text::{BLOCK, TextJob};
use std::alloc::Global;
use std::marker::PhantomData;

/// A job over the lines of a text: what each of them emits. The parameter is what it keeps from line to line of a piece.
pub trait LineJob<S: Drop>: TextJob {
    type Key: Key;

    /// What the line that begins at a place emits.
    ghost emits: { Self → ℕ → List (Emission Self.Key ℤ) };

    /// The state serves the lines of a piece with this end, from this place on.
    ghost ready: { Self → S → ℕ → ℕ → Type 0 };

    /// The state for the lines of a piece.
    fn state(&self, alloc: Global, from: usize, stop: usize) -> Result<S, Memory>
        requires order { from ≤ stop }
        requires inside { stop ≤ length (Self.text self.now) }
        ensures { IfOk result (λ s. ready self.now s stop from) };

    /// Emits what the line from one place up to another emits, in a piece with this end, by way of the block.
    fn line<L: Local<Key = Self::Key, Value = i64>>(
        &self,
        alloc: Global,
        from: usize,
        to: usize,
        stop: usize,
        state: &mut S,
        block: &mut Vec<(Self::Key, i64)>,
        out: &mut L,
    ) -> Result<(), Memory>
        requires order { from ≤ to }
        requires inside { to ≤ length (Self.text self.now) }
        requires within { (to ≤ stop) × (stop ≤ length (Self.text self.now)) }
        requires begins { begins_line (Self.text self.now) from ≡ true }
        requires ends { is_line_end (Self.text self.now) to ≡ true }
        requires line { line_at (Self.text self.now) from ≡ slice_range (Self.text self.now) from to }
        requires ready { ready self.now state.old stop from }
        requires allowed { All (λ p. Self.Key.allowed p.0 × (p.1 ≢ negsuc limit)) block.old.items }
        ensures ok { OnOk result
            (Sent L.stands out.old out.new (block_emissions block.old.items ++ emits self.now from) (block_emissions block.new.items)) }
        ensures err { OnErr result (SentSome L.stands out.old out.new (block_emissions block.old.items ++ emits self.now from)) }
        ensures allowed { OnOk result (All (λ p. Self.Key.allowed p.0 × (p.1 ≢ negsuc limit)) block.new.items) }
        ensures ready { OnOk result (ready self.now state.new stop (min (to + 1) (length (Self.text self.now)))) }
        ensures origin { L.same_origin out.old out.new };
}

/// Emits what the lines of a piece emit, one after the other. After `Memory` a front of that was emitted.
pub fn map_lines<K: Key, S: Drop, J: LineJob<S, Key = K>, L: Local<Key = K, Value = i64>>(
    alloc: Global,
    job: &J,
    text: &[u8],
    piece: Piece,
    out: &mut L,
) -> Result<(), Memory>
    requires text { text.now ≡ J.text job.now }
    requires piece { IsPiece (is_line_boundary text.now) (length text.now) piece }
    ensures ok { OnOk result
        ((es : List (Emission K ℤ)) → L.stands out.old es
        → L.stands out.new (es ++ task_emissions (J.emits job.now) (line_places text.now) piece)) }
    ensures err { OnErr result
        ((es : List (Emission K ℤ)) → L.stands out.old es
        → (n : ℕ) × L.stands out.new (es ++ take n (task_emissions (J.emits job.now) (line_places text.now) piece))) }
    ensures origin { L.same_origin out.old out.new }
{
    let mut state = job.state(alloc, piece.start, piece.end)?;
    let mut block = Vec::with_capacity(alloc, 2 * BLOCK)?;
    let mut at = piece.start;
    while at < piece.end {
        let end = line_end(text, at);
        job.line(alloc, at, end, piece.end, &mut state, &mut block, out)?;
        if block.len() >= BLOCK {
            out.emit_block(&mut block)?;
        }
        at = (end + 1).min(text.len());
    }
    out.emit_block(&mut block)?;
    Ok(())
}

/// A job over the lines of a text, which is cut into pieces between lines: a task is a piece, and emits what the lines that begin in it
/// emit, in their order. Its keys and what it keeps borrow nothing; `SliceLines` is for keys that borrow the text.
#[derive(Drop)]
pub struct Lines<'a, S: Drop, J: TextJob> {
    job: J,
    input: &'a [u8],
    pieces: &'a Pieces,
    state: PhantomData<S>,
    ghost of_text: { input.now ≡ J.text job },
    ghost are: { All (IsPiece (is_line_boundary input.now) (length input.now)) pieces.now },
}

impl<'a, S: Drop, J: LineJob<S>> Lines<'a, S, J> {
    /// The job over this text, cut into these pieces. Takes no memory.
    pub fn over(job: J, input: &'a [u8], pieces: &'a Pieces) -> Lines<'a, S, J>
        requires text { input.now ≡ J.text job }
        requires pieces { ArePieces Boundary.Line input.now pieces.now }
        ensures count { ⟦<Lines<'a, S, J> as Mapper>⟧.task_count result ≡ length pieces.now }
        ensures tasks { (t : ℕ) → ⟦<Lines<'a, S, J> as Mapper>⟧.task_emissions result t
            ≡ task_emissions (J.emits job) (line_places input.now) (slice_index_or pieces.now t (0, 0)) }
        ensures whole { flat_map (⟦<Lines<'a, S, J> as Mapper>⟧.task_emissions result)
            (range_with_len 0 (⟦<Lines<'a, S, J> as Mapper>⟧.task_count result)) ≡ flat_map (J.emits job) (line_places input.now) }
    {
        Lines {
            job,
            input,
            pieces,
            state: PhantomData,
        }
    }
}

impl<'a, S: Drop, J: LineJob<S>> Mapper for Lines<'a, S, J> {
    type Key = J::Key;

    type Value = i64;

    ghost task_count = { λ m. length m.pieces.now };

    ghost task_emissions = { λ m t. task_emissions (J.emits m.job) (line_places m.input.now) (slice_index_or m.pieces.now t (0, 0)) };

    fn tasks(&self) -> u32 {
        self.pieces.len()
    }

    fn map<L: Local<Key = J::Key, Value = i64>>(
        &self,
        alloc: Global,
        task: u32,
        out: &mut L,
    ) -> Result<(), Memory> {
        let piece = self.pieces.get(task);
        map_lines(alloc, &self.job, self.input, piece, out)
    }
}
