ghost use Rattle.std.specs.Prelude.{◌≡◌, ℕ, All, length, slice_index_or};
ghost use Rattle.std.specs.List.{flat_map, range_with_len};
ghost use Rattle.mr_defs.specs.Tasks.{task_emissions};
ghost use Rattle.mr_items.specs.Lines.{is_line_boundary, line_places};
ghost use Rattle.mr_split.specs.Pieces.{ArePieces, IsPiece};
ghost use Rattle.mr_split.specs.declared.boundary.Boundary.{Boundary};

use crate::driver::{LineJob, map_lines};
use mr_base::{Memory, SliceKey};
use mr_container::{Local, Mapper};
use mr_split::Pieces;
use mr_text::TextJob;
use std::alloc::Global;
use std::marker::PhantomData;

/// A job over the lines of a text, which is cut into pieces between lines: a task is a piece, and emits what the lines that begin in it
/// emit, in their order. Its keys may borrow the text, and what it keeps borrows nothing.
// A mapper whose keys borrow names their type, so that it can be passed on: see docs/DECISIONS.md.
#[derive(Drop)]
pub struct SliceLines<'a, S: Drop, J: TextJob> {
    job: J,
    input: &'a [u8],
    pieces: &'a Pieces,
    state: PhantomData<S>,
    ghost of_text: { input.now ≡ J.text job },
    ghost are: { All (IsPiece (is_line_boundary input.now) (length input.now)) pieces.now },
}

impl<'a, S: Drop, J: LineJob<S, Key = SliceKey<'a>>> SliceLines<'a, S, J> {
    /// The job over this text, cut into these pieces. Takes no memory.
    pub fn over(job: J, input: &'a [u8], pieces: &'a Pieces) -> SliceLines<'a, S, J>
        requires text { input.now ≡ J.text job }
        requires pieces { ArePieces Boundary.Line input.now pieces.now }
        ensures count { ⟦<SliceLines<'a, S, J> as Mapper>⟧.task_count result ≡ length pieces.now }
        ensures tasks { (t : ℕ) → ⟦<SliceLines<'a, S, J> as Mapper>⟧.task_emissions result t
            ≡ task_emissions (J.emits job) (line_places input.now) (slice_index_or pieces.now t (0, 0)) }
        ensures whole { flat_map (⟦<SliceLines<'a, S, J> as Mapper>⟧.task_emissions result)
            (range_with_len 0 (⟦<SliceLines<'a, S, J> as Mapper>⟧.task_count result)) ≡ flat_map (J.emits job) (line_places input.now) }
    {
        SliceLines {
            job,
            input,
            pieces,
            state: PhantomData,
        }
    }
}

impl<'a, S: Drop, J: LineJob<S, Key = SliceKey<'a>>> Mapper for SliceLines<'a, S, J> {
    type Key = SliceKey<'a>;

    type Value = i64;

    ghost task_count = { λ m. length m.pieces.now };

    ghost task_emissions = { λ m t. task_emissions (J.emits m.job) (line_places m.input.now) (slice_index_or m.pieces.now t (0, 0)) };

    fn tasks(&self) -> u32 {
        self.pieces.len()
    }

    fn map<L: Local<Key = SliceKey<'a>, Value = i64>>(
        &self,
        alloc: Global,
        task: u32,
        out: &mut L,
    ) -> Result<(), Memory> {
        let piece = self.pieces.get(task);
        map_lines(alloc, &self.job, self.input, piece, out)
    }
}
