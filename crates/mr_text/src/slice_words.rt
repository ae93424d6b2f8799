ghost use Rattle.std.specs.Prelude.{◌≡◌, ℕ, length, slice_index_or};
ghost use Rattle.std.specs.List.{All, flat_map, range_with_len};
ghost use Rattle.mr_defs.specs.Tasks as tasks;
ghost use Rattle.mr_items.specs.Words.{is_word_boundary, word_places};
ghost use Rattle.mr_split.specs.Pieces.{ArePieces, IsPiece};
ghost use Rattle.mr_split.specs.declared.boundary.Boundary.{Boundary};
ghost use Rattle.mr_text.specs.Keyed.{word_emits};

use crate::word_job::{TextJob, WordJob};
use crate::words::emit_piece;
use mr_base::{Memory, SliceKey};
use mr_container::{Local, Mapper};
use mr_split::Pieces;
use std::alloc::Global;

/// A job over the words of a text, which is cut into pieces between words: a task is a piece, and emits the pairs of the words that begin
/// in it, in their order. Its keys may borrow the text.
// A mapper whose keys borrow names their type, so that it can be passed on: see docs/DECISIONS.md.
#[derive(Drop)]
pub struct SliceWords<'a, J: TextJob> {
    job: J,
    input: &'a [u8],
    pieces: &'a Pieces,
    ghost of_text: { input.now ≡ J.text job },
    ghost are: { All (IsPiece (is_word_boundary input.now) (length input.now)) pieces.now },
}

impl<'a, J: WordJob<Key = SliceKey<'a>>> SliceWords<'a, J> {
    /// The job over this text, cut into these pieces. Takes no memory.
    pub fn over(job: J, input: &'a [u8], pieces: &'a Pieces) -> SliceWords<'a, J>
        requires text { input.now ≡ J.text job }
        requires pieces { ArePieces Boundary.Word input.now pieces.now }
        ensures count { ⟦<SliceWords<'a, J> as Mapper>⟧.task_count result ≡ length pieces.now }
        ensures tasks { (t : ℕ) → ⟦<SliceWords<'a, J> as Mapper>⟧.task_emissions result t
            ≡ tasks.task_emissions (word_emits (J.pair_of job) input.now) (word_places input.now) (slice_index_or pieces.now t (0, 0)) }
        ensures whole { flat_map (⟦<SliceWords<'a, J> as Mapper>⟧.task_emissions result)
            (range_with_len 0 (⟦<SliceWords<'a, J> as Mapper>⟧.task_count result))
            ≡ flat_map (word_emits (J.pair_of job) input.now) (word_places input.now) }
    {
        SliceWords { job, input, pieces }
    }
}

impl<'a, J: WordJob<Key = SliceKey<'a>>> Mapper for SliceWords<'a, J> {
    type Key = SliceKey<'a>;

    type Value = i64;

    ghost task_count = { λ m. length m.pieces.now };

    ghost task_emissions = { λ m t. tasks.task_emissions (word_emits (J.pair_of m.job) m.input.now) (word_places m.input.now)
        (slice_index_or m.pieces.now t (0, 0)) };

    fn tasks(&self) -> u32 {
        self.pieces.len()
    }

    fn map<L: Local<Key = SliceKey<'a>, Value = i64>>(
        &self,
        alloc: Global,
        task: u32,
        out: &mut L,
    ) -> Result<(), Memory> {
        let piece = self.pieces.get(task);
        emit_piece(alloc, &self.job, self.input, piece.start, piece.end, out)
    }
}
