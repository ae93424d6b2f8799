ghost use Rattle.std.specs.Prelude.{◌≡◌, ◌++◌, ℕ, ℤ, List, length, slice_index_or, take, OnOk, OnErr};
ghost use Rattle.mr_defs.specs.Emission.{Emission};
ghost use Rattle.std.specs.List.{All, flat_map, range_with_len};
ghost use Rattle.mr_defs.specs.Tasks as tasks;
ghost use Rattle.mr_items.specs.Words.{is_word_boundary, word_places};
ghost use Rattle.mr_split.specs.Pieces.{ArePieces, IsPiece};
ghost use Rattle.mr_text.specs.Keyed.{word_emits};
ghost use Rattle.mr_split.specs.declared.boundary.Boundary.{Boundary};

use crate::strips::{BLOCK, EDGES, emit_words};
use crate::word_job::{TextJob, WordJob};
use mr_base::{Key, Memory};
use mr_container::{Local, Mapper};
use mr_split::Pieces;
use std::alloc::Global;

/// Emits the pairs of the words that begin in a piece.
pub(crate) fn emit_piece<K: Key, J: WordJob<Key = K>, L: Local<Key = K, Value = i64>>(
    alloc: Global,
    job: &J,
    text: &[u8],
    from: usize,
    to: usize,
    out: &mut L,
) -> Result<(), Memory>
    requires text { text.now ≡ J.text job.now }
    requires piece { IsPiece (is_word_boundary text.now) (length text.now) (from, to) }
    ensures ok { OnOk result
        ((es : List (Emission K ℤ)) → L.stands out.old es
        → L.stands out.new (es ++ tasks.task_emissions (word_emits (J.pair_of job.now) text.now) (word_places text.now) (from, to))) }
    ensures err { OnErr result
        ((es : List (Emission K ℤ)) → L.stands out.old es
        → (n : ℕ)
        × L.stands out.new
        (es ++ take n (tasks.task_emissions (word_emits (J.pair_of job.now) text.now) (word_places text.now) (from, to)))) }
    ensures origin { L.same_origin out.old out.new }
{
    let mut edges = vec![in alloc; 0u32; EDGES]?;
    let mut block = Vec::with_capacity(alloc, 2 * BLOCK)?;
    emit_words(alloc, job, text, from, to, &mut edges, &mut block, out)?;
    out.emit_block(&mut block)?;
    Ok(())
}

/// A job over the words of a text, which is cut into pieces between words: a task is a piece, and emits the pairs of the words that begin
/// in it, in their order. Its keys borrow nothing; `SliceWords` is for keys that borrow the text.
#[derive(Drop)]
pub struct Words<'a, J: TextJob> {
    job: J,
    input: &'a [u8],
    pieces: &'a Pieces,
    ghost of_text: { input.now ≡ J.text job },
    ghost are: { All (IsPiece (is_word_boundary input.now) (length input.now)) pieces.now },
}

impl<'a, J: WordJob> Words<'a, J> {
    /// The job over this text, cut into these pieces. Takes no memory.
    pub fn over(job: J, input: &'a [u8], pieces: &'a Pieces) -> Words<'a, J>
        requires text { input.now ≡ J.text job }
        requires pieces { ArePieces Boundary.Word input.now pieces.now }
        ensures count { ⟦<Words<'a, J> as Mapper>⟧.task_count result ≡ length pieces.now }
        ensures tasks { (t : ℕ) → ⟦<Words<'a, J> as Mapper>⟧.task_emissions result t
            ≡ tasks.task_emissions (word_emits (J.pair_of job) input.now) (word_places input.now) (slice_index_or pieces.now t (0, 0)) }
        ensures whole { flat_map (⟦<Words<'a, J> as Mapper>⟧.task_emissions result)
            (range_with_len 0 (⟦<Words<'a, J> as Mapper>⟧.task_count result))
            ≡ flat_map (word_emits (J.pair_of job) input.now) (word_places input.now) }
    {
        Words { job, input, pieces }
    }
}

impl<'a, J: WordJob> Mapper for Words<'a, J> {
    type Key = J::Key;

    type Value = i64;

    ghost task_count = { λ m. length m.pieces.now };

    ghost task_emissions = { λ m t. tasks.task_emissions (word_emits (J.pair_of m.job) m.input.now) (word_places m.input.now)
        (slice_index_or m.pieces.now t (0, 0)) };

    fn tasks(&self) -> u32 {
        self.pieces.len()
    }

    fn map<L: Local<Key = J::Key, Value = i64>>(
        &self,
        alloc: Global,
        task: u32,
        out: &mut L,
    ) -> Result<(), Memory> {
        let piece = self.pieces.get(task);
        emit_piece(alloc, &self.job, self.input, piece.start, piece.end, out)
    }
}
