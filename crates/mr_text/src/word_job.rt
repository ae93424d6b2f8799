ghost use Rattle.std.specs.Prelude.{◌≡◌, ◌≢◌, ◌≤◌, ℕ, ℤ, List, length, map, negsuc, slice_range, IfOk};
ghost use Rattle.mr_defs.specs.Folded.{limit};
ghost use Rattle.mr_items.specs.Words.{lower};

use mr_base::{Key, Memory};
use std::alloc::Global;

/// A job over a text, which it holds.
// It names no key, so that a mapper of such a job can be a type of its own whichever its keys are.
pub trait TextJob: Drop {
    ghost text: { Self → List ℕ };
}

/// A job over the words of a text: the pair that a word is emitted as.
pub trait WordJob: TextJob {
    type Key: Key;

    /// The pair of a word that is folded to small letters.
    ghost pair_of: { Self → List ℕ → Self.Key × ℤ };

    /// The pair of the word between two places of the text.
    fn pair(&self, alloc: Global, from: usize, to: usize) -> Result<(Self::Key, i64), Memory>
        requires order { from ≤ to }
        requires inside { to ≤ length (Self.text self.now) }
        ensures same { IfOk result (λ p. p ≡ pair_of self.now (map lower (slice_range (Self.text self.now) from to))) }
        ensures allowed { IfOk result (λ p. Self.Key.allowed p.0 × (p.1 ≢ negsuc limit)) };
}
