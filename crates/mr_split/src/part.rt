ghost use Rattle.std.specs.Prelude.{◌≡◌, ◌<◌, ◌≤◌, length, slice_index_or};
ghost use Rattle.mr_defs.specs.Limits.{input_limit};
ghost use Rattle.mr_defs.specs.Tasks.{step_of, spans_of, most_tasks};

use std::marker::Model;

/// A piece of a text: the bytes from `start` up to but not including `end`.
#[derive(Clone, Copy, Debug, PartialEq, Eq)]
pub struct Piece {
    pub start: usize,
    pub end: usize,
}

impl Model for Piece {
    ghost use Rattle.std.specs.Prelude.{ℕ};

    ghost Value = { ℕ × ℕ };

    ghost view = { λ p. (p.start, p.end) };

    ghost inverse = { λ p. record { start = p.0; end = p.1 } };
}

/// The pieces of a text in their order, at most 1048576.
#[derive(Drop)]
pub struct Pieces {
    pieces: Vec<Piece>,
}

impl Model for Pieces {
    ghost use Rattle.std.specs.Prelude.{List, ℕ, ◌≤◌, length};
    ghost use Rattle.mr_defs.specs.Tasks.{most_tasks};

    ghost Value = { List (ℕ × ℕ) };

    ghost view = { λ p. p.pieces.items };

    ghost invariant = { λ p. length p.pieces.items ≤ most_tasks };
}

impl Pieces {
    pub(crate) fn of(pieces: Vec<Piece>) -> Pieces
        requires { length pieces.items ≤ most_tasks }
        ensures { result ≡ pieces.items }
    {
        Pieces { pieces }
    }

    /// How many pieces there are, which is the number of tasks.
    pub fn len(&self) -> u32
        ensures len { result ≡ length self.now }
        ensures few { result ≤ most_tasks }
    {
        self.pieces.len() as u32
    }

    /// The piece of a task.
    pub fn get(&self, task: u32) -> Piece
        requires { task < length self.now }
        ensures { result ≡ slice_index_or self.now task (0, 0) }
    {
        self.pieces[task as usize]
    }
}

/// A span of items: those from `start` up to but not including `end`.
#[derive(Clone, Copy, Debug, PartialEq, Eq)]
pub struct Span {
    pub start: u64,
    pub end: u64,
}

impl Model for Span {
    ghost use Rattle.std.specs.Prelude.{ℕ};

    ghost Value = { ℕ × ℕ };

    ghost view = { λ s. (s.start, s.end) };

    ghost inverse = { λ s. record { start = s.0; end = s.1 } };
}

/// The spans of a number of items in their order, at most 1048576. They are reckoned when they are asked for, and take no memory.
#[derive(Drop)]
pub struct Spans {
    items: u64,
    chunk: u32,
}

impl Model for Spans {
    ghost use Rattle.std.specs.Prelude.{List, ℕ, ◌≤◌};
    ghost use Rattle.mr_defs.specs.Limits.{input_limit};
    ghost use Rattle.mr_defs.specs.Tasks.{spans_of};

    ghost Value = { List (ℕ × ℕ) };

    ghost view = { λ s. spans_of s.chunk s.items };

    ghost invariant = { λ s. (1 ≤ s.chunk) × (s.items ≤ input_limit) };
}

impl Spans {
    pub(crate) fn of(items: u64, chunk: u32) -> Spans
        requires chunk { 1 ≤ chunk }
        requires items { items ≤ input_limit }
        ensures { result ≡ spans_of chunk items }
    {
        Spans { items, chunk }
    }

    /// How many spans there are, which is the number of tasks.
    pub fn len(&self) -> u32
        ensures len { result ≡ length self.now }
        ensures few { result ≤ most_tasks }
    {
        self.items.div_ceil(step(self.items, self.chunk)) as u32
    }

    /// The span of a task.
    pub fn get(&self, task: u32) -> Span
        requires { task < length self.now }
        ensures { result ≡ slice_index_or self.now task (0, 0) }
    {
        let step = step(self.items, self.chunk);
        let start = u64::from(task) * step;
        Span {
            start,
            end: (start + step).min(self.items),
        }
    }
}

/// How far apart the cuts stand: the chunk, or more where that would give more than 1048576 tasks.
pub(crate) fn step(size: u64, chunk: u32) -> u64
    requires { size ≤ input_limit }
    ensures { result ≡ step_of chunk size }
{
    size.div_ceil(1048576).max(u64::from(chunk))
}
