ghost use Rattle.std.specs.Prelude.{◌≡◌, ◌<◌, ◌≤◌, List, ℕ, length};
ghost use Rattle.std.specs.declared.option.Option.{Option};
ghost use Rattle.mr_outside.specs.Count.{Rose};
ghost use Rattle.mr_outside.specs.Sink.{Takes};

/// What [`Sink::write`] answers.
#[derive(Clone, Copy, Debug, PartialEq, Eq)]
pub enum Put {
    /// This many bytes, at least 1.
    Took(usize),
    /// Nothing was taken.
    Failed,
}

/// A taker of bytes.
pub trait Sink {
    /// The bytes that it holds, where it tells them.
    ghost held: { Self → Option (List ℕ) };

    /// How many faults there were, at most 2^64 - 1.
    ghost count: { Self → ℕ };

    /// Appends a front of `piece`, which has one byte at least. `Failed` appends nothing and is a fault.
    fn write(&mut self, piece: &[u8]) -> Put
        requires { 0 < length piece.now }
        ensures takes { Takes (held self.old) (held self.new) result piece.now }
        ensures later { count self.old ≤ count self.new }
        ensures quiet { (n : ℕ) → result ≡ Put.Took n → count self.new ≡ count self.old }
        ensures cause { result ≡ Put.Failed → Rose (count self.old) (count self.new) };

    /// The count of faults. It never falls, and stands still at 2^64 - 1.
    fn faults(&self) -> u64
        ensures { result ≡ count self.now };
}
