ghost use Rattle.std.specs.Prelude.{◌≡◌, ◌<◌, ◌≤◌, ◌+◌, ◌⊎◌, ◌^◌, ◌-◌, min, List, ℕ, Bool, true, false, length, is_some};
ghost use Rattle.std.specs.declared.option.Option.{Option};
ghost use Rattle.mr_outside.specs.Count.{Rose};
ghost use Rattle.mr_outside.specs.Shelf.{IsMissing, IsTold, IfBytes, Gives, OnNothing};

/// What [`Shelf::start`] answers.
#[derive(Clone, Copy, Debug, PartialEq, Eq)]
pub enum Started {
    /// The name is started at its first byte.
    Ready,
    /// No name is started.
    Failed,
}

/// What [`Shelf::read`] answers.
#[derive(Clone, Copy, Debug, PartialEq, Eq)]
pub enum Got {
    /// This many bytes, at least 1.
    Bytes(usize),
    /// The content has no byte left.
    End,
    /// Nothing was read.
    Failed,
}

/// Contents by name, read from their start to their end.
pub trait Shelf {
    /// The contents by name, where they are told.
    ghost contents: { Self → Option (List ℕ → Option (List ℕ)) };

    /// Whether a name is started.
    ghost is_started: { Self → Bool };

    /// The name that is started, where contents are told.
    ghost started: { Self → List ℕ };

    /// How many bytes `read` gave since the start, at most 2^64 - 1.
    ghost place: { Self → ℕ };

    /// How many faults there were, at most 2^64 - 1.
    ghost count: { Self → ℕ };

    /// Starts a name at its first byte, or leaves no name started.
    ///
    /// A name that is not there is `Failed`, which alone is no fault. Every other `Failed` is one.
    fn start(&mut self, name: &str) -> Started
        ensures kept { contents self.new ≡ contents self.old }
        ensures later { count self.old ≤ count self.new }
        ensures quiet { result ≡ Started.Ready → count self.new ≡ count self.old }

        ensures ready { result ≡ Started.Ready → is_started self.new ≡ true }
        ensures name { result ≡ Started.Ready → is_some (contents self.old) ≡ true
            → started self.new ≡ name.now }
        ensures none { result ≡ Started.Failed → is_started self.new ≡ false }
        ensures place { place self.new ≡ 0 }

        ensures missing { IsMissing (contents self.old) name.now → result ≡ Started.Failed }
        ensures cause { result ≡ Started.Failed
            → Rose (count self.old) (count self.new) ⊎ IsMissing (contents self.old) name.now };

    /// Reads the next bytes of the name that is started into the front of `buf`, which has room for one at least.
    ///
    /// The name is started still, and after `End` and `Failed` at the same place. `Failed` is a fault.
    fn read(&mut self, buf: &mut [u8]) -> Got
        requires room { 0 < length buf.old }
        requires started { is_started self.old ≡ true }
        ensures kept { contents self.new ≡ contents self.old }
        ensures later { count self.old ≤ count self.new }
        ensures quiet { (result ≡ Got.Failed → ⊥) → count self.new ≡ count self.old }

        ensures still_started { is_started self.new ≡ true }
        ensures name { started self.new ≡ started self.old }

        ensures bounds { IfBytes result (λ n. (1 ≤ n) × (n ≤ length buf.new)) }
        ensures moved { IfBytes result (λ n. place self.new ≡ min (place self.old + n) (2 ^ 64 - 1)) }
        ensures bytes { IfBytes result (λ n. (content : List ℕ) → IsTold (contents self.old) (started self.old) content
            → Gives content (place self.old) n buf.new) }

        ensures still { OnNothing result (place self.new ≡ place self.old) }
        ensures end { result ≡ Got.End → (content : List ℕ) → IsTold (contents self.old) (started self.old) content
            → place self.old ≡ length content }
        ensures cause { result ≡ Got.Failed → Rose (count self.old) (count self.new) };

    /// The count of faults. It never falls, and stands still at 2^64 - 1.
    fn faults(&self) -> u64
        ensures { result ≡ count self.now };
}
