ghost use Rattle.std.specs.Prelude.{◌≡◌, ◌++◌, ◌∷◌, [], OnOk, OnErr};
ghost use Rattle.mr_outside.specs.Calls.{no_calls, failing_at, called, fails_next};

use mr_base::Memory;
use std::alloc::Global;
use std::marker::Model;

// How many calls were made, and the numbers of those that are to fail.
#[derive(Drop)]
pub struct Calls {
    made: u64,
    failing: Vec<u64>,
}

impl Model for Calls {
    ghost use Rattle.mr_outside.specs.Calls.{Calls};

    ghost Value = { Calls };

    ghost view = { λ c. record { made = c.made; failing = c.failing.items } };
}

impl Calls {
    pub fn new(alloc: Global) -> Calls
        ensures { result ≡ no_calls }
    {
        Calls {
            made: 0,
            failing: Vec::new(alloc),
        }
    }

    pub fn fail_at(&mut self, call: u64) -> Result<(), Memory>
        ensures ok { OnOk result (self.new ≡ failing_at call self.old) }
        ensures err { OnErr result (self.new ≡ self.old) }
    {
        self.failing.push(call)?;
        Ok(())
    }

    // Counts a call, and says whether it is to fail.
    pub fn next_fails(&mut self) -> bool
        ensures fails { result ≡ fails_next self.old }
        ensures called { self.new ≡ called self.old }
    {
        self.made = self.made.saturating_add(1);
        self.failing.contains(&self.made)
    }
}
