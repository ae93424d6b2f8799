ghost use Rattle.std.specs.Prelude.{◌≡◌, ◌≤◌, ◌<◌, ◌+◌, ◌-◌, ◌^◌, ◌⊎◌, ◌↔◌, ◌++◌, ◌∷◌, [], ℕ, List, IfOk, IfSome, IfNone, OnOk, OnErr};
ghost use Rattle.std.specs.Prelude.{IsTrue, Some, None, length, min, take, drop, replicate, slice_get, unwrap_or, is_some, true, false};
ghost use Rattle.mr_outside.specs.Calls.{no_calls, failing_at, called, fails_next};
ghost use Rattle.mr_outside.specs.Count.{Rose};
ghost use Rattle.mr_outside.specs.Entry.{contents_of, content_of};
ghost use Rattle.mr_outside.specs.MemoryShelf.{told, repeated, started_content, faults_after};
ghost use Rattle.mr_outside.specs.Shelf.{IfBytes, OnNothing, Gives};

use crate::calls::Calls;
use crate::{Got, Shelf, Started};
use mr_base::{Memory, Word};
use std::alloc::Global;
use std::marker::Model;

// The bytes of a content: stored, or one byte repeated.
#[derive(Drop)]
enum Body {
    Stored(Vec<u8>),
    Repeated(u8, u64),
}

// A content and its name.
#[derive(Drop)]
struct Entry {
    name: Word,
    body: Body,
}

/// A shelf that tells its contents, and fails only at a name that is not there and where a call was told to fail.
#[derive(Drop)]
pub struct MemoryShelf {
    alloc: Global,
    entries: Vec<Entry>,
    cut: u32,
    started: Option<usize>,
    place: u64,
    calls: Calls,
    faults: u64,
}

impl Model for MemoryShelf {
    ghost use Rattle.std.specs.Prelude.{◌≤◌};
    ghost use Rattle.mr_outside.specs.MemoryShelf.{ShelfState};
    ghost use Rattle.mr_outside.specs.Entry.{contents_of, name_at, IsAt};

    ghost Value = { ShelfState };

    ghost view = { λ m. record {
      contents = contents_of m.entries.items;
      cut = m.cut;
      started = name_at m.entries.items m.started;
      place = m.place;
      calls = m.calls;
      faults = m.faults;
    } };

    ghost invariant = { λ m. (1 ≤ m.cut) × IsAt m.entries.items m.started m.place };
}

// The place of the first entry of this name.
fn find(entries: &[Entry], name: &str) -> Option<usize>
    ensures none { IfNone result (told (contents_of entries.now) name.now ≡ None) }
    ensures some { IfSome result (λ k. (entry : Entry) × (slice_get entries.now k ≡ Some entry) × (entry.name ≡ name.now)
        × (told (contents_of entries.now) name.now ≡ Some (content_of entry.body))) }
{
    for (k, entry) in entries.iter().enumerate() {
        if entry.name.as_str() == name {
            return Some(k);
        }
    }
    None
}

// Puts this byte everywhere.
fn fill(buf: &mut [u8], byte: u8)
    ensures { buf.new ≡ replicate (length buf.old) byte }
{
    for b in buf {
        *b = byte;
    }
}

// Copies the next bytes of the body from this place on, at most `cut` of them, and says how many.
fn give(body: &Body, place: u64, cut: u32, buf: &mut [u8]) -> usize
    requires inside { place ≤ length (content_of body.now) }
    ensures count { result ≡ min (min (length buf.old) cut) (length (content_of body.now) - place) }
    ensures bytes { take result buf.new ≡ take result (drop place (content_of body.now)) }
    ensures fits { place + result < 2 ^ 64 }
{
    let most = buf.len().min(cut as usize);
    match body {
        Body::Stored(bytes) => {
            let place = place as usize;
            let n = most.min(bytes.len() - place);
            buf[..n].copy_from_slice(&bytes[place..place + n]);
            n
        }
        Body::Repeated(byte, count) => {
            let n = most.min((*count - place) as usize);
            fill(&mut buf[..n], *byte);
            n
        }
    }
}

impl MemoryShelf {
    /// An empty shelf whose reads give at most `cut` bytes each.
    pub fn new(alloc: Global, cut: u32) -> Result<MemoryShelf, Memory>
        requires { 1 ≤ cut }
        ensures { IfOk result (λ shelf. shelf ≡ record
            { contents = []; cut = cut; started = None; place = 0; calls = no_calls; faults = 0 }) }
    {
        Ok(MemoryShelf {
            alloc,
            entries: Vec::new(alloc),
            cut,
            started: None,
            place: 0,
            calls: Calls::new(alloc),
            faults: 0,
        })
    }

    /// Adds a copy of these bytes by a name that is not there yet.
    pub fn add(&mut self, name: &str, bytes: &[u8]) -> Result<(), Memory>
        requires { told self.old.contents name.now ≡ None }
        ensures ok { OnOk result (self.new ≡ record self.old
            { contents = self.old.contents ++ (name.now, bytes.now) ∷ [] }) }
        ensures err { OnErr result (self.new ≡ self.old) }
    {
        let name = Word::of(self.alloc, name)?;
        let body = Body::Stored(Vec::from_slice(self.alloc, bytes)?);
        self.entries.push(Entry { name, body })?;
        Ok(())
    }

    /// Adds `count` times one byte by a name that is not there yet. They are not stored.
    pub fn add_repeated(&mut self, name: &str, byte: u8, count: u64) -> Result<(), Memory>
        requires { told self.old.contents name.now ≡ None }
        ensures ok { OnOk result (self.new ≡ record self.old
            { contents = self.old.contents ++ (name.now, repeated byte count) ∷ [] }) }
        ensures err { OnErr result (self.new ≡ self.old) }
    {
        let name = Word::of(self.alloc, name)?;
        let body = Body::Repeated(byte, count);
        self.entries.push(Entry { name, body })?;
        Ok(())
    }

    /// Makes the call of this number fail, which is then a fault. Calls of `start` and `read` are numbered together
    /// from 1.
    pub fn fail_at(&mut self, call: u64) -> Result<(), Memory>
        ensures ok { OnOk result (self.new ≡ record self.old { calls = failing_at call self.old.calls }) }
        ensures err { OnErr result (self.new ≡ self.old) }
    {
        self.calls.fail_at(call)
    }
}

impl Shelf for MemoryShelf {
    ghost contents = { λ m. Some (told m.contents) };

    ghost is_started = { λ m. is_some m.started };

    ghost started = { λ m. unwrap_or m.started [] };

    ghost place = { λ m. m.place };

    ghost count = { λ m. m.faults };

    fn start(&mut self, name: &str) -> Started
        ensures later { self.old.faults ≤ self.new.faults }
        ensures ready { result ≡ Started.Ready → self.new.started ≡ Some name.now }
        ensures none { result ≡ Started.Failed → self.new.started ≡ None }

        ensures failed { (result ≡ Started.Failed)
            ↔ (IsTrue (fails_next self.old.calls) ⊎ (told self.old.contents name.now ≡ None)) }
        ensures rest { self.new ≡ record self.old
            { started = self.new.started; place = 0; calls = called self.old.calls; faults = faults_after self.old } }
    {
        self.started = None;
        self.place = 0;
        if self.calls.next_fails() {
            self.faults = self.faults.saturating_add(1);
            return Started::Failed;
        }
        self.started = find(&self.entries, name);
        match self.started {
            Some(_) => Started::Ready,
            None => Started::Failed,
        }
    }

    fn read(&mut self, buf: &mut [u8]) -> Got
        requires room { 0 < length buf.old }
        requires started { is_some self.old.started ≡ true }
        ensures later { self.old.faults ≤ self.new.faults }
        ensures bounds { IfBytes result (λ n. (1 ≤ n) × (n ≤ length buf.new)) }
        ensures moved { IfBytes result (λ n. self.new.place ≡ min (self.old.place + n) (2 ^ 64 - 1)) }
        ensures bytes { IfBytes result (λ n. (content : List ℕ) → started_content self.old ≡ Some content
            → Gives content self.old.place n buf.new) }
        ensures still { OnNothing result (self.new.place ≡ self.old.place) }
        ensures end { result ≡ Got.End → (content : List ℕ) → started_content self.old ≡ Some content
            → self.old.place ≡ length content }

        ensures failed { (result ≡ Got.Failed) ↔ IsTrue (fails_next self.old.calls) }
        ensures size { IfBytes result (λ n. (content : List ℕ) → started_content self.old ≡ Some content
            → n ≡ min (min (length buf.old) self.old.cut) (length content - self.old.place)) }
        ensures rest { self.new ≡ record self.old
            { place = self.new.place; calls = called self.old.calls; faults = faults_after self.old } }
    {
        if self.calls.next_fails() {
            self.faults = self.faults.saturating_add(1);
            return Got::Failed;
        }
        let Some(at) = self.started else {
            unreachable!()
        };
        let n = give(&self.entries[at].body, self.place, self.cut, buf);
        if n == 0 {
            return Got::End;
        }
        self.place += n as u64;
        Got::Bytes(n)
    }

    fn faults(&self) -> u64 {
        self.faults
    }
}
