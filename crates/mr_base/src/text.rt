ghost use Rattle.std.specs.Prelude.{◌≡◌, ◌+◌, ◌/◌, ◌%◌, ◌<◌, ◌≤◌, ◌++◌, ◌∷◌, [], length, take, drop, map, IfOk, OnOk, OnErr};
ghost use Rattle.std.specs.Fmt.{decimal, signed_decimal};
ghost use Rattle.std.specs.Int.{to_be_bytes, w64};
ghost use Rattle.mr_base.specs.Keys.{folded};
ghost use Rattle.mr_items.specs.Words.{lower};
ghost use Rattle.mr_items.specs.Texts.{spaced};
ghost use Rattle.mr_items.specs.FaultLines.{shown_byte, shown_text};

use crate::lead::folded_copy;
use crate::memory::Memory;
use itoa::Buffer;
use std::alloc::Global;
use std::marker::Model;

fn shown_byte(byte: u8) -> u8
    ensures { result ≡ shown_byte byte }
{
    if 33 <= byte && byte <= 126 {
        byte
    } else {
        b'?'
    }
}

fn shown_text(alloc: Global, key: &[u8]) -> Result<Vec<u8>, Memory>
    ensures { IfOk result (λ v. v.items ≡ shown_text key.now) }
{
    Ok(
        key.iter()
            .take(64)
            .map(|byte| shown_byte(*byte))
            .collect(alloc)?,
    )
}

// Turns A to Z into a to z from a place on.
fn lower_from(bytes: &mut [u8], from: usize)
    requires { from ≤ length bytes.old }
    ensures { bytes.new ≡ take from bytes.old ++ map lower (drop from bytes.old) }
{
    let (_, tail) = bytes.split_at_mut(from);
    tail.make_ascii_lowercase();
}

// The digits of a number below 100.
#[inline(always)]
fn tens(n: u64) -> u8
    requires { n < 100 }
    ensures { result ≡ 48 + n / 10 }
{
    b'0' + (n / 10) as u8
}

#[inline(always)]
fn ones(n: u64) -> u8
    ensures { result ≡ 48 + n % 10 }
{
    b'0' + (n % 10) as u8
}

/// Bytes that are to be written, seen as the list of them.
#[derive(Drop)]
pub struct Text {
    bytes: Vec<u8>,
    alloc: Global,
}

impl Model for Text {
    ghost use Rattle.std.specs.Prelude.{List, ℕ};

    ghost Value = { List ℕ };

    ghost view = { λ t. t.bytes.items };
}

impl Text {
    /// No byte. Takes no memory.
    pub fn new(alloc: Global) -> Text
        ensures { result ≡ [] }
    {
        Text {
            bytes: Vec::new(alloc),
            alloc,
        }
    }

    /// Makes room for so many bytes more. The bytes stay.
    pub fn reserve(&mut self, room: usize) -> Result<(), Memory>
        ensures { self.new ≡ self.old }
    {
        self.bytes.reserve(room)?;
        Ok(())
    }

    /// Appends these bytes. After want of memory the text is as before.
    #[inline]
    pub fn push(&mut self, bytes: &[u8]) -> Result<(), Memory>
        ensures ok { OnOk result (self.new ≡ self.old ++ bytes.now) }
        ensures err { OnErr result (self.new ≡ self.old) }
    {
        self.bytes.extend_from_slice(bytes)?;
        Ok(())
    }

    /// Appends the first `count` of the sixteen bytes of two words, the highest of the first one first. After want of memory the text is as
    /// before.
    // Sixteen bytes are appended whatever the count is, and the others cut off again: a copy of a fixed length is a store.
    #[inline]
    pub fn push_words(&mut self, first: u64, second: u64, count: usize) -> Result<(), Memory>
        requires { count ≤ 16 }
        ensures ok { OnOk result (self.new ≡ self.old ++ take count (to_be_bytes w64 first ++ to_be_bytes w64 second)) }
        ensures err { OnErr result (self.new ≡ self.old) }
    {
        let start = self.bytes.len();
        self.bytes.extend_from_slice(&first.to_be_bytes())?;
        match self.bytes.extend_from_slice(&second.to_be_bytes()) {
            Ok(()) => {
                self.bytes.truncate(start + count);
                Ok(())
            }
            Err(_) => {
                self.bytes.truncate(start);
                Err(Memory)
            }
        }
    }

    /// Appends these bytes, with A to Z turned into a to z where that is asked for. After want of memory the text is as before.
    pub fn push_folded(&mut self, bytes: &[u8], fold: bool) -> Result<(), Memory>
        ensures ok { OnOk result (self.new ≡ self.old ++ folded fold bytes.now) }
        ensures err { OnErr result (self.new ≡ self.old) }
    {
        let start = self.bytes.len();
        self.bytes.extend_from_slice(bytes)?;
        if fold {
            lower_from(&mut self.bytes, start);
        }
        Ok(())
    }

    /// Appends the decimal spelling of a number, with a `-` in front of one below 0. After want of memory the text is as before.
    pub fn push_number(&mut self, n: i128) -> Result<(), Memory>
        ensures ok { OnOk result (self.new ≡ self.old ++ signed_decimal n) }
        ensures err { OnErr result (self.new ≡ self.old) }
    {
        if let Ok(n) = u64::try_from(n) {
            return self.push_natural(n);
        }
        let mut buffer = Buffer::new();
        match i64::try_from(n) {
            Ok(n) => self.push(buffer.format(n).as_bytes()),
            Err(_) => self.push(buffer.format(n).as_bytes()),
        }
    }

    /// Appends the decimal spelling of a natural number. After want of memory the text is as before.
    #[inline]
    pub fn push_natural(&mut self, n: u64) -> Result<(), Memory>
        ensures ok { OnOk result (self.new ≡ self.old ++ decimal n) }
        ensures err { OnErr result (self.new ≡ self.old) }
    {
        if n < 10 {
            self.bytes.push(b'0' + n as u8)?;
            return Ok(());
        }
        let mut buffer = Buffer::new();
        self.push(buffer.format(n).as_bytes())
    }

    // Appends a space and the decimal spelling of a number. After want of memory the text is as before or ends in the space.
    #[inline]
    pub(crate) fn push_spaced(&mut self, n: i64) -> Result<(), Memory>
        ensures { OnOk result (self.new ≡ self.old ++ spaced n) }
    {
        if 1000000 <= n && n < 100000000 {
            return self.push_long(n as u64);
        }
        self.bytes.push(b' ')?;
        self.push_number(n as i128)
    }

    // Appends a space and the decimal spelling of a number of seven or eight digits, all bytes at once.
    #[inline]
    fn push_long(&mut self, n: u64) -> Result<(), Memory>
        requires low { 1000000 ≤ n }
        requires high { n < 100000000 }
        ensures { OnOk result (self.new ≡ self.old ++ 32 ∷ decimal n) }
    {
        let (first, second) = (n / 1000000, n / 10000 % 100);
        let (third, fourth) = (n % 10000 / 100, n % 100);
        let (a, b) = (tens(second), ones(second));
        let (c, d) = (tens(third), ones(third));
        let (e, f) = (tens(fourth), ones(fourth));
        if first < 10 {
            return self.push(&[b' ', ones(first), a, b, c, d, e, f]);
        }
        self.push(&[b' ', tens(first), ones(first), a, b, c, d, e, f])
    }

    /// Appends what a line shows of a key: its first 64 bytes, with `?` in place of each outside 33 to 126. After want of memory the text
    /// is as before.
    pub fn push_shown(&mut self, key: &[u8]) -> Result<(), Memory>
        ensures ok { OnOk result (self.new ≡ self.old ++ shown_text key.now) }
        ensures err { OnErr result (self.new ≡ self.old) }
    {
        let shown = shown_text(self.alloc, key)?;
        self.push(&shown)
    }

    /// The same of these bytes, with A to Z turned into a to z where that is asked for.
    pub fn push_shown_folded(&mut self, key: &[u8], fold: bool) -> Result<(), Memory>
        ensures ok { OnOk result (self.new ≡ self.old ++ shown_text (folded fold key.now)) }
        ensures err { OnErr result (self.new ≡ self.old) }
    {
        let key = folded_copy(self.alloc, key, fold)?;
        self.push_shown(&key)
    }

    /// The bytes, without a copy.
    pub fn into_bytes(self) -> Vec<u8>
        ensures { result.items ≡ self }
    {
        self.bytes
    }

    /// The bytes.
    pub fn as_bytes(&self) -> &[u8]
        ensures { result.now ≡ self.now }
    {
        self.bytes.as_slice()
    }
}
