ghost use Rattle.std.specs.Prelude.{◌≡◌, [], ◌∷◌, ◌++◌, flat_map, length, slice_get, Some, ◌<◌, OnOk};
ghost use Rattle.mr_items.specs.Texts.{spaced};

use crate::few::Few;
use crate::memory::Memory;
use crate::text::Text;
use std::marker::Model;

/// The numbers that stand with a key, one or more, seen as the list of them. None of its calls takes memory.
#[derive(Drop)]
pub struct Answer {
    numbers: Numbers,
}

// Numbers of 64 bits take no more than they need, since there are as many answers as keys. Two of any size need 32 bytes, and memory may
// not be taken. A list of 64 bits each is kept as it is given.
#[derive(Drop)]
enum Numbers {
    One(i64),
    Two(i64, i64),
    WideOne(Wide),
    WideTwo(Wide, Wide),
    Listed(Vec<i64>),
    Many(Few<i128>),
}

const _: () = prove!(size_of::<Answer>() == 40);

impl Model for Answer {
    ghost use Rattle.std.specs.Prelude.{List, ℤ};

    ghost Value = { List ℤ };

    ghost use Rattle.mr_base.specs.Numbers.{numbers_of};

    ghost view = { λ a. numbers_of a.numbers };
}

// A number of 128 bits in two words, which lie as closely as numbers of 64 bits do: of n its words, and of -1 - n these with the high one's
// first bit set.
#[derive(Drop)]
struct Wide {
    high: u64,
    low: u64,
}

impl Model for Wide {
    ghost use Rattle.std.specs.Prelude.{ℤ};

    ghost Value = { ℤ };

    ghost use Rattle.mr_base.specs.Numbers.{of_words};

    ghost view = { λ w. of_words w.high w.low };
}

// How many numbers a word has, and the least whose first bit is set.
const WORD: u128 = 18446744073709551616;

const NEGATIVE: u64 = 9223372036854775808;

impl Wide {
    fn of(n: i128) -> Wide
        ensures { result ≡ n }
    {
        let negative = n < 0;
        let rest = (if negative { -1 - n } else { n }) as u128;
        let high = (rest / WORD) as u64;
        Wide {
            high: if negative { high + NEGATIVE } else { high },
            low: (rest % WORD) as u64,
        }
    }

    fn number(&self) -> i128
        ensures { result ≡ self.now }
    {
        let negative = self.high >= NEGATIVE;
        let high = if negative {
            self.high - NEGATIVE
        } else {
            self.high
        };
        let rest = (high as u128 * WORD + self.low as u128) as i128;
        if negative { -1 - rest } else { rest }
    }
}

impl Answer {
    /// The answer of one number.
    pub fn one(n: i128) -> Answer
        ensures { result ≡ n ∷ [] }
    {
        let numbers = match i64::try_from(n) {
            Ok(n) => Numbers::One(n),
            Err(_) => Numbers::WideOne(Wide::of(n)),
        };
        Answer { numbers }
    }

    /// The answer of two numbers.
    pub fn two(first: i128, second: i128) -> Answer
        ensures { result ≡ first ∷ second ∷ [] }
    {
        let numbers = match (i64::try_from(first), i64::try_from(second)) {
            (Ok(first), Ok(second)) => Numbers::Two(first, second),
            _ => Numbers::WideTwo(Wide::of(first), Wide::of(second)),
        };
        Answer { numbers }
    }

    /// The answer that has these numbers.
    pub fn many(numbers: Few<i128>) -> Answer
        ensures { result ≡ numbers.items }
    {
        Answer {
            numbers: Numbers::Many(numbers),
        }
    }

    /// The answer that has these numbers, which are kept without a copy.
    pub fn listed(numbers: Vec<i64>) -> Answer
        ensures { result ≡ numbers.items }
    {
        Answer {
            numbers: Numbers::Listed(numbers),
        }
    }

    /// How many numbers it has.
    pub fn len(&self) -> usize
        ensures { result ≡ length self.now }
    {
        match &self.numbers {
            Numbers::One(_) | Numbers::WideOne(_) => 1,
            Numbers::Two(_, _) | Numbers::WideTwo(_, _) => 2,
            Numbers::Listed(list) => list.len(),
            Numbers::Many(few) => few.len(),
        }
    }

    /// Number `i`, counted from 0.
    pub fn number(&self, i: usize) -> i128
        requires { i < length self.now }
        ensures { slice_get self.now i ≡ Some result }
    {
        match &self.numbers {
            Numbers::One(n) => *n as i128,
            Numbers::Two(first, second) => (if i == 0 { *first } else { *second }) as i128,
            Numbers::WideOne(n) => n.number(),
            Numbers::WideTwo(first, second) => if i == 0 { first } else { second }.number(),
            Numbers::Listed(list) => list[i] as i128,
            Numbers::Many(few) => *few.get(i),
        }
    }

    /// Appends a space and the decimal spelling of each number.
    pub fn print(&self, text: &mut Text) -> Result<(), Memory>
        ensures { OnOk result (text.new ≡ text.old ++ flat_map spaced self.now) }
    {
        if let Numbers::Listed(list) = &self.numbers {
            return print_list(list, text);
        }
        for i in 0..self.len() {
            text.push(b" ")?;
            text.push_number(self.number(i))?;
        }
        Ok(())
    }
}

// Appends a space and the decimal spelling of each of these numbers.
fn print_list(numbers: &[i64], text: &mut Text) -> Result<(), Memory>
    ensures { OnOk result (text.new ≡ text.old ++ flat_map spaced numbers.now) }
{
    for number in numbers {
        text.push_spaced(*number)?;
    }
    Ok(())
}
