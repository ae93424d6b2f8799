ghost use Rattle.std.specs.Prelude.{◌≡◌, ◌≢◌, ◌<◌, ◌≤◌, ◌↔◌, [], ◌∷◌, ◌++◌, ℕ, negsuc, IfOk, All, Contains, flat_map, map, length};
ghost use Rattle.std.specs.Prelude.{slice_index, slice_index_or, vec_len, vec_capacity};
ghost use Rattle.std.specs.List.{IsDistinct};
ghost use Rattle.std.specs.List.Sorted.{IsPermutation, IsStrictlySortedBy};
ghost use Rattle.std.specs.Ordering.{eq_by_cmp, nat_cmp};
ghost use Rattle.std.specs.Slots.{slots_len, slots_items, IsFull};
ghost use Rattle.mr_defs.specs.Folded.{limit};
ghost use Rattle.mr_defs.specs.Limits.{greatest_capacity};
ghost use Rattle.mr_common.specs.declared.common.CommonPass.{CommonPass};
ghost use Rattle.mr_common.specs.declared.common.Emitted.TheVariants.{Won, Twice, Outside};
ghost use Rattle.mr_common.specs.Lawful.{EMPTY, keys};
ghost use Rattle.mr_common.specs.Passes.{IsPassOf, ArePassesOf, IsUnused, pairs_to, row_of, won, refused};

use crate::common::{CommonArray, CommonPass, Emitted};
use crate::rule::FirstWins;
use crate::step::{NOTHING, cut_off, exchange, join, word_of};
use crate::view::{Extent, View};
use atomic_table::{Closed, Table};
use mr_base::{Answer, Few, Memory, NumKey, Rows};
use std::alloc::Global;

type Words = Table<u8, View, Extent, FirstWins, Global>;

// So many words that hold nothing.
fn empty_words(alloc: Global, count: usize) -> Result<Vec<u64>, Memory>
    ensures len { IfOk result (λ v. length v.items ≡ count) }
    ensures empty { IfOk result (λ v. (k : ℕ) → k < count → slice_index v.items k ≡ EMPTY) }
{
    let mut words = Vec::with_capacity(alloc, count)?;
    for _ in 0..count {
        words.push_reserved(NOTHING);
    }
    Ok(words)
}

fn whole(table: Words, size: u32) -> CommonArray
    requires words { (table.shared.table_id.words ≡ size) × (table.shared.table_id.slots ≡ 0) × (table.shared.key.words ≡ size) }
    requires few { (0 < size) × (size ≤ greatest_capacity) }
    ensures { (result.table ≡ table) × (result.size ≡ size) }
{
    CommonArray { table, size }
}

impl CommonArray {
    /// An array of this size, from 1 to 65536. All words are empty, and no pass has won or was refused anything. There are 1 to 32 passes.
    pub fn new(
        alloc: Global,
        size: u32,
        passes: u32,
    ) -> Result<(CommonArray, Few<CommonPass>), Memory>
        requires passes { (0 < passes) × (passes ≤ 32) }
        requires words { (0 < size) × (size ≤ greatest_capacity) }
        ensures size { IfOk result (λ r. r.0.size ≡ size) }
        ensures count { IfOk result (λ r. (length r.1.items ≡ passes) × (r.0.table.shared.key.passes ≡ passes)) }
        ensures passes { IfOk result (λ r. ArePassesOf r.0.table.shared.table_id size r.1.items) }
        ensures unused { IfOk result (λ r. All IsUnused r.1.items) }
    {
        let words = empty_words(alloc, size as usize)?;
        let mut all = Few::with_room(alloc, passes)?;
        let extent = Extent {
            words: u64::from(size),
            passes: u64::from(passes),
        };
        let (table, mut seat) = Words::of_words(alloc, words.as_slice(), &extent)?;
        let array = whole(table, size);
        for _ in 0..passes - 1 {
            let own = cut_off(&array.table.shared, &mut seat);
            all.push(CommonPass { seat: own });
        }
        all.push(CommonPass { seat });
        Ok((array, all))
    }

    /// Emits a pair. `Outside` comes exactly where the key isn't below the size, and changes nothing. Else one exchange of the key's word
    /// decides: the first pair of a key is won, and a later one is refused. Takes no memory and waits for nobody.
    pub fn emit(&self, pass: &mut CommonPass, key: u64, value: i64) -> Emitted
        requires pass { IsPassOf self.now.table.shared.table_id self.now.size pass.old }
        requires value { value ≢ negsuc limit }
        ensures same { IsPassOf self.now.table.shared.table_id self.now.size pass.new × (pass.new.seat.id ≡ pass.old.seat.id) }
        ensures won { result ≡ Won → (won pass.new ≡ won pass.old ++ (key, value) ∷ []) × (refused pass.new ≡ refused pass.old) }
        ensures twice { result ≡ Twice → (won pass.new ≡ won pass.old) × (refused pass.new ≡ refused pass.old ++ key ∷ []) }
        ensures outside { (result ≡ Outside) ↔ (self.now.size ≤ key) }
        ensures unchanged { result ≡ Outside → pass.new ≡ pass.old }
    {
        if key >= self.size as u64 {
            return Emitted::Outside;
        }
        if exchange(
            &self.table.shared,
            &mut pass.seat,
            key as usize,
            word_of(value),
        ) {
            Emitted::Won
        } else {
            Emitted::Twice
        }
    }

    /// Ends the array: the rows are all pairs that the passes won, ascending by key. The keys that were won differ, and each key that was
    /// refused is one of them.
    ///
    /// The passes are all those of this array.
    pub fn finish(self, alloc: Global, mut passes: Few<CommonPass>) -> Result<Rows<NumKey>, Memory>
        requires count { length passes.items ≡ self.table.shared.key.passes }
        requires some { 0 < length passes.items }
        requires passes { ArePassesOf self.table.shared.table_id self.size passes.items }
        ensures ascending { IfOk result (λ rows. IsStrictlySortedBy nat_cmp (map (λ row. row.0) rows)) }
        ensures rows { IfOk result (λ rows. IsPermutation (map row_of (flat_map won passes.items)) rows) }
        ensures differ { IfOk result (λ _. IsDistinct (eq_by_cmp nat_cmp) (keys (flat_map won passes.items))) }
        ensures refused { IfOk result (λ _. All (Contains (keys (flat_map won passes.items))) (flat_map refused passes.items)) }
    {
        let mut rows = Vec::with_capacity(alloc, self.size as usize)?;
        let Some(first) = passes.pop() else {
            unreachable!()
        };
        let mut seat = first.seat;
        while let Some(next) = passes.pop() {
            join(&self.table.shared, &mut seat, next.seat);
        }
        let CommonArray { table, size } = self;
        let closed = table.close_with(seat);
        read_rows(&closed, &mut rows, size as usize);
        closed.free();
        Ok(Rows::from_entries(rows))
    }
}

// A row for each of so many words that isn't empty, in their order.
fn read_rows(closed: &Closed<u8, Global>, rows: &mut Vec<(NumKey, Answer)>, count: usize)
    requires words { (slots_len closed.now.words ≡ count) × IsFull closed.now.words }
    requires room { (rows.old.items ≡ []) × (vec_len rows.old ≡ 0) × (count ≤ vec_capacity rows.old) }
    ensures { rows.new.items ≡ map row_of (pairs_to (slots_items closed.now.words) count) }
{
    for k in 0..count {
        let word = closed.word(k);
        if word != NOTHING {
            let value = i128::from(word.cast_signed());
            rows.push_reserved((NumKey(k as u64), Answer::one(value)));
        }
    }
}
