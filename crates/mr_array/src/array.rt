ghost use Rattle.std.specs.Prelude.{◌≡◌, ◌||◌, ◌≤◌, ◌<◌, ◌%◌, ◌∷◌, ◌++◌, [], ℕ, not, map, nat_lt, replicate, vec_len, Option, None, IfOk};
ghost use Rattle.std.specs.Prelude.{OnOk, OnErr};
ghost use Rattle.std.specs.List.{range_with_len};
ghost use Rattle.std.specs.Cmp.{nat_cmp_total};
ghost use Rattle.std.specs.FinMap.{nat_cmp-IsAntisymmetric};
ghost use Rattle.std.proofs.Common.{ap, refl};
ghost use Rattle.mr_defs.specs.Limits.{greatest_capacity};
ghost use Rattle.mr_defs.specs.Stands.{StandsFor};
ghost use Rattle.mr_base.specs.Noting.{noted_of};
ghost use Rattle.mr_container.specs.Laws.{any_order, kept};
ghost use Rattle.mr_array.specs.Cells.{is_below, cell_under, filled};

use mr_base::{Faults, Key, Memory, NumKey, keep_lesser};
use mr_combine::{Combiner, Run};
use mr_container::{Cursor, Local, Parted};
use std::alloc::Global;
use std::marker::{Brand, PhantomData};

/// How many places arrays have, in contracts alone. A call at the type `Brand` picks it, so that one type serves arrays of every size.
pub trait Size {
    ghost size: { ℕ };
}

impl Size for Brand {
    ghost size = { 1 };
}

/// The size N, where it is known as a const.
pub struct Fixed<const N: usize>;

impl<const N: usize> Size for Fixed<N> {
    ghost size = { N };
}

/// The cells of the number keys below a size from 1 to 65536.
///
/// A key is inside where it is below the size, and its part is the key modulo the number of parts.
#[derive(Drop)]
pub struct ArrayLocal<C: Combiner, S: Size> {
    size: u32,
    cells: Vec<Option<C::Cell>>,
    keys: Vec<NumKey>,
    faults: Faults<NumKey>,
    alloc: Global,
    of: PhantomData<S>,
    ghost sized: { size ≡ S.size },
    ghost places: { vec_len cells ≡ S.size },
    ghost few_places: { S.size ≤ greatest_capacity },
    ghost named: { keys.items ≡ range_with_len 0 S.size },
}

impl<C: Combiner, S: Size> ArrayLocal<C, S> {
    /// A local with no cell. Takes the memory of all places; with a fixed combiner no pair takes any later.
    pub fn new(alloc: Global, size: u32) -> Result<ArrayLocal<C, S>, Memory>
        requires size { size ≡ S.size }
        requires some { 1 ≤ size }
        requires few { size ≤ greatest_capacity }
        ensures empty { IfOk result (λ local. ⟦<ArrayLocal<C, S> as Local>⟧.stands local []) }
        ensures inside { (k : ℕ) → ⟦<ArrayLocal<C, S> as Parted>⟧.inside k ≡ nat_lt k S.size }
        ensures parts { (parts k : ℕ) → ⟦<ArrayLocal<C, S> as Parted>⟧.part_of parts k ≡ k % parts }
        ensures spares { (s : _) (k : ℕ) → ⟦<ArrayLocal<C, S> as Local>⟧.spares s k ≡ (C.fixed || not (nat_lt k S.size)) }
    {
        let cells = empty_cells(alloc, size as usize)?;
        let keys = first_keys(alloc, size as usize)?;
        Ok(ArrayLocal {
            size,
            cells,
            keys,
            faults: Faults::none(),
            alloc,
            of: PhantomData,
        })
    }
}

// So many keys from 0 on.
fn first_keys(alloc: Global, count: usize) -> Result<Vec<NumKey>, Memory>
    ensures { IfOk result (λ keys. keys.items ≡ range_with_len 0 count) }
{
    let mut keys = Vec::with_capacity(alloc, count)?;
    for place in 0..count {
        keys.push(NumKey(place as u64))?;
    }
    Ok(keys)
}

// So many places with no cell.
fn empty_cells<T: Drop>(alloc: Global, count: usize) -> Result<Vec<Option<T>>, Memory>
    ensures items { IfOk result (λ cells. cells.items ≡ replicate count None) }
    ensures len { IfOk result (λ cells. vec_len cells ≡ count) }
{
    let mut cells = Vec::with_capacity(alloc, count)?;
    for _place in 0..count {
        cells.push(None)?;
    }
    Ok(cells)
}

impl<C: Combiner, S: Size> Local for ArrayLocal<C, S> {
    type Key = NumKey;

    type Value = C::Value;

    ghost stands = { λ s es. StandsFor ⟦<NumKey as Ord>⟧.cmp (is_below S.size) C.unit_of C.merged (cell_under s.cells.items)
        (filled s.cells.items) (noted_of s.faults) es };

    ghost noted = { λ s. noted_of s.faults };

    ghost cell_count = { λ s. filled s.cells.items };

    ghost same_origin = { λ _ _. Unit {0} };

    ghost same = { λ s t. (t.cells.items ≡ s.cells.items) × (noted_of t.faults ≡ noted_of s.faults) };

    ghost spares = { λ s k. C.fixed || not (is_below S.size k) };

    ghost any_order = { λ s es fs p h. any_order nat_cmp_total nat_cmp-IsAntisymmetric (is_below S.size) C.laws C.unit_of _ _ _ es fs p h };

    ghost same_refl = { λ _. (refl, refl) };

    ghost same_keeps = { λ s t e. (
      kept ⟦<NumKey as Ord>⟧.cmp (is_below S.size) C.unit_of C.merged _ _ _ _ _ _ (λ k. ap (λ cells. cell_under cells k) e.0)
          (ap filled e.0) e.1,
      e.1,
      ap filled e.0,
      λ k. refl,
    ) };

    ghost origin_refl = { λ _. tt };

    ghost origin_trans = { λ _ _ _ _ _. tt };

    #[inline(always)]
    fn emit(&mut self, key: NumKey, value: C::Value) -> Result<(), Memory> {
        if key.0 >= self.size as u64 {
            keep_lesser(&mut self.faults.outside, Some(key));
            return Ok(());
        }
        let place = key.0 as usize;
        match &mut self.cells[place] {
            Some(cell) => C::add(cell, value),
            None => {
                let cell = C::unit(self.alloc, value)?;
                self.cells[place] = Some(cell);
                Ok(())
            }
        }
    }

    #[inline(always)]
    fn add_run<R: Run<Value = C::Value>>(&mut self, key: &NumKey, run: &R) -> Result<bool, Memory> {
        let size = self.size as u64;
        if key.0 >= size {
            return Ok(false);
        }
        match &mut self.cells[key.0 as usize] {
            Some(cell) => {
                C::add_run(cell, run)?;
                Ok(true)
            }
            None => Ok(false),
        }
    }

    fn spares_all(&self) -> bool {
        C::is_fixed()
    }

    fn too_large(&mut self, key: NumKey) {
        if key.0 < self.size as u64 {
            keep_lesser(&mut self.faults.over, Some(key));
        } else {
            keep_lesser(&mut self.faults.outside, Some(key));
        }
    }

    fn malformed(&mut self, offset: u64) {
        keep_lesser(&mut self.faults.malformed, Some(offset));
    }

    fn cells(&self) -> u64 {
        self.cells.iter().filter(|c| c.is_some()).count() as u64
    }

    fn faults(&self) -> &Faults<NumKey> {
        &self.faults
    }
}

impl<C: Combiner, S: Size> Parted for ArrayLocal<C, S> {
    ghost use Rattle.std.specs.Prelude.{◌≡◌, ◌==◌, ◌≤◌, ◌%◌, drop, filter};
    ghost use Rattle.std.proofs.Common.{ap};
    ghost use Rattle.mr_container.specs.Laws.{part_below, part_nests};
    ghost use Rattle.mr_array.specs.Cells.{is_below, cell_under, numbered};
    ghost use Rattle.mr_array.specs.Sparing.{fixed_spares, outside_spares};

    type Fold = C;

    ghost inside = { is_below S.size };

    ghost cell = { λ s k. cell_under s.cells.items k };

    ghost part_of = { λ parts k. k % parts };

    ghost stands_in = { λ s c. (1 ≤ c.parts) × (c.place % c.parts ≡ c.part) };

    ghost left = { λ s c. filter (λ e. e.0 % c.parts == c.part) (numbered c.place (drop c.place s.cells.items)) };

    ghost means = { λ s es h. h };

    ghost whole_meaning = { λ s es h. h };

    ghost same_cells = { λ s t e k. ap (λ cells. cell_under cells k) e.0 };

    ghost same_cursors = { λ s t e c h. (
      h,
      ap (λ cells. filter (λ e. e.0 % c.parts == c.part) (numbered c.place (drop c.place cells))) e.0,
    ) };

    ghost spares_present = { λ s k f p. fixed_spares _ _ f };

    ghost spares_outside = { λ s k e. outside_spares _ _ e };

    ghost parts_below = { λ parts k h. part_below k parts h };

    ghost parts_nest = { λ parts times k h m. part_nests k parts times };

    fn cursor(&self, part: u32, parts: u32) -> Cursor {
        Cursor {
            part,
            parts,
            place: part as u64,
            within: 0,
        }
    }

    fn next(&self, cursor: &mut Cursor) -> Option<(&NumKey, &C::Cell)> {
        while cursor.place < self.size as u64 {
            let place = cursor.place as usize;
            cursor.place += cursor.parts as u64;
            if let Some(cell) = &self.cells[place] {
                return Some((&self.keys[place], cell));
            }
        }
        None
    }
}
