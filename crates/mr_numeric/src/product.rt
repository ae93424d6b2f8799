ghost use Rattle.std.specs.Prelude.{◌≡◌, ◌≤◌, ◌<◌, ◌*◌, true, ℕ, ℤ, List, IfSome, length, nat_abs, flat_map, slice_index_or};
ghost use Rattle.std.specs.List.{range_with_len};
ghost use Rattle.mr_defs.specs.Folded.{limit};
ghost use Rattle.mr_defs.specs.Limits.{input_limit};
ghost use Rattle.mr_defs.specs.Tasks as tasks;
ghost use Rattle.mr_items.specs.Grid.{columns_of};
ghost use Rattle.mr_items.specs.MatrixProduct.{matrix_product_emits, matrix_product_emissions};
ghost use Rattle.mr_grid.specs.Dense.{turned_of};
ghost use Rattle.mr_split.specs.Pieces.{AreSpans};
ghost use Rattle.mr_numeric.specs.Narrow.{AreNarrow};
ghost use Rattle.mr_numeric.specs.Pairs.{row_pair_emits, sum_of};

use crate::narrow::{are_narrow, row_sum};
use crate::pairs::{BLOCK, emit_sum, put_sum};
use crate::spanned::{Items, Spanned};
use mr_base::{Memory, NumKey};
use mr_container::{Local, Mapper};
use mr_grid::Grid;
use mr_split::Spans;
use std::alloc::Global;

/// The pairs of a row of one grid and a row of another, in the order of the first row and then the second. A pair emits for its number the
/// sum of the products of the numbers at the same place, or a too large value.
#[derive(Drop)]
pub struct RowPairs<'a> {
    left: &'a Grid,
    right: &'a Grid,
    // Whether the sums are known to need no more than 32 bits.
    narrow: bool,
    ghost alike: { columns_of left.now ≡ columns_of right.now },
    ghost few: { length left.now * length right.now ≤ input_limit },
    ghost short: { narrow ≡ true → columns_of left.now ≤ 1024 },
    ghost narrow_left: { narrow ≡ true → AreNarrow left.now },
    ghost narrow_right: { narrow ≡ true → AreNarrow right.now },
}

/// The product of two grids.
pub type Product<'a> = Spanned<RowPairs<'a>>;

impl<'a> Spanned<RowPairs<'a>> {
    /// The job over the rows of the left grid and the columns of the right one, which are the rows of `right_turned`. Takes no memory.
    pub fn new(left: &'a Grid, right_turned: &'a Grid, spans: Spans) -> Product<'a>
        requires alike { columns_of left.now ≡ columns_of right_turned.now }
        requires few { length left.now * length right_turned.now ≤ input_limit }
        requires spans { AreSpans (length left.now * length right_turned.now) spans }
        ensures count { ⟦<Product<'a> as Mapper>⟧.task_count result ≡ length spans }
        ensures tasks { (right : List (List ℤ)) (t : ℕ) → right_turned.now ≡ turned_of right
            → ⟦<Product<'a> as Mapper>⟧.task_emissions result t
            ≡ tasks.task_emissions (matrix_product_emits left.now right) (range_with_len 0 (length left.now * columns_of right))
            (slice_index_or spans t (0, 0)) }
        ensures whole { (right : List (List ℤ)) → right_turned.now ≡ turned_of right
            → flat_map (⟦<Product<'a> as Mapper>⟧.task_emissions result) (range_with_len 0 (⟦<Product<'a> as Mapper>⟧.task_count result))
            ≡ matrix_product_emissions left.now right }
    {
        let narrow = left.columns() <= 1024 && are_narrow(left) && are_narrow(right_turned);
        let pairs = RowPairs {
            left,
            right: right_turned,
            narrow,
        };
        Spanned::over(pairs, spans)
    }
}

impl<'a> RowPairs<'a> {
    /// The sum of a pair, or None where it is too large.
    #[inline(always)]
    fn sum(&self, pair: u64) -> Option<i64>
        requires { pair < length self.now.left.now * length self.now.right.now }
        ensures small { IfSome result (λ z. nat_abs z ≤ limit) }
        ensures sum { sum_of pair result ≡ row_pair_emits self.now.left.now self.now.right.now pair }
    {
        let columns = self.right.rows();
        let row = self.left.row(pair / columns);
        let column = self.right.row(pair % columns);
        row_sum(row, column, self.narrow)
    }
}

impl<'a> Items for RowPairs<'a> {
    type Value = i64;

    ghost count = { λ p. length p.left.now * length p.right.now };

    ghost emits = { λ p k. row_pair_emits p.left.now p.right.now k };

    fn emit_item<L: Local<Key = NumKey, Value = i64>>(
        &self,
        _alloc: Global,
        item: u64,
        out: &mut L,
    ) -> Result<(), Memory> {
        emit_sum(item, self.sum(item), out)
    }

    fn emit_items<L: Local<Key = NumKey, Value = i64>>(
        &self,
        alloc: Global,
        from: u64,
        to: u64,
        out: &mut L,
    ) -> Result<(), Memory> {
        let mut block = Vec::with_capacity(alloc, BLOCK)?;
        for item in from..to {
            put_sum(item, self.sum(item), &mut block, out)?;
        }
        out.emit_block(&mut block)?;
        Ok(())
    }
}
