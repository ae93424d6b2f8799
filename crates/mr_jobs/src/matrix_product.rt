ghost use Rattle.std.specs.Prelude.{◌≡◌, ◌≤◌, ◌*◌, All, length, true};
ghost use Rattle.std.specs.Ordering.{nat_cmp};
ghost use Rattle.mr_capacity.specs.Folds.{folded};
ghost use Rattle.mr_capacity.specs.declared.jobs.JobKind.TheVariants as kind;
ghost use Rattle.mr_defs.specs.Limits.{input_limit};
ghost use Rattle.mr_defs.specs.Tasks.{most_tasks};
ghost use Rattle.mr_items.specs.Grid.{columns_of};
ghost use Rattle.mr_items.specs.MatrixProduct.{is_product_shape};
ghost use Rattle.mr_jobfile.specs.Seen.{seen};
ghost use Rattle.mr_jobs.specs.Meaning.{inside_of, is_shared};
ghost use Rattle.mr_jobs.specs.Jobs as meaning;
ghost use Rattle.mr_jobs.specs.Outputs.{IsJobOutput, IsOutputOf};
ghost use Rattle.mr_jobs.specs.Reported.{reported};
ghost use Rattle.mr_jobs.specs.RoundOf.{IsRoundOfTasks};

use crate::input::{grid_input, refused_input};
use crate::output::{Output, rows_output};
use crate::phases::Round;
use crate::refusal::Refusal;
use crate::round::own_round;
use crate::shared::once_round;
use crate::workers::Workers;
use mr_base::{Fault, NumKey, Stop};
use mr_capacity::{CombinerKind, at_combiner};
use mr_combine::{Plain, Sum};
use mr_container::Mapper;
use mr_grid::Grid;
use mr_jobfile::Job;
use mr_numeric::Product;
use mr_outside::{Gate, Taken};
use mr_split::spans;
use std::thread::Threads;

// The most elements of a product.
const MOST_ELEMENTS: u64 = 16777216;

// How many elements the product of two grids of fitting shapes has.
fn elements(left: &Grid, right: &Grid) -> u64
    requires { is_product_shape left.now right.now ≡ true }
    ensures count { result ≡ length left.now * columns_of right.now }
    ensures few { result ≤ 16777216 }
{
    left.rows() * right.columns() as u64
}

// A round of the product's elements, in the containers that the job has.
fn product_rows<T: Threads + Sync, G: Gate + Sync, M: Mapper<Key = NumKey, Value = i64> + Sync>(
    workers: &Workers<T, G>,
    job: &Job,
    mapper: &M,
) -> Result<Round<NumKey>, Stop<Fault<NumKey>>>
    requires kind { job.now.job ≡ kind.MatrixProduct }
    requires tasks { M.task_count mapper.now ≤ most_tasks }
    ensures { IsRoundOfTasks nat_cmp (inside_of job.now.container job.now.capacity) (is_shared job.now.container)
        (folded job.now.combiner job.now.reducer)
        (reported workers.now) (M.task_count mapper.now) (M.task_emissions mapper.now) result }
{
    match job.combiner {
        CombinerKind::Once => once_round(workers, job, mapper),
        _ => at_combiner!(job.combiner, { Sum }, own_round[T, G, M](workers, job, mapper)),
    }
}

// The product of two grids of fitting shapes.
fn multiplied<T: Threads + Sync, G: Gate + Sync>(
    workers: &Workers<T, G>,
    job: &Job,
    left: &Grid,
    right: &Grid,
) -> Result<Output, Stop<Refusal>>
    requires kind { job.now.job ≡ kind.MatrixProduct }
    requires shape { is_product_shape left.now right.now ≡ true }
    requires few { length right.now ≤ input_limit }
    requires full { columns_of right.now ≡ 0 → length right.now ≡ 0 }
    ensures { IsOutputOf (seen job.now) (meaning.elements (seen job.now) left.now right.now) (reported workers.now) result }
{
    let turned = right.turned(workers.alloc)?;
    let spans = spans(elements(left, right), job.chunk);
    let mapper = Product::new(left, &turned, spans);
    rows_output(workers, product_rows(workers, job, &mapper))
}

// A row of the left grid is as long as a column of the right one, and the product has no more elements than it may have.
fn fit(left: &Grid, right: &Grid) -> bool
    requires left { length left.now ≤ input_limit }
    ensures { result ≡ is_product_shape left.now right.now }
{
    left.columns() as u64 == right.rows() && left.rows() * right.columns() as u64 <= MOST_ELEMENTS
}

// The product of two grids, whose shapes have to fit.
fn product<T: Threads + Sync, G: Gate + Sync>(
    workers: &Workers<T, G>,
    job: &Job,
    left: &Grid,
    right: &Grid,
) -> Result<Output, Stop<Refusal>>
    requires kind { job.now.job ≡ kind.MatrixProduct }
    requires left { length left.now ≤ input_limit }
    requires right { length right.now ≤ input_limit }
    requires full { columns_of right.now ≡ 0 → length right.now ≡ 0 }
    ensures { IsOutputOf (seen job.now) (meaning.product (seen job.now) left.now right.now) (reported workers.now) result }
{
    if !fit(left, right) {
        return Err(Stop::Refused(refused_input(workers.alloc, 2, b"shape")?));
    }
    multiplied(workers, job, left, right)
}

/// Runs `matrix_product`: each row of the first grid and each column of the second give an element, by its number row after row.
pub(crate) fn matrix_product<T: Threads + Sync, G: Gate + Sync>(
    workers: &Workers<T, G>,
    job: &Job,
    inputs: &[Taken],
) -> Result<Output, Stop<Refusal>>
    requires kind { job.now.job ≡ kind.MatrixProduct }
    requires count { length inputs.now ≡ 2 }
    requires short { All (λ bytes. length bytes ≤ input_limit) inputs.now }
    ensures { IsJobOutput (seen job.now) inputs.now (reported workers.now) result }
{
    let left = match grid_input(workers, inputs, 0) {
        Ok(left) => left,
        Err(stop) => return Err(stop),
    };
    match grid_input(workers, inputs, 1) {
        Ok(right) => product(workers, job, &left, &right),
        Err(stop) => Err(stop),
    }
}
