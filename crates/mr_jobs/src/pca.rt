ghost use Rattle.std.specs.Prelude.{◌≡◌, ◌≤◌, All, false, length, nat_abs};
ghost use Rattle.mr_capacity.specs.declared.jobs.JobKind.TheVariants as kind;
ghost use Rattle.mr_defs.specs.Folded.{sum_folded};
ghost use Rattle.mr_defs.specs.Limits.{greatest_element, input_limit};
ghost use Rattle.mr_items.specs.Grid.{columns_of};
ghost use Rattle.mr_items.specs.Pca.{column_emits, pca_next, spread_emits};
ghost use Rattle.mr_jobfile.specs.Seen.{seen};
ghost use Rattle.mr_jobs.specs.Meaning.{inside_of, is_shared};
ghost use Rattle.mr_jobs.specs.Jobs as meaning;
ghost use Rattle.mr_jobs.specs.Outputs.{IsJobOutput, IsOutputOf};
ghost use Rattle.mr_jobs.specs.Passes.{IsPassOver};
ghost use Rattle.mr_jobs.specs.Reported.{reported};
ghost use Rattle.mr_jobs.specs.RoundOf.{IsRoundOfSpans};
ghost use Rattle.mr_numeric.specs.Grids.{IsEven};

use crate::input::grid_input;
use crate::output::Output;
use crate::phases::Round;
use crate::refusal::Refusal;
use crate::round::number_round;
use crate::rounds::{Rounds, Sequel, run_rounds};
use crate::workers::Workers;
use mr_base::{Fault, Memory, NumKey, Rows, Stop};
use mr_capacity::CombinerKind;
use mr_combine::{Plain, Sum};
use mr_grid::Grid;
use mr_jobfile::Job;
use mr_numeric::{ColumnMeans, ColumnSums, Spread, column_means, pca_text};
use mr_outside::{Gate, Taken};
use mr_split::spans;
use std::alloc::Global;
use std::marker::Model;
use std::thread::Threads;

// How many passes there are.
const PASSES: u32 = 2;

/// The pass over the columns of a grid, or, where their means are known, that over the pairs of them.
#[derive(Drop)]
struct Pass {
    means: Option<ColumnMeans>,
}

impl Model for Pass {
    ghost use Rattle.mr_items.specs.Pca.{PcaState};
    ghost use Rattle.mr_jobs.specs.Passes.{pass_of};

    ghost Value = { PcaState };

    ghost view = { λ p. pass_of p.means };
}

/// A grid as it was read.
#[derive(Drop)]
struct Columns<'a> {
    grid: &'a Grid,
    ghost even: { IsEven grid.now },
    ghost few: { length grid.now ≤ input_limit },
    ghost narrow: { columns_of grid.now ≤ 1024 },
}

// The sums of the columns of a grid.
fn sums<T: Threads + Sync, G: Gate + Sync>(
    workers: &Workers<T, G>,
    job: &Job,
    grid: &Grid,
) -> Result<Round<NumKey>, Stop<Fault<NumKey>>>
    requires own { is_shared job.now.container ≡ false }
    requires few { length grid.now ≤ input_limit }
    ensures { IsRoundOfSpans (inside_of job.now.container job.now.capacity) false sum_folded
        (reported workers.now) job.now.chunk (length grid.now) (column_emits grid.now) result }
{
    let mapper = ColumnSums::new(grid, spans(grid.rows(), job.chunk));
    number_round::<T, G, ColumnSums, Sum, Plain>(workers, job, &mapper)
}

// The sums of the products of what the elements of each two columns differ from these means by.
fn products<T: Threads + Sync, G: Gate + Sync>(
    workers: &Workers<T, G>,
    job: &Job,
    grid: &Grid,
    means: &ColumnMeans,
) -> Result<Round<NumKey>, Stop<Fault<NumKey>>>
    requires own { is_shared job.now.container ≡ false }
    requires few { length grid.now ≤ input_limit }
    requires narrow { columns_of grid.now ≤ 1024 }
    requires each { length means.now ≡ columns_of grid.now }
    requires small { All (λ z. nat_abs z ≤ greatest_element) means.now }
    ensures { IsRoundOfSpans (inside_of job.now.container job.now.capacity) false sum_folded
        (reported workers.now) job.now.chunk (length grid.now) (spread_emits means.now grid.now) result }
{
    let mapper = Spread::new(grid, means, spans(grid.rows(), job.chunk));
    number_round::<T, G, Spread, Sum, Plain>(workers, job, &mapper)
}

// A pass over a grid.
fn pass_over<T: Threads + Sync, G: Gate + Sync>(
    workers: &Workers<T, G>,
    job: &Job,
    grid: &Grid,
    pass: &Pass,
) -> Result<Round<NumKey>, Stop<Fault<NumKey>>>
    requires own { is_shared job.now.container ≡ false }
    requires few { length grid.now ≤ input_limit }
    requires narrow { columns_of grid.now ≤ 1024 }
    requires fits { IsPassOver grid.now pass.now }
    ensures { IsRoundOfSpans (inside_of job.now.container job.now.capacity) false sum_folded
        (reported workers.now) job.now.chunk (length grid.now) (meaning.pca_emits grid.now pass.now) result }
{
    match &pass.means {
        Some(means) => products(workers, job, grid, means),
        None => sums(workers, job, grid),
    }
}

impl<'a> Rounds for Columns<'a> {
    type State = Pass;

    type Value = i64;

    ghost count = { λ c. length c.grid.now };

    ghost fits = { λ c s. IsPassOver c.grid.now s };

    ghost folded = { sum_folded };

    ghost emits = { λ c s i. meaning.pca_emits c.grid.now s i };

    ghost next = { λ c s rows. pca_next c.grid.now s rows };

    fn sequel(
        &self,
        alloc: Global,
        state: &Pass,
        rows: &Rows<NumKey>,
    ) -> Result<Sequel<Pass>, Memory> {
        let points = self.grid.rows();
        match &state.means {
            Some(means) => Ok(Sequel::Ended(pca_text(alloc, points, means, rows)?)),
            None => Ok(Sequel::Again(Pass {
                means: Some(column_means(alloc, rows, points)?),
            })),
        }
    }
}

// The passes over a grid.
fn passes<T: Threads + Sync, G: Gate + Sync>(
    workers: &Workers<T, G>,
    job: &Job,
    grid: &Grid,
) -> Result<Output, Stop<Refusal>>
    requires kind { job.now.job ≡ kind.Pca }
    requires even { IsEven grid.now }
    requires few { length grid.now ≤ input_limit }
    requires narrow { columns_of grid.now ≤ 1024 }
    ensures { IsOutputOf (seen job.now) (meaning.passes (seen job.now) grid.now) (reported workers.now) result }
{
    let first = Pass { means: None };
    let round = |pass: &Pass| -> Result<Round<NumKey>, Stop<Fault<NumKey>>>
        requires own { is_shared job.now.container ≡ false }
        requires few { length grid.now ≤ input_limit }
        requires narrow { columns_of grid.now ≤ 1024 }
        requires fits { IsPassOver grid.now pass.now }
    { pass_over(workers, job, grid, pass) };
    match job.combiner {
        CombinerKind::Sum => run_rounds(workers, job, &Columns { grid }, round, PASSES, first),
        _ => unreachable!(),
    }
}

/// Runs `pca`: the means of the columns of a grid, and then how each two columns vary together.
pub(crate) fn pca<T: Threads + Sync, G: Gate + Sync>(
    workers: &Workers<T, G>,
    job: &Job,
    inputs: &[Taken],
) -> Result<Output, Stop<Refusal>>
    requires kind { job.now.job ≡ kind.Pca }
    requires count { length inputs.now ≡ 1 }
    requires short { All (λ bytes. length bytes ≤ input_limit) inputs.now }
    ensures { IsJobOutput (seen job.now) inputs.now (reported workers.now) result }
{
    match grid_input(workers, inputs, 0) {
        Ok(grid) => passes(workers, job, &grid),
        Err(stop) => Err(stop),
    }
}
