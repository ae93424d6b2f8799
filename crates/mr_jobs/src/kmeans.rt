ghost use Rattle.std.specs.Prelude.{◌≡◌, ◌≤◌, All, false, length};
ghost use Rattle.mr_capacity.specs.declared.jobs.JobKind.TheVariants as kind;
ghost use Rattle.mr_defs.specs.Folded.{vecsum_folded};
ghost use Rattle.mr_defs.specs.Limits.{input_limit};
ghost use Rattle.mr_items.specs.Grid.{columns_of};
ghost use Rattle.mr_items.specs.KMeans.{kmeans_emits, kmeans_next};
ghost use Rattle.mr_jobfile.specs.Seen.{seen};
ghost use Rattle.mr_jobs.specs.Meaning.{inside_of, is_shared};
ghost use Rattle.mr_jobs.specs.Jobs as meaning;
ghost use Rattle.mr_jobs.specs.Outputs.{IsJobOutput, IsOutputOf};
ghost use Rattle.mr_jobs.specs.Reported.{reported};
ghost use Rattle.mr_jobs.specs.RoundOf.{IsRoundOfSpans};
ghost use Rattle.mr_numeric.specs.Grids.{IsEven};
ghost use Rattle.mr_numeric.specs.Sums.{AreMeans};

use crate::input::{grid_input, refused_input};
use crate::output::Output;
use crate::phases::Round;
use crate::refusal::Refusal;
use crate::round::number_round;
use crate::rounds::{Rounds, Sequel, run_rounds};
use crate::workers::Workers;
use mr_base::{Fault, Memory, NumKey, Rows, Stop};
use mr_combine::{Plain, Point, VecSum};
use mr_grid::Grid;
use mr_jobfile::Job;
use mr_numeric::{KMeans, Means, kmeans_text, next_means};
use mr_outside::{Gate, Taken};
use mr_split::spans;
use std::alloc::Global;
use std::marker::Model;
use std::thread::Threads;

/// The means that the points of a round are near to, and how many rounds there are from it on.
#[derive(Drop)]
struct Moving {
    means: Means,
    left: u32,
}

impl Model for Moving {
    ghost use Rattle.mr_items.specs.KMeans.{KMeansState};

    ghost Value = { KMeansState };

    ghost view = { λ m. record { means = m.means; left = m.left } };
}

/// The points that the rows of a grid are, as it was read.
#[derive(Drop)]
struct Points<'a> {
    grid: &'a Grid,
    ghost even: { IsEven grid.now },
    ghost few: { length grid.now ≤ input_limit },
}

// A round from these means.
fn round_from<T: Threads + Sync, G: Gate + Sync>(
    workers: &Workers<T, G>,
    job: &Job,
    grid: &Grid,
    means: &Means,
) -> Result<Round<NumKey>, Stop<Fault<NumKey>>>
    requires own { is_shared job.now.container ≡ false }
    requires few { length grid.now ≤ input_limit }
    requires fit { AreMeans (columns_of grid.now) means.now }
    ensures { IsRoundOfSpans (inside_of job.now.container job.now.capacity) false vecsum_folded
        (reported workers.now) job.now.chunk (length grid.now) (kmeans_emits means.now grid.now) result }
{
    let mapper = KMeans::new(grid, means, spans(grid.rows(), job.chunk));
    number_round::<T, G, KMeans, VecSum, Plain>(workers, job, &mapper)
}

// A round in a state.
fn round_in<T: Threads + Sync, G: Gate + Sync>(
    workers: &Workers<T, G>,
    job: &Job,
    grid: &Grid,
    moving: &Moving,
) -> Result<Round<NumKey>, Stop<Fault<NumKey>>>
    requires own { is_shared job.now.container ≡ false }
    requires few { length grid.now ≤ input_limit }
    requires fit { AreMeans (columns_of grid.now) moving.now.means }
    ensures { IsRoundOfSpans (inside_of job.now.container job.now.capacity) false vecsum_folded
        (reported workers.now) job.now.chunk (length grid.now) (kmeans_emits moving.now.means grid.now) result }
{
    round_from(workers, job, grid, &moving.means)
}

impl<'a> Rounds for Points<'a> {
    type State = Moving;

    type Value = Point;

    ghost count = { λ p. length p.grid.now };

    ghost fits = { λ p s. AreMeans (columns_of p.grid.now) s.means };

    ghost folded = { vecsum_folded };

    ghost emits = { λ p s i. kmeans_emits s.means p.grid.now i };

    ghost next = { λ p s rows. kmeans_next s rows };

    fn sequel(
        &self,
        alloc: Global,
        state: &Moving,
        rows: &Rows<NumKey>,
    ) -> Result<Sequel<Moving>, Memory> {
        let means = next_means(alloc, &state.means, rows)?;
        if means.same(&state.means) || state.left <= 1 {
            return Ok(Sequel::Ended(kmeans_text(alloc, &means, rows)?));
        }
        Ok(Sequel::Again(Moving {
            means,
            left: state.left - 1,
        }))
    }
}

// The rounds over the points of a grid, of which there has to be one for each cluster.
fn moved<T: Threads + Sync, G: Gate + Sync>(
    workers: &Workers<T, G>,
    job: &Job,
    grid: &Grid,
) -> Result<Output, Stop<Refusal>>
    requires kind { job.now.job ≡ kind.KMeans }
    requires even { IsEven grid.now }
    requires few { length grid.now ≤ input_limit }
    ensures { IsOutputOf (seen job.now) (meaning.clusters (seen job.now) grid.now) (reported workers.now) result }
{
    if grid.rows() < u64::from(job.clusters) {
        return Err(Stop::Refused(refused_input(workers.alloc, 1, b"shape")?));
    }
    let first = Moving {
        means: Means::first(workers.alloc, grid, job.clusters)?,
        left: job.rounds,
    };
    let round = |moving: &Moving| -> Result<Round<NumKey>, Stop<Fault<NumKey>>>
        requires own { is_shared job.now.container ≡ false }
        requires few { length grid.now ≤ input_limit }
        requires fit { AreMeans (columns_of grid.now) moving.now.means }
    { round_in(workers, job, grid, moving) };
    run_rounds(workers, job, &Points { grid }, round, job.rounds, first)
}

/// Runs `kmeans`: each point of a grid goes to the nearest mean, and the means move, round by round.
pub(crate) fn kmeans<T: Threads + Sync, G: Gate + Sync>(
    workers: &Workers<T, G>,
    job: &Job,
    inputs: &[Taken],
) -> Result<Output, Stop<Refusal>>
    requires kind { job.now.job ≡ kind.KMeans }
    requires count { length inputs.now ≡ 1 }
    requires short { All (λ bytes. length bytes ≤ input_limit) inputs.now }
    ensures { IsJobOutput (seen job.now) inputs.now (reported workers.now) result }
{
    match grid_input(workers, inputs, 0) {
        Ok(grid) => moved(workers, job, &grid),
        Err(stop) => Err(stop),
    }
}
