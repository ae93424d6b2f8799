ghost use Rattle.std.specs.Prelude.{◌≡◌, ◌≤◌, All, Ok, length};
ghost use Rattle.std.specs.Ordering.{nat_cmp};
ghost use Rattle.mr_capacity.specs.Folds.{folded};
ghost use Rattle.mr_capacity.specs.declared.jobs.JobKind.TheVariants as kind;
ghost use Rattle.mr_defs.specs.Limits.{input_limit};
ghost use Rattle.mr_defs.specs.Tasks.{most_tasks};
ghost use Rattle.mr_grid.specs.Pixels.{bitmap_of};
ghost use Rattle.mr_jobfile.specs.Seen.{seen};
ghost use Rattle.mr_jobs.specs.Jobs as meaning;
ghost use Rattle.mr_jobs.specs.Meaning.{inside_of, is_shared};
ghost use Rattle.mr_jobs.specs.Outputs.{IsJobOutput, IsOutputOf};
ghost use Rattle.mr_jobs.specs.Reported.{reported};
ghost use Rattle.mr_jobs.specs.RoundOf.{IsRoundOfTasks};

use crate::input::refused_bitmap;
use crate::output::{Output, first_input, rows_output};
use crate::phases::Round;
use crate::refusal::Refusal;
use crate::round::own_round;
use crate::workers::Workers;
use mr_base::{Fault, NumKey, Stop};
use mr_capacity::{CombinerKind, at_combiner};
use mr_combine::{Count, One, Plain, Sum};
use mr_container::Mapper;
use mr_grid::{Bitmap, read_bitmap};
use mr_jobfile::Job;
use mr_numeric::Histogram;
use mr_outside::{Gate, Taken};
use mr_split::spans;
use std::thread::Threads;

// A round of colours as the job says: they are added up, or counted, or noted to be there.
fn counted<T: Threads + Sync, G: Gate + Sync, M: Mapper<Key = NumKey, Value = i64> + Sync>(
    workers: &Workers<T, G>,
    job: &Job,
    mapper: &M,
) -> Result<Round<NumKey>, Stop<Fault<NumKey>>>
    requires kind { job.now.job ≡ kind.Histogram }
    requires tasks { M.task_count mapper.now ≤ most_tasks }
    ensures { IsRoundOfTasks nat_cmp (inside_of job.now.container job.now.capacity) (is_shared job.now.container)
        (folded job.now.combiner job.now.reducer)
        (reported workers.now) (M.task_count mapper.now) (M.task_emissions mapper.now) result }
{
    at_combiner!(job.combiner, { Sum, Count, One }, own_round[T, G, M](workers, job, mapper))
}

// The colours of the pixels of a bitmap.
fn pixels<T: Threads + Sync, G: Gate + Sync>(
    workers: &Workers<T, G>,
    job: &Job,
    input: &[u8],
    bitmap: Bitmap,
) -> Result<Output, Stop<Refusal>>
    requires kind { job.now.job ≡ kind.Histogram }
    requires bitmap { bitmap_of input.now ≡ Ok bitmap }
    requires few { bitmap.rows ≤ input_limit }
    ensures { IsOutputOf (seen job.now) (meaning.pixels (seen job.now) input.now) (reported workers.now) result }
{
    let mapper = Histogram::new(input, bitmap, spans(bitmap.rows as u64, job.chunk));
    rows_output(workers, counted(workers, job, &mapper))
}

/// Runs `histogram`: each pixel of a bitmap has three keys, its blue, 256 and its green, and 512 and its red, with the value 1.
pub(crate) fn histogram<T: Threads + Sync, G: Gate + Sync>(
    workers: &Workers<T, G>,
    job: &Job,
    inputs: &[Taken],
) -> Result<Output, Stop<Refusal>>
    requires kind { job.now.job ≡ kind.Histogram }
    requires count { length inputs.now ≡ 1 }
    requires short { All (λ bytes. length bytes ≤ input_limit) inputs.now }
    ensures { IsJobOutput (seen job.now) inputs.now (reported workers.now) result }
{
    let input = first_input(inputs);
    match read_bitmap(input) {
        Ok(bitmap) => pixels(workers, job, input, bitmap),
        Err(fault) => Err(Stop::Refused(refused_bitmap(workers.alloc, 1, fault)?)),
    }
}
