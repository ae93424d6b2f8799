ghost use Rattle.std.specs.Prelude.{◌≡◌, ◌≤◌, All, false, length};
ghost use Rattle.std.specs.Ordering.{nat_cmp};
ghost use Rattle.mr_capacity.specs.Folds.{folded};
ghost use Rattle.mr_capacity.specs.declared.jobs.JobKind.TheVariants as kind;
ghost use Rattle.mr_capacity.specs.declared.kinds.KeyKind.TheVariants as keys;
ghost use Rattle.mr_defs.specs.Limits.{input_limit};
ghost use Rattle.mr_defs.specs.Tasks.{most_tasks};
ghost use Rattle.mr_items.specs.Keys.{all_inside};
ghost use Rattle.mr_jobfile.specs.Seen.{seen};
ghost use Rattle.mr_jobs.specs.Meaning.{inside_of, is_shared};
ghost use Rattle.mr_jobs.specs.Outputs.{IsJobOutput};
ghost use Rattle.mr_jobs.specs.Reported.{reported};
ghost use Rattle.mr_jobs.specs.RoundOf.{IsRoundOfTasks};
ghost use Rattle.mr_split.specs.declared.boundary.Boundary.{Boundary};

use crate::output::{Output, first_input, rows_output};
use crate::phases::Round;
use crate::refusal::Refusal;
use crate::round::{own_round, table_round};
use crate::shared::once_round;
use crate::workers::Workers;
use mr_base::{Fault, NumKey, Stop};
use mr_capacity::{CombinerKind, KeyKind, ReducerKind, at_combiner, at_reducer};
use mr_combine::{
    And, Both, Buffer, Count, Distinct, List, Max, Median, Min, One, Or, Plain, Sum, Xor,
};
use mr_container::Mapper;
use mr_jobfile::Job;
use mr_lines::{FoldBytes, FoldNumbers};
use mr_outside::{Gate, Taken};
use mr_split::{Boundary, pieces};
use std::thread::Threads;

// A round of lines with byte keys, whose values are combined as the job says.
fn byte_rows<T: Threads + Sync, G: Gate + Sync, M: Mapper<Value = i64> + Sync>(
    workers: &Workers<T, G>,
    job: &Job,
    mapper: &M,
) -> Result<Round<M::Key>, Stop<Fault<M::Key>>>
where
    M::Key: Send + Sync,
    requires kind { job.now.job ≡ kind.FoldLines }
    requires keys { job.now.keys ≡ keys.Bytes }
    requires tasks { M.task_count mapper.now ≤ most_tasks }
    ensures { IsRoundOfTasks M.Key.cmp all_inside false (folded job.now.combiner job.now.reducer)
        (reported workers.now) (M.task_count mapper.now) (M.task_emissions mapper.now) result }
{
    match job.combiner {
        CombinerKind::Buffer => {
            at_reducer!(job.reducer, { List, Median, Distinct }, table_round[T, G, M](workers, job, mapper))
        }
        _ => {
            at_combiner!(
                job.combiner,
                { Sum, Min, Max, One, Count, And, Or, Xor, MinMax, SumCount },
                table_round[T, G, M](workers, job, mapper)
            )
        }
    }
}

// A round of lines with number keys, in the containers that the job has and with values combined as it says.
fn number_rows<T: Threads + Sync, G: Gate + Sync, M: Mapper<Key = NumKey, Value = i64> + Sync>(
    workers: &Workers<T, G>,
    job: &Job,
    mapper: &M,
) -> Result<Round<NumKey>, Stop<Fault<NumKey>>>
    requires kind { job.now.job ≡ kind.FoldLines }
    requires keys { job.now.keys ≡ keys.Numbers }
    requires tasks { M.task_count mapper.now ≤ most_tasks }
    ensures { IsRoundOfTasks nat_cmp (inside_of job.now.container job.now.capacity) (is_shared job.now.container)
        (folded job.now.combiner job.now.reducer)
        (reported workers.now) (M.task_count mapper.now) (M.task_emissions mapper.now) result }
{
    match job.combiner {
        CombinerKind::Once => once_round(workers, job, mapper),
        CombinerKind::Buffer => {
            at_reducer!(job.reducer, { List, Median, Distinct }, own_round[T, G, M](workers, job, mapper))
        }
        _ => {
            at_combiner!(
                job.combiner,
                { Sum, Min, Max, One, Count, And, Or, Xor, MinMax, SumCount },
                own_round[T, G, M](workers, job, mapper)
            )
        }
    }
}

/// Runs `fold_lines`: the first field of a line is a key, of bytes or a number as the job says, and the second its value.
pub(crate) fn fold_lines<T: Threads + Sync, G: Gate + Sync>(
    workers: &Workers<T, G>,
    job: &Job,
    inputs: &[Taken],
) -> Result<Output, Stop<Refusal>>
    requires kind { job.now.job ≡ kind.FoldLines }
    requires count { length inputs.now ≡ 1 }
    requires short { All (λ bytes. length bytes ≤ input_limit) inputs.now }
    ensures { IsJobOutput (seen job.now) inputs.now (reported workers.now) result }
{
    let input = first_input(inputs);
    let pieces = pieces(workers.alloc, input, job.chunk, Boundary::Line)?;
    match job.keys {
        KeyKind::Bytes => {
            let bytes = FoldBytes::new(input, &pieces);
            rows_output(workers, byte_rows(workers, job, &bytes))
        }
        KeyKind::Numbers => {
            let numbers = FoldNumbers::new(input, &pieces);
            rows_output(workers, number_rows(workers, job, &numbers))
        }
    }
}
