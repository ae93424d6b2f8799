ghost use Rattle.std.specs.Prelude.{◌≡◌, IfSome, map, option_map};
ghost use Rattle.mr_capacity.specs.Rows.{seen_row};
ghost use Rattle.mr_jobfile.specs.Values.{default_chunk, described, fits_row, has_further, is_there_exactly, keys_in};
ghost use Rattle.mr_jobfile.specs.Allowed.{IsAllowed};
ghost use Rattle.mr_jobfile.specs.Seen.{seen};

use crate::defaults::{DEFAULT_CHUNK, DEFAULT_PARTITIONS, DEFAULT_QUEUE, DEFAULT_TEXT_CHUNK};
use crate::job::Job;
use crate::values::Values;
use mr_base::Patterns;
use mr_capacity::{
    CombinerKind, ContainerKind, Further, JobKind, KeyKind, PAIRINGS, Pairing, is_row, is_text_job,
};
use std::alloc::Global;

fn is_there_exactly<T>(named: bool, value: &Option<T>) -> bool
    ensures { result ≡ is_there_exactly named value.now }
{
    value.is_some() == named
}

fn has_further(row: &Pairing, values: &Values) -> bool
    ensures { result ≡ has_further (seen_row row.now) values.now }
{
    let (_, row_keys, _, _, _, further) = *row;
    is_there_exactly(further == Further::Keys, &values.keys)
        && is_there_exactly(further == Further::Patterns, &values.patterns)
        && is_there_exactly(further == Further::Means, &values.clusters)
        && is_there_exactly(further == Further::Means, &values.rounds)
        && values.keys.is_none_or(|keys| row_keys == keys)
}

fn fits_row(
    row: &Pairing,
    values: &Values,
    job: JobKind,
    container: ContainerKind,
    combiner: CombinerKind,
) -> bool
    ensures { result ≡ fits_row values.now job container combiner (seen_row row.now) }
{
    let (_, row_keys, ..) = *row;
    is_row(row, job, container, row_keys, combiner, values.reducer) && has_further(row, values)
}

/// The key kind of the first row that the values fit.
fn keys_in(
    rows: &[Pairing],
    values: &Values,
    job: JobKind,
    container: ContainerKind,
    combiner: CombinerKind,
) -> Option<KeyKind>
    ensures { result ≡ keys_in (map seen_row rows.now) values.now job container combiner }
{
    for row in rows {
        if fits_row(row, values, job, container, combiner) {
            let (_, keys, ..) = *row;
            return Some(keys);
        }
    }
    None
}

fn default_chunk(job: JobKind) -> u32
    ensures { result ≡ default_chunk job }
{
    if is_text_job(job) {
        DEFAULT_TEXT_CHUNK
    } else {
        DEFAULT_CHUNK
    }
}

/// The job that the values mean, where they fit a row of the table of pairings.
pub fn described(alloc: Global, values: Values) -> Option<Job>
    requires { IfSome (described values) IsAllowed }
    ensures { option_map seen result ≡ described values }
{
    let job = values.job?;
    let container = values.container?;
    let capacity = values.capacity?;
    let combiner = values.combiner?;
    let keys = keys_in(&PAIRINGS, &values, job, container, combiner)?;
    Some(Job {
        job,
        container,
        capacity,
        keys,
        combiner,
        reducer: values.reducer,
        queue: values.queue.unwrap_or(DEFAULT_QUEUE),
        partitions: values.partitions.unwrap_or(DEFAULT_PARTITIONS),
        chunk: values.chunk.unwrap_or(default_chunk(job)),
        clusters: values.clusters.unwrap_or(0),
        rounds: values.rounds.unwrap_or(0),
        patterns: values.patterns.unwrap_or(Patterns::new(alloc)),
    })
}
