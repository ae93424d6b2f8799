ghost use Rattle.std.specs.Prelude.{◌≡◌};
ghost use Rattle.std.specs.List.{list_any};
ghost use Rattle.mr_capacity.specs.Jobs.{is_text_job};
ghost use Rattle.mr_capacity.specs.Rows.{seen_row};
ghost use Rattle.mr_capacity.specs.Tables.{has_parts, is_row, is_capacity, is_pairing};

use crate::jobs::{Further, JobKind, PAIRINGS, TEXT_JOBS};
use crate::kinds::{CombinerKind, ContainerKind, KeyKind, ReducerKind};

/// The numbers that a capacity may be: the buckets of a hash table, or the keys of an array.
pub const CAPACITIES: [i64; 8] = [16, 64, 256, 768, 1024, 4096, 16384, 65536];

/// A row of the table of pairings: a job and its key kind, the containers and combiners that they go with, the reducers that the combiner
/// `Buffer` may have beside them, and the further keys of the job file.
pub type Pairing = (
    JobKind,
    KeyKind,
    &'static [ContainerKind],
    &'static [CombinerKind],
    &'static [ReducerKind],
    Further,
);

/// Whether a container may have this capacity.
pub fn capacity_allowed(n: i64) -> bool
    ensures { result ≡ is_capacity n }
{
    CAPACITIES.contains(&n)
}

/// Whether the job goes over the bytes of a text, so that its chunk counts bytes.
pub fn is_text_job(job: JobKind) -> bool
    ensures { result ≡ is_text_job job }
{
    TEXT_JOBS.contains(&job)
}

/// Whether the row has this container, and this combiner with this reducer: only a buffer has one.
fn has_parts(
    row: &Pairing,
    container: ContainerKind,
    combiner: CombinerKind,
    reducer: Option<ReducerKind>,
) -> bool
    ensures { result ≡ has_parts (seen_row row.now) container combiner reducer }
{
    let (_, _, containers, combiners, reducers, _) = *row;
    containers.contains(&container)
        && match reducer {
            Some(reducer) => combiner == CombinerKind::Buffer && reducers.contains(&reducer),
            None => combiners.contains(&combiner),
        }
}

/// Whether a row of the table says that all these go together.
pub fn is_row(
    row: &Pairing,
    job: JobKind,
    container: ContainerKind,
    keys: KeyKind,
    combiner: CombinerKind,
    reducer: Option<ReducerKind>,
) -> bool
    ensures { result ≡ is_row (seen_row row.now) job container keys combiner reducer }
{
    row.0 == job && row.1 == keys && has_parts(row, container, combiner, reducer)
}

/// Whether these go together: some row of the table of pairings says so.
pub fn pairing_allowed(
    job: JobKind,
    container: ContainerKind,
    keys: KeyKind,
    combiner: CombinerKind,
    reducer: Option<ReducerKind>,
) -> bool
    ensures { result ≡ is_pairing job container keys combiner reducer }
{
    is_in_rows(&PAIRINGS, job, container, keys, combiner, reducer)
}

fn is_in_rows(
    rows: &[Pairing],
    job: JobKind,
    container: ContainerKind,
    keys: KeyKind,
    combiner: CombinerKind,
    reducer: Option<ReducerKind>,
) -> bool
    ensures { result ≡ list_any (λ row. is_row (seen_row row) job container keys combiner reducer) rows.now }
{
    rows.iter()
        .any(|row| is_row(row, job, container, keys, combiner, reducer))
}
