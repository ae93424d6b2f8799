ghost use Rattle.std.specs.Prelude.{◌≡◌, ◌≤◌, [], All, IfOk, false, length};
ghost use Rattle.std.specs.Ordering.{nat_cmp};
ghost use Rattle.mr_capacity.specs.Folds.{folded};
ghost use Rattle.mr_defs.specs.Limits.{greatest_capacity};
ghost use Rattle.mr_defs.specs.Tasks.{most_tasks};
ghost use Rattle.mr_items.specs.Keys.{all_inside, below};
ghost use Rattle.mr_jobs.specs.Meaning.{inside_of, is_shared};
ghost use Rattle.mr_jobs.specs.Reported.{reported};
ghost use Rattle.mr_jobs.specs.RoundOf.{IsRoundOfTasks};

use crate::phases::{Round, run_round};
use crate::workers::Workers;
use mr_array::{ArrayLocal, Size};
use mr_base::{Fault, Few, Key, Memory, NumKey, Stop};
use mr_capacity::{ContainerKind, at_capacity};
use mr_combine::{Combiner, Reducer};
use mr_container::{Local, Mapper};
use mr_hash::HashLocal;
use mr_jobfile::Job;
use mr_outside::Gate;
use std::alloc::Global;
use std::marker::Brand;
use std::thread::Threads;

// How many buckets a hash table has, whatever capacity the job names: no answer shows it, and at each number all that works on tables would
// be compiled once more.
const BUCKETS: usize = 65536;

// As many tables as there are workers.
fn tables<K: Key, C: Combiner>(
    alloc: Global,
    count: u32,
) -> Result<Few<HashLocal<K, C, BUCKETS>>, Memory>
    ensures count { IfOk result (λ tables. length tables.items ≡ count) }
    ensures empty { IfOk result (λ tables. All (λ table. ⟦<HashLocal<K, C, 65536> as Local>⟧.stands table []) tables.items) }
{
    let mut tables = Few::with_room(alloc, count)?;
    for _ in 0..count {
        tables.push(HashLocal::new(alloc)?);
    }
    Ok(tables)
}

// As many arrays of this size as there are workers.
fn arrays<C: Combiner, S: Size>(
    alloc: Global,
    count: u32,
    size: u32,
) -> Result<Few<ArrayLocal<C, S>>, Memory>
    requires size { size ≡ S.size }
    requires some { 1 ≤ size }
    requires few { size ≤ greatest_capacity }
    ensures count { IfOk result (λ arrays. length arrays.items ≡ count) }
    ensures empty { IfOk result (λ arrays. All (λ array. ⟦<ArrayLocal<C, S> as Local>⟧.stands array []) arrays.items) }
{
    let mut arrays = Few::with_room(alloc, count)?;
    for _ in 0..count {
        arrays.push(ArrayLocal::new(alloc, size)?);
    }
    Ok(arrays)
}

/// A round in hash tables.
pub(crate) fn hash_round<
    T: Threads + Sync,
    G: Gate + Sync,
    M: Mapper + Sync,
    C: Combiner<Value = M::Value> + Send + Sync,
    R: Reducer<C> + Send,
>(workers: &Workers<T, G>, job: &Job, mapper: &M) -> Result<Round<M::Key>, Stop<Fault<M::Key>>>
where
    M::Key: Send + Sync,
    M::Value: Send,
    C::Cell: Send + Sync,
    requires tasks { M.task_count mapper.now ≤ most_tasks }
    ensures { IsRoundOfTasks M.Key.cmp all_inside false R.folded
        (reported workers.now) (M.task_count mapper.now) (M.task_emissions mapper.now) result }
{
    let tables = tables::<M::Key, C>(workers.alloc, workers.count())?;
    run_round::<T, G, HashLocal<M::Key, C, BUCKETS>, M, R>(workers, job, mapper, tables)
}

/// The same of whole numbers, whose values are combined as the job says.
pub(crate) fn table_round<
    T: Threads + Sync,
    G: Gate + Sync,
    M: Mapper<Value = i64> + Sync,
    C: Combiner<Value = i64> + Send + Sync,
    R: Reducer<C> + Send,
>(workers: &Workers<T, G>, job: &Job, mapper: &M) -> Result<Round<M::Key>, Stop<Fault<M::Key>>>
where
    M::Key: Send + Sync,
    C::Cell: Send + Sync,
    requires tasks { M.task_count mapper.now ≤ most_tasks }
    requires fold { R.folded ≡ folded job.now.combiner job.now.reducer }
    ensures { IsRoundOfTasks M.Key.cmp all_inside false (folded job.now.combiner job.now.reducer)
        (reported workers.now) (M.task_count mapper.now) (M.task_emissions mapper.now) result }
{
    hash_round::<T, G, M, C, R>(workers, job, mapper)
}

// A number that is known as a const.
fn number<const N: usize>() -> u32
    requires { N ≤ greatest_capacity }
    ensures { result ≡ N }
{
    N as u32
}

/// The capacity of a job: one of those that are allowed.
pub(crate) fn size_of(job: &Job) -> u32
    ensures same { result ≡ job.now.capacity }
    ensures some { 1 ≤ result }
    ensures few { result ≤ greatest_capacity }
{
    at_capacity!(job.capacity, number<>())
}

// A round in arrays of a size that the call picks.
fn in_array<
    T: Threads + Sync,
    G: Gate + Sync,
    M: Mapper<Key = NumKey> + Sync,
    C: Combiner<Value = M::Value> + Send + Sync,
    R: Reducer<C> + Send,
    S: Size + Send + Sync,
>(
    workers: &Workers<T, G>,
    job: &Job,
    mapper: &M,
    size: u32,
) -> Result<Round<NumKey>, Stop<Fault<NumKey>>>
where
    M::Value: Send,
    C::Cell: Send + Sync,
    requires tasks { M.task_count mapper.now ≤ most_tasks }
    requires size { size ≡ S.size }
    requires some { 1 ≤ size }
    requires few { size ≤ greatest_capacity }
    ensures { IsRoundOfTasks nat_cmp (below size) false R.folded
        (reported workers.now) (M.task_count mapper.now) (M.task_emissions mapper.now) result }
{
    let arrays = arrays::<C, S>(workers.alloc, workers.count(), size)?;
    run_round::<T, G, ArrayLocal<C, S>, M, R>(workers, job, mapper, arrays)
}

/// A round in arrays, which have as many places as the job's capacity.
fn array_round<
    T: Threads + Sync,
    G: Gate + Sync,
    M: Mapper<Key = NumKey> + Sync,
    C: Combiner<Value = M::Value> + Send + Sync,
    R: Reducer<C> + Send,
>(workers: &Workers<T, G>, job: &Job, mapper: &M) -> Result<Round<NumKey>, Stop<Fault<NumKey>>>
where
    M::Value: Send,
    C::Cell: Send + Sync,
    requires tasks { M.task_count mapper.now ≤ most_tasks }
    ensures { IsRoundOfTasks nat_cmp (below job.now.capacity) false R.folded
        (reported workers.now) (M.task_count mapper.now) (M.task_emissions mapper.now) result }
{
    in_array::<T, G, M, C, R, Brand>(workers, job, mapper, size_of(job))
}

/// A round by number keys in the containers of its own that each worker has: hash tables or arrays, as the job says.
pub(crate) fn number_round<
    T: Threads + Sync,
    G: Gate + Sync,
    M: Mapper<Key = NumKey> + Sync,
    C: Combiner<Value = M::Value> + Send + Sync,
    R: Reducer<C> + Send,
>(workers: &Workers<T, G>, job: &Job, mapper: &M) -> Result<Round<NumKey>, Stop<Fault<NumKey>>>
where
    M::Value: Send,
    C::Cell: Send + Sync,
    requires tasks { M.task_count mapper.now ≤ most_tasks }
    requires own { is_shared job.now.container ≡ false }
    ensures { IsRoundOfTasks nat_cmp (inside_of job.now.container job.now.capacity) (is_shared job.now.container) R.folded
        (reported workers.now) (M.task_count mapper.now) (M.task_emissions mapper.now) result }
{
    match job.container {
        ContainerKind::Hash => hash_round::<T, G, M, C, R>(workers, job, mapper),
        ContainerKind::Array => array_round::<T, G, M, C, R>(workers, job, mapper),
        ContainerKind::Common => unreachable!(),
    }
}

/// A round of whole numbers in the containers of its own that each worker has, whose values are combined as the job says.
pub(crate) fn own_round<
    T: Threads + Sync,
    G: Gate + Sync,
    M: Mapper<Key = NumKey, Value = i64> + Sync,
    C: Combiner<Value = i64> + Send + Sync,
    R: Reducer<C> + Send,
>(workers: &Workers<T, G>, job: &Job, mapper: &M) -> Result<Round<NumKey>, Stop<Fault<NumKey>>>
where
    C::Cell: Send + Sync,
    requires tasks { M.task_count mapper.now ≤ most_tasks }
    requires own { is_shared job.now.container ≡ false }
    requires fold { R.folded ≡ folded job.now.combiner job.now.reducer }
    ensures { IsRoundOfTasks nat_cmp (inside_of job.now.container job.now.capacity) (is_shared job.now.container)
        (folded job.now.combiner job.now.reducer)
        (reported workers.now) (M.task_count mapper.now) (M.task_emissions mapper.now) result }
{
    number_round::<T, G, M, C, R>(workers, job, mapper)
}
