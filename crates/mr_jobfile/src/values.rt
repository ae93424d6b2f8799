ghost use Rattle.std.specs.Prelude.{◌≡◌, IfOk};
ghost use Rattle.toml.specs.View.{table_view, view};
ghost use Rattle.mr_capacity.specs.Names.{entries};
ghost use Rattle.mr_jobfile.specs.Forms.{kind_in, number_in, texts_in};
ghost use Rattle.mr_jobfile.specs.Values.{said, values_of};

use crate::forms::{kind, number};
use crate::key::JobKey;
use mr_base::{Memory, Patterns};
use mr_capacity::{
    COMBINER_NAMES, CONTAINER_NAMES, CombinerKind, ContainerKind, JOB_NAMES, JobKind, KEY_NAMES,
    KeyKind, QUEUE_NAMES, QueueKind, REDUCER_NAMES, ReducerKind,
};
use std::alloc::Global;
use toml::{Table, Value};

/// What a table says of each key but `version`. None where the key isn't there, or has no value of its kind.
#[derive(Drop)]
pub struct Values {
    pub job: Option<JobKind>,
    pub container: Option<ContainerKind>,
    pub capacity: Option<u32>,
    pub combiner: Option<CombinerKind>,
    pub reducer: Option<ReducerKind>,
    pub keys: Option<KeyKind>,
    pub queue: Option<QueueKind>,
    pub partitions: Option<u32>,
    pub chunk: Option<u32>,
    pub clusters: Option<u32>,
    pub rounds: Option<u32>,
    pub patterns: Option<Patterns>,
}

fn number_at(table: &Table, key: JobKey) -> Option<u32>
    ensures { result ≡ said number_in key (table_view table.now) }
{
    match table.get(key.text()) {
        Some(value) => number(value),
        None => None,
    }
}

fn kind_at<K: Copy>(table: &Table, key: JobKey, names: &[(&str, K)]) -> Option<K>
    ensures { result ≡ said (kind_in (entries names.now)) key (table_view table.now) }
{
    match table.get(key.text()) {
        Some(value) => kind(value, names),
        None => None,
    }
}

fn texts(alloc: Global, value: &Value) -> Result<Option<Patterns>, Memory>
    ensures { IfOk result (λ p. p ≡ texts_in (view value.now)) }
{
    let Some(items) = value.as_array() else {
        return Ok(None);
    };
    let mut texts = Patterns::new(alloc);
    for item in items {
        match item.as_str() {
            Some(text) => texts.push(text.as_bytes())?,
            None => return Ok(None),
        }
    }
    Ok(Some(texts))
}

fn texts_at(alloc: Global, table: &Table, key: JobKey) -> Result<Option<Patterns>, Memory>
    ensures { IfOk result (λ p. p ≡ said texts_in key (table_view table.now)) }
{
    match table.get(key.text()) {
        Some(value) => texts(alloc, value),
        None => Ok(None),
    }
}

impl Values {
    /// Reads each key.
    pub fn read(alloc: Global, table: &Table) -> Result<Values, Memory>
        ensures { IfOk result (λ v. v ≡ values_of (table_view table.now)) }
    {
        let patterns = texts_at(alloc, table, JobKey::Patterns)?;
        Ok(Values {
            job: kind_at(table, JobKey::Job, &JOB_NAMES),
            container: kind_at(table, JobKey::Container, &CONTAINER_NAMES),
            capacity: number_at(table, JobKey::Capacity),
            combiner: kind_at(table, JobKey::Combiner, &COMBINER_NAMES),
            reducer: kind_at(table, JobKey::Reducer, &REDUCER_NAMES),
            keys: kind_at(table, JobKey::Keys, &KEY_NAMES),
            queue: kind_at(table, JobKey::Queue, &QUEUE_NAMES),
            partitions: number_at(table, JobKey::Partitions),
            chunk: number_at(table, JobKey::Chunk),
            clusters: number_at(table, JobKey::Clusters),
            rounds: number_at(table, JobKey::Rounds),
            patterns,
        })
    }
}
