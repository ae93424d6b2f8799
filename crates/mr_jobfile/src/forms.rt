ghost use Rattle.std.specs.Prelude.{◌≡◌, ◌&&◌, length};
ghost use Rattle.std.specs.List.{list_all};
ghost use Rattle.toml.specs.Data.{as_str, get_member};
ghost use Rattle.toml.specs.View.{table_view, view};
ghost use Rattle.mr_capacity.specs.Names.{entries};
ghost use Rattle.mr_jobfile.specs.Forms.{first_bad, fits, is_bad, is_there, kind_in, number_in, texts_in};
ghost use Rattle.mr_jobfile.specs.Ranges.{are_patterns, is_pattern, is_within, most_patterns};

use crate::key::{ALL_KEYS, JobKey};
use mr_capacity::{
    COMBINER_NAMES, CONTAINER_NAMES, JOB_NAMES, KEY_NAMES, QUEUE_NAMES, REDUCER_NAMES,
    capacity_allowed, named,
};
use toml::{Table, Value};

/// A whole number of 32 bits.
pub fn number(value: &Value) -> Option<u32>
    ensures { result ≡ number_in (view value.now) }
{
    match value.as_integer() {
        Some(n) => u32::try_from(n).ok(),
        None => None,
    }
}

/// The kind that a text names.
pub fn kind<K: Copy>(value: &Value, names: &[(&str, K)]) -> Option<K>
    ensures { result ≡ kind_in (entries names.now) (view value.now) }
{
    match value.as_str() {
        Some(text) => named(names, text),
        None => None,
    }
}

fn is_within(low: usize, high: usize, n: usize) -> bool
    ensures { result ≡ is_within low high n }
{
    low <= n && n <= high
}

fn is_number_within(value: &Value, low: usize, high: usize) -> bool
    ensures { result ≡ is_there (is_within low high) (number_in (view value.now)) }
{
    match number(value) {
        Some(n) => is_within(low, high, n as usize),
        None => false,
    }
}

fn is_capacity(value: &Value) -> bool
    ensures { result ≡ fits JobKey.Capacity (view value.now) }
{
    match number(value) {
        Some(n) => capacity_allowed(i64::from(n)),
        None => false,
    }
}

fn is_pattern(value: &Value) -> bool
    ensures { result ≡ is_there is_pattern (as_str (view value.now)) }
{
    match value.as_str() {
        Some(text) => is_within(1, 64, text.len()) && !text.as_bytes().contains(&b'\n'),
        None => false,
    }
}

fn each_is_pattern(items: &[Value]) -> bool
    ensures { result ≡ list_all (λ v. is_there is_pattern (as_str (view v))) items.now }
{
    items.iter().all(is_pattern)
}

fn has_patterns(items: &[Value]) -> bool
    ensures { result ≡ (is_within 1 most_patterns (length items.now) && list_all (λ v. is_there is_pattern (as_str (view v))) items.now) }
{
    is_within(1, 16, items.len()) && each_is_pattern(items)
}

fn are_patterns(value: &Value) -> bool
    ensures { result ≡ is_there are_patterns (texts_in (view value.now)) }
{
    match value.as_array() {
        Some(items) => has_patterns(items),
        None => false,
    }
}

fn fits(key: JobKey, value: &Value) -> bool
    ensures { result ≡ fits key (view value.now) }
{
    match key {
        JobKey::Version => is_number_within(value, 1, 1),
        JobKey::Job => kind(value, &JOB_NAMES).is_some(),
        JobKey::Container => kind(value, &CONTAINER_NAMES).is_some(),
        JobKey::Capacity => is_capacity(value),
        JobKey::Combiner => kind(value, &COMBINER_NAMES).is_some(),
        JobKey::Reducer => kind(value, &REDUCER_NAMES).is_some(),
        JobKey::Keys => kind(value, &KEY_NAMES).is_some(),
        JobKey::Queue => kind(value, &QUEUE_NAMES).is_some(),
        JobKey::Partitions => is_number_within(value, 1, 64),
        JobKey::Chunk => is_number_within(value, 1, 16777216),
        JobKey::Clusters => is_number_within(value, 1, 64),
        JobKey::Rounds => is_number_within(value, 1, 1000),
        JobKey::Patterns => are_patterns(value),
    }
}

fn is_bad(table: &Table, key: JobKey) -> bool
    ensures { result ≡ is_bad (table_view table.now) key }
{
    match table.get(key.text()) {
        Some(value) => !fits(key, value),
        None => false,
    }
}

/// The first key whose value it may not have.
pub fn first_bad(table: &Table) -> Option<JobKey>
    ensures { result ≡ first_bad (table_view table.now) }
{
    ALL_KEYS.iter().copied().find(|key| is_bad(table, *key))
}
