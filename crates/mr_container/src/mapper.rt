ghost use Rattle.std.specs.Prelude.{◌≡◌, ℕ, ◌<◌, ◌++◌, List, take, OnOk, OnErr};
ghost use Rattle.std.specs.List.{flat_map, range_with_len};
ghost use Rattle.mr_defs.specs.Emission.{Emission};

use crate::local::Local;
use mr_base::{Emitted, Key, Memory};
use std::alloc::Global;

/// A job's tasks, each of which emits into a local.
pub trait Mapper {
    type Key: Key;

    type Value: Emitted;

    ghost task_count: { Self → ℕ };

    /// What a task emits, in its order.
    ghost task_emissions: { Self → ℕ → List (Emission Self.Key Self.Value) };

    /// The number of tasks.
    fn tasks(&self) -> u32
        ensures { result ≡ task_count self.now };

    /// Emits what the task has, in its order. After `Memory` a front of that was emitted.
    fn map<L: Local<Key = Self::Key, Value = Self::Value>>(
        &self,
        alloc: Global,
        task: u32,
        out: &mut L,
    ) -> Result<(), Memory>
        requires { task < task_count self.now }
        ensures ok { OnOk result
            ((es : List (Emission Self.Key Self.Value)) → L.stands out.old es → L.stands out.new (es ++ task_emissions self.now task)) }
        ensures err { OnErr result
            ((es : List (Emission Self.Key Self.Value)) → L.stands out.old es
            → (n : ℕ) × L.stands out.new (es ++ take n (task_emissions self.now task))) }
        ensures origin { L.same_origin out.old out.new };
}

/// Maps all tasks in their order. After `Memory` a front of what they emit was emitted.
pub fn map_all<L: Local, M: Mapper<Key = L::Key, Value = L::Value>>(
    alloc: Global,
    mapper: &M,
    out: &mut L,
) -> Result<(), Memory>
    ensures ok { OnOk result ((es : List (Emission L.Key L.Value)) → L.stands out.old es
        → L.stands out.new (es ++ flat_map (M.task_emissions mapper.now) (range_with_len 0 (M.task_count mapper.now)))) }
    ensures err { OnErr result ((es : List (Emission L.Key L.Value)) → L.stands out.old es
        → (n : ℕ) × L.stands out.new (es ++ take n (flat_map (M.task_emissions mapper.now) (range_with_len 0 (M.task_count mapper.now))))) }
    ensures origin { L.same_origin out.old out.new }
{
    for task in 0..mapper.tasks() {
        mapper.map(alloc, task, out)?;
    }
    Ok(())
}
