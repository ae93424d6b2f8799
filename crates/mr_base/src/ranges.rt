ghost use Rattle.std.specs.Prelude.{◌≡◌, ◌<◌, ◌≤◌, ◌+◌, length, slice_get, Some, IfOk};
ghost use Rattle.mr_defs.specs.Tasks.{most_tasks};
ghost use Rattle.mr_base.specs.Tasks.{start_of, ranges_of, total_of};

use crate::few::Few;
use crate::memory::Memory;
use std::alloc::Global;
use std::marker::Model;

/// Which tasks each queue has, seen as the list of their stretches: the first task of the queue, and the one behind its last.
#[derive(Drop)]
pub struct Ranges {
    kept: Few<(u32, u32)>,
    tasks: u32,
}

impl Model for Ranges {
    ghost use Rattle.std.specs.Prelude.{◌≡◌, ◌≤◌, ◌<◌, List, length};
    ghost use Rattle.mr_defs.specs.Tasks.{Stretch, most_tasks};
    ghost use Rattle.mr_base.specs.Tasks.{ranges_of};

    ghost Value = { List Stretch };

    ghost view = { λ r. r.kept.items };

    ghost invariant = { λ r. (r.kept.items ≡ ranges_of r.tasks (length r.kept.items)) × (r.tasks ≤ most_tasks) × (0 < length r.kept.items)
        × (length r.kept.items ≤ 32) };
}

// The first of so many tasks that queue `q` has; for the number of queues, the number of tasks.
fn start(tasks: u32, queues: u32, q: u32) -> u32
    requires { (0 < queues) × (q ≤ queues) }
    ensures { result ≡ start_of tasks queues q }
{
    (u64::from(q) * u64::from(tasks) / u64::from(queues)) as u32
}

impl Ranges {
    /// At most 1048576 tasks among 1 to 32 queues, split as evenly as their number allows: queue `q` has those from `q * tasks / queues`,
    /// rounded down, up to but not including `(q + 1) * tasks / queues`.
    pub fn even(alloc: Global, tasks: u32, queues: u32) -> Result<Ranges, Memory>
        requires { (tasks ≤ most_tasks) × (0 < queues) × (queues ≤ 32) }
        ensures split { IfOk result (λ r. r ≡ ranges_of tasks queues) }
        ensures counts { IfOk result (λ r. (total_of r ≡ tasks) × (length r ≡ queues)) }
    {
        let mut kept = Few::with_room(alloc, queues)?;
        for q in 0..queues {
            kept.push((start(tasks, queues, q), start(tasks, queues, q + 1)));
        }
        Ok(Ranges { kept, tasks })
    }

    /// The same ranges once more.
    pub fn copy(&self, alloc: Global) -> Result<Ranges, Memory>
        ensures same { IfOk result (λ r. r ≡ self.now) }
        ensures bounds { (total_of self.now ≤ most_tasks) × (0 < length self.now) × (length self.now ≤ 32) }
    {
        Ranges::even(alloc, self.tasks, self.queues())
    }

    /// How many tasks there are in all.
    pub fn total(&self) -> u32
        ensures total { result ≡ total_of self.now }
        ensures most { result ≤ most_tasks }
    {
        self.tasks
    }

    /// How many queues there are.
    pub fn queues(&self) -> u32
        ensures count { result ≡ length self.now }
        ensures few { (0 < result) × (result ≤ 32) }
    {
        self.kept.len() as u32
    }

    /// The first task of queue `q`, and the one behind its last.
    pub fn range(&self, q: u32) -> (u32, u32)
        requires { q < length self.now }
        ensures listed { slice_get self.now q ≡ Some result }
        ensures even { (result.0 ≡ start_of (total_of self.now) (length self.now) q)
            × (result.1 ≡ start_of (total_of self.now) (length self.now) (q + 1)) }
    {
        *self.kept.get(q as usize)
    }
}
