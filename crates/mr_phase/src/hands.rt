ghost use Rattle.std.specs.Prelude.{◌≡◌, ◌<◌, ◌++◌, ◌∷◌, [], ℕ, List, All, true, IfOk, OnOk, map, flat_map, reverse};
ghost use Rattle.mr_defs.specs.Emission.{Emission};
ghost use Rattle.mr_defs.specs.Rows.{cells_of};
ghost use Rattle.mr_phase.specs.Held.{HoldsFor, hands_held};

use mr_base::{Few, Memory};
use mr_container::{Local, Mapper, Parted};
use std::alloc::Global;
use std::mem;

/// Tasks of one worker in the order in which it took them, and the local into which they emitted.
#[derive(Drop)]
pub struct Hand<L> {
    pub tasks: Few<u32>,
    pub local: L,
}

impl<L: Parted> Hand<L> {
    /// How many different keys inside the hand's tasks emitted.
    pub fn cells(&self) -> u64
        ensures count { result ≡ L.cell_count self.now.local }
        ensures emitted { (es : List (Emission L.Key L.Value)) → L.stands self.now.local es → result ≡ cells_of L.Key.cmp L.inside es }
    {
        self.local.cells()
    }
}

// What a worker holds during a map phase: the hands that it gave away, and its tasks since then with the local into which they emit.
#[derive(Drop)]
pub(crate) struct Held<L> {
    hands: Few<Hand<L>>,
    tasks: Few<u32>,
    local: L,
}

impl<L: Local> Held<L> {
    // Maps a task, into the local. Where `spills`, that may be given away afterwards.
    pub(crate) fn map<M: Mapper<Key = L::Key, Value = L::Value>>(
        &mut self,
        alloc: Global,
        mapper: &M,
        task: u32,
        spills: bool,
    ) -> Result<(), Memory>
        requires { task < M.task_count mapper.now }
        ensures ok { OnOk result ((tasks : List ℕ) → HoldsFor spills L.stands (M.task_emissions mapper.now) self.old tasks
            → HoldsFor spills L.stands (M.task_emissions mapper.now) self.new (tasks ++ task ∷ [])) }
        ensures origin { L.same_origin self.old.local self.new.local }
    {
        self.tasks.room()?;
        self.tasks.push(task);
        mapper.map(alloc, task, &mut self.local)?;
        if spills {
            self.spill(alloc)?;
        }
        Ok(())
    }

    // Gives the local away where it spills, as a hand with the tasks for which it stands. The worker goes on with no task.
    fn spill(&mut self, alloc: Global) -> Result<(), Memory>
        ensures ok { OnOk result ((emits : ℕ → List (Emission L.Key L.Value)) (tasks : List ℕ)
            → HoldsFor true L.stands emits self.old tasks → HoldsFor true L.stands emits self.new tasks) }
        ensures origin { L.same_origin self.old.local self.new.local }
    {
        self.hands.room()?;
        let none = Few::with_room(alloc, 0)?;
        if let Some(local) = self.local.spill(alloc)? {
            let tasks = mem::replace(&mut self.tasks, none);
            self.hands.push(Hand { tasks, local });
        }
        Ok(())
    }
}

// The locals in their order, each held for no task.
pub(crate) fn hold_each<L: Drop>(alloc: Global, mut locals: Few<L>) -> Result<Few<Held<L>>, Memory>
    ensures locals { IfOk result (λ helds. map (λ held. held.local) helds.items ≡ locals.items) }
    ensures new { IfOk result (λ helds. All (λ held. (held.hands.items ≡ []) × (held.tasks.items ≡ [])) helds.items) }
{
    let mut helds = Few::with_room(alloc, 0)?;
    while let Some(local) = locals.pop() {
        helds.room()?;
        helds.push(Held {
            hands: Few::with_room(alloc, 0)?,
            tasks: Few::with_room(alloc, 0)?,
            local,
        });
    }
    turned(alloc, helds)
}

// The hands of all workers in their order: of each those that it gave away, and then the last one.
pub(crate) fn hands_of<L: Drop>(
    alloc: Global,
    mut workers: Few<Hand<Held<L>>>,
) -> Result<Few<Hand<L>>, Memory>
    ensures { IfOk result (λ hands. hands.items ≡ flat_map (λ w. hands_held w.local) workers.items) }
{
    let mut hands = Few::with_room(alloc, 0)?;
    while let Some(worker) = workers.pop() {
        let held = worker.local;
        hands.room()?;
        hands.push(Hand {
            tasks: held.tasks,
            local: held.local,
        });
        put_turned(held.hands, &mut hands)?;
    }
    turned(alloc, hands)
}

// The same items, the last first.
pub(crate) fn turned<T: Drop>(alloc: Global, items: Few<T>) -> Result<Few<T>, Memory>
    ensures { IfOk result (λ r. r.items ≡ reverse items.items) }
{
    let mut turned = Few::with_room(alloc, 0)?;
    put_turned(items, &mut turned)?;
    Ok(turned)
}

// Puts items behind others, the last first.
fn put_turned<T: Drop>(mut items: Few<T>, onto: &mut Few<T>) -> Result<(), Memory>
    ensures { OnOk result (onto.new.items ≡ onto.old.items ++ reverse items.items) }
{
    while let Some(item) = items.pop() {
        onto.room()?;
        onto.push(item);
    }
    Ok(())
}
