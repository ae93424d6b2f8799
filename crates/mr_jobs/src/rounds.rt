ghost use Rattle.std.specs.Prelude.{◌≡◌, ℕ, Bool, List, Option, IfOk, Ok, decimal, false, length};
ghost use Rattle.std.specs.Borrow.{Bor};
ghost use Rattle.std.specs.List.{range_with_len};
ghost use Rattle.std.specs.Ordering.{nat_cmp};
ghost use Rattle.mr_defs.specs.Emission.{Answer, Emission, Row};
ghost use Rattle.mr_defs.specs.Rounds.{Next, round_of, rounds_of, states_of};
ghost use Rattle.mr_defs.specs.Tasks.{spans_of};
ghost use Rattle.mr_jobs.specs.Ending.{ended_by};
ghost use Rattle.mr_jobs.specs.Meaning.{inside_of};
ghost use Rattle.mr_jobs.specs.Meets.{IsOfInputs, MeetsSeen, texted};
ghost use Rattle.mr_jobs.specs.Reported.{reported};
ghost use Rattle.mr_jobs.specs.Sequels.{LeadsTo, next_of};
ghost use Rattle.mr_jobs.specs.RoundOf.{IsRoundOfSpans};
ghost use Rattle.mr_jobs.specs.Shares.{AreLawfulRounds, IsSpanRound, all_of, task_at};
ghost use Rattle.mr_report.specs.Shown.{rounds_seen, workers_of};

use crate::output::Output;
use crate::phases::Round;
use crate::refusal::{Refusal, refused_fault};
use crate::workers::Workers;
use mr_base::{Emitted, Fault, Few, Memory, NumKey, Rows, Stop, Text};
use mr_jobfile::Job;
use mr_merge::merge_all;
use mr_report::Share;
use std::alloc::Global;
use std::thread::Threads;

/// What a round leads to: another round, in this state, or the text of the job.
#[derive(Drop)]
pub(crate) enum Sequel<S> {
    Again(S),
    Ended(Text),
}

/// A job of several rounds over numbered items, by number keys.
pub(crate) trait Rounds {
    /// What a round is passed by the one before.
    type State: Drop;

    type Value: Emitted;

    /// How many items there are.
    ghost count: { Self → ℕ };

    /// A state that a round can start from.
    ghost fits: { Self → Self.State → Type 0 };

    /// What the values of a key fold to.
    ghost folded: { List Self.Value → Option Answer };

    /// What an item emits in a state.
    ghost emits: { Self → Self.State → ℕ → List (Emission ℕ Self.Value) };

    /// What the rows of a round in a state lead to.
    ghost next: { Self → Self.State → List (Row ℕ) → Next Self.State };

    /// What the rows of a round in a state lead to.
    fn sequel(
        &self,
        alloc: Global,
        state: &Self::State,
        rows: &Rows<NumKey>,
    ) -> Result<Sequel<Self::State>, Memory>
        requires fits { fits self.now state.now }
        requires rows { (inside : ℕ → Bool)
            × (round_of nat_cmp inside false folded (all_of (emits self.now state.now) (count self.now)) ≡ Ok rows.now) }
        ensures next { IfOk result (λ o. next_of o ≡ next self.now state.now rows.now) }
        ensures fits { IfOk result (LeadsTo (fits self.now)) };
}

// A round in a state, which the closure runs.
fn one_round<T, G, R: Rounds, F: Fn(&R::State) -> Result<Round<NumKey>, Stop<Fault<NumKey>>>>(
    workers: &Workers<T, G>,
    job: &Job,
    rounds: &R,
    round: &F,
    state: &R::State,
) -> Result<Round<NumKey>, Stop<Fault<NumKey>>>
    requires fits { R.fits rounds.now state.now }
    requires may { (s : Bor R.State) → R.fits rounds.now s.now → F.pre round.now s }
    requires gives { (s : Bor R.State) (r : _) → R.fits rounds.now s.now → F.post round.now s r
        → IsRoundOfSpans (inside_of job.now.container job.now.capacity) false R.folded (reported workers.now)
        job.now.chunk (R.count rounds.now) (R.emits rounds.now s.now) r }
    ensures { IsRoundOfSpans (inside_of job.now.container job.now.capacity) false R.folded
        (reported workers.now) job.now.chunk (R.count rounds.now) (R.emits rounds.now state.now) result }
{
    round(state)
}

// One round, and what its rows lead to, beside what each worker did in it.
fn step<
    T: Threads + Sync,
    G,
    R: Rounds,
    F: Fn(&R::State) -> Result<Round<NumKey>, Stop<Fault<NumKey>>>,
>(
    workers: &Workers<T, G>,
    job: &Job,
    rounds: &R,
    round: &F,
    state: &R::State,
) -> Result<(Sequel<R::State>, Few<Share>), Stop<Refusal>>
    requires fits { R.fits rounds.now state.now }
    requires may { (s : Bor R.State) → R.fits rounds.now s.now → F.pre round.now s }
    requires gives { (s : Bor R.State) (r : _) → R.fits rounds.now s.now → F.post round.now s r
        → IsRoundOfSpans (inside_of job.now.container job.now.capacity) false R.folded (reported workers.now)
        job.now.chunk (R.count rounds.now) (R.emits rounds.now s.now) r }
    ensures ending { MeetsSeen (λ o. next_of o.0) (ended_by decimal (texted (R.next rounds.now state.now)
        (round_of nat_cmp (inside_of job.now.container job.now.capacity) false R.folded
        (all_of (R.emits rounds.now state.now) (R.count rounds.now))))) result }
    ensures fits { IfOk result (λ o. LeadsTo (R.fits rounds.now) o.0) }
    ensures of_inputs { IsOfInputs result }
    ensures shares { IfOk result (λ o. IsSpanRound (inside_of job.now.container job.now.capacity) (reported workers.now)
        job.now.chunk (R.count rounds.now) (R.emits rounds.now state.now) (workers_of o.1.items)) }
{
    match one_round(workers, job, rounds, round, state) {
        Ok(Round { lists, shares }) => {
            let rows = merge_all(workers.rt, workers.alloc, lists)?;
            let sequel = rounds.sequel(workers.alloc, state, &rows)?;
            Ok((sequel, shares))
        }
        Err(Stop::Refused(fault)) => Err(Stop::Refused(refused_fault(workers.alloc, &fault)?)),
        Err(Stop::Memory) => Err(Stop::Memory),
    }
}

/// Runs the rounds of a job from its first state on, no more than so many: each on queues and in containers of its own. The first fault of
/// the first round that has one is the refusal.
///
/// This is the one place where rounds are repeated.
pub(crate) fn run_rounds<
    T: Threads + Sync,
    G,
    R: Rounds,
    F: Fn(&R::State) -> Result<Round<NumKey>, Stop<Fault<NumKey>>> + Drop,
>(
    workers: &Workers<T, G>,
    job: &Job,
    rounds: &R,
    round: F,
    most: u32,
    first: R::State,
) -> Result<Output, Stop<Refusal>>
    requires fits { R.fits rounds.now first }
    requires may { (s : Bor R.State) → R.fits rounds.now s.now → F.pre round s }
    requires gives { (s : Bor R.State) (r : _) → R.fits rounds.now s.now → F.post round s r
        → IsRoundOfSpans (inside_of job.now.container job.now.capacity) false R.folded (reported workers.now)
        job.now.chunk (R.count rounds.now) (R.emits rounds.now s.now) r }
    ensures ending { MeetsSeen (λ o. o.text) (ended_by decimal
        (rounds_of nat_cmp (inside_of job.now.container job.now.capacity) false R.folded
        (λ s. all_of (R.emits rounds.now s) (R.count rounds.now)) (R.next rounds.now) most first)) result }
    ensures of_inputs { IsOfInputs result }
    ensures shares { IfOk result (λ o. AreLawfulRounds nat_cmp (inside_of job.now.container job.now.capacity) (reported workers.now)
        (length (spans_of job.now.chunk (R.count rounds.now)))
        (λ s. task_at (R.emits rounds.now s) (range_with_len 0 (R.count rounds.now)) (spans_of job.now.chunk (R.count rounds.now)))
        (states_of nat_cmp (inside_of job.now.container job.now.capacity) false R.folded
        (λ s. all_of (R.emits rounds.now s) (R.count rounds.now)) (R.next rounds.now) most first)
        (rounds_seen o.rounds.items)) }
{
    let mut report = Few::with_room(workers.alloc, 0)?;
    let mut state = first;
    for _ in 0..most {
        let (sequel, shares) = match step(workers, job, rounds, &round, &state) {
            Ok(led) => led,
            Err(stop) => return Err(stop),
        };
        report.room()?;
        report.push(shares);
        match sequel {
            Sequel::Again(next) => state = next,
            Sequel::Ended(text) => {
                return Ok(Output {
                    text,
                    rounds: report,
                });
            }
        }
    }
    Ok(Output {
        text: Text::new(workers.alloc),
        rounds: report,
    })
}
