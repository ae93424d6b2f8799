ghost use Rattle.std.specs.Prelude.{◌≡◌, ◌⊎◌, IfOk, IfErr, IfSome, None, Ok, Some, false, is_some, true};
ghost use Rattle.mr_command.specs.Form.{form};
ghost use Rattle.mr_outside.specs.Count.{Rose};
ghost use Rattle.mr_top.specs.Halts.{Halts, IsMemory, IsOfJob, IsPastWords, IsUsage, ReadCause};
ghost use Rattle.mr_top.specs.Means.{Means, ReadAlone, Tells};
ghost use Rattle.mr_top.specs.Reports.{IsOfWords, Reports, reports};
ghost use Rattle.mr_top.specs.RunEnding.{reads_inputs, run_ending, status_of};
ghost use Rattle.mr_top.specs.Stages.{ComesTo, Contents};

use crate::finished::{Finished, written};
use crate::halt::Halt;
use crate::modes::commanded;
use mr_base::{Status, Stop, Word};
use mr_command::read_command;
use mr_jobs::Workers;
use mr_outside::{Gate, Shelf, Sink, put_all};
use std::alloc::Global;
use std::thread::Threads;

// Does what the words ask, up to the first write.
fn carried_out<T: Threads + Sync, H: Shelf, G: Gate + Sync>(
    rt: &T,
    alloc: Global,
    words: &[Word],
    shelf: &mut H,
    gate: &G,
) -> Result<Finished, Halt>
    ensures ok { IfOk result (λ o. ComesTo (H.contents shelf.old) (run_ending words.now) (Ok o.text)) }
    ensures err { IfErr result (λ h. Halts h (H.contents shelf.old) (run_ending words.now) (H.count shelf.old)
        (H.count shelf.new)) }
    ensures formed { IfOk result (λ o. is_some (form words.now) ≡ true) }
    ensures usage { IfErr result (λ h. IsUsage h → form words.now ≡ None) }
    ensures behind { IfErr result (λ h. IsUsage h ⊎ IsPastWords h) }
    ensures no_form { IfErr result (λ h. form words.now ≡ None → IsUsage h ⊎ IsMemory h) }
    ensures started { IfErr result (λ h. IsOfJob h → H.is_started shelf.new ≡ true) }
    ensures named { IfErr result (λ h. IsOfJob h → is_some (H.contents shelf.old) ≡ true → IfSome
        (form words.now) (λ f. H.started shelf.new ≡ f.job)) }
    ensures alone { IfOk result (λ o. IfSome (form words.now) (λ f. reads_inputs f.mode ≡ false
        → ReadAlone (H.contents shelf.old) f.job (H.is_started shelf.new) (H.started shelf.new) (H.place shelf.new))) }
    ensures report { IfOk result (λ o. Reports (reports words.now) (IsOfWords (H.contents shelf.old) words.now) o.report) }
{
    match read_command(alloc, words) {
        Ok(command) => {
            let workers = Workers::of(rt, alloc, gate, command.workers, command.report);
            commanded(&workers, &command, shelf)
        }
        Err(Stop::Refused(_)) => Err(Halt::Usage),
        Err(Stop::Memory) => Err(Halt::Memory),
    }
}

/// Runs the command that the words ask for, of which the first is the program's name and means nothing.
///
/// The words are read, then the job file, with at most 65536 bytes; in the mode `check` that is all. Then the inputs are counted and read
/// whole in their order, each with at most 134217728 bytes, and the job runs on them; in the mode `generate` it runs on the text that is
/// generated, whose summary is what is written. The run ends by the first refusal that is met, whose line is written to `err`. The output
/// text and the report are built before the first write to `out`; the report is written to `err` once the text is out.
///
/// Contents are the shelf's, where it tells them; `run_ending` is the definition. What `err` does changes no status.
pub fn run<R: Threads + Sync, H: Shelf, O: Sink, E: Sink, G: Gate + Sync>(
    rt: &R,
    alloc: Global,
    words: &[Word],
    shelf: &mut H,
    out: &mut O,
    err: &mut E,
    gate: &G,
) -> Status
    // How the definition ends, and what the output gained by it, and the error output: after Done the report, where it is asked for.
    ensures ends { Means result (H.contents shelf.old) words.now (O.held out.old) (O.held out.new) }
    ensures lines { Tells result (H.contents shelf.old) words.now (E.held err.old) (E.held err.new)
        (E.count err.old) (E.count err.new) }

    // The words alone decide on Usage, whatever the shelf tells.
    ensures usage { result ≡ Status.Usage → form words.now ≡ None }
    ensures no_form { form words.now ≡ None → (result ≡ Status.Usage) ⊎ (result ≡ Status.Memory) }

    // A refused job was the last name that was started.
    ensures job_started { result ≡ Status.Job → H.is_started shelf.new ≡ true }
    ensures job_named { result ≡ Status.Job → is_some (H.contents shelf.old) ≡ true → IfSome
        (form words.now) (λ f. H.started shelf.new ≡ f.job) }

    // Faults of reading and writing have a cause.
    ensures read { result ≡ Status.ReadFault → ReadCause (H.contents shelf.old) (run_ending words.now)
        (H.count shelf.old) (H.count shelf.new) }
    ensures write { result ≡ Status.WriteFault → Rose (O.count out.old) (O.count out.new) }

    // Where contents are told and no count rose, the status is the definition's, or memory was wanted.
    ensures exact { (content : Contents) → H.contents shelf.old ≡ Some content
        → (Rose (H.count shelf.old) (H.count shelf.new) → ⊥) → (Rose (O.count out.old) (O.count out.new) → ⊥)
        → (result ≡ status_of (run_ending words.now content)) ⊎ (result ≡ Status.Memory) }
    // To check a job, or to run it on a generated text, is to read its file whole, and nothing more.
    ensures alone { result ≡ Status.Done → IfSome (form words.now) (λ f. reads_inputs f.mode ≡ false
        → ReadAlone (H.contents shelf.old) f.job (H.is_started shelf.new) (H.started shelf.new) (H.place shelf.new)) }
{
    match carried_out(rt, alloc, words, shelf, gate) {
        Ok(finished) => written(&finished, out, err),
        Err(halt) => {
            let _ = put_all(err, halt.line());
            halt.status()
        }
    }
}
