//! The program `mapred`: it runs the command of its words over the files of the machine.
//!
//! The words are handed to `mr_top::run` with a shelf of files, the standard output and the standard error; the exit status is the code of
//! the status that `run` answers. Nothing is decided here but what to do where the words can't be had: status 2 where one is no text, and
//! 10 where there is no memory for them.
#![tactic(auto)]

ghost use Rattle.std.specs.Prelude.{◌≡◌, map, string_bytes, IfOk};
ghost use Rattle.std.specs.Process.{exit_status};
ghost use Rattle.mr_base.specs.Codes.{code_of};
ghost use Rattle.mapred.specs.Ends.{EndsAs};

use mr_base::{Memory, Status, Word};
use mr_outside::{FileShelf, PassGate, Shelf, Sink, StdSink, put_all};
use mr_top::{MEMORY_LINE, USAGE_LINE, run};
use std::alloc::{AllocError, Global};
use std::io::{ErrorKind, Write};
use std::process::ExitCode;
use std::thread::Threads;

// The words are these texts.
fn words_of(alloc: Global, texts: &[String]) -> Result<Vec<Word>, Memory>
    ensures { IfOk result (λ words. words.items ≡ map string_bytes texts.now) }
{
    let mut words = Vec::new(alloc);
    for text in texts {
        words.push(Word::of(alloc, text.as_str())?)?;
    }
    Ok(words)
}

// The exit status of a program that ends so.
fn exit(status: Status) -> ExitCode
    ensures { exit_status result ≡ code_of status }
{
    ExitCode::from(status.code())
}

// Ends without a run, with the line that says so.
fn ended<W: Write + Drop>(err: W, line: &[u8], status: Status) -> ExitCode
    ensures { exit_status result ≡ code_of status }
{
    let mut err = StdSink::new(err);
    let _ = put_all(&mut err, line);
    exit(status)
}

// Runs the command that these texts are, and ends with the code of its status.
fn ran<R: Threads + Sync, H: Shelf, O: Sink, E: Sink>(
    rt: &R,
    alloc: Global,
    texts: &[String],
    shelf: &mut H,
    out: &mut O,
    err: &mut E,
) -> ExitCode
    ensures { EndsAs (exit_status result) (H.contents shelf.old) (map string_bytes texts.now) (O.held out.old) (O.held out.new)
        (E.held err.old) (E.held err.new) (E.count err.old) (E.count err.new) }
{
    let Ok(words) = words_of(alloc, texts) else {
        let _ = put_all(err, MEMORY_LINE);
        return exit(Status::Memory);
    };
    let status = run(rt, alloc, &words, shelf, out, err, &PassGate::new());
    exit(status)
}

fn main(rt: HostRuntime) -> ExitCode {
    let alloc = rt.alloc();
    let args = match std::env::args(&rt) {
        Ok(args) => args,
        Err(error) if error.kind() == ErrorKind::OutOfMemory => return ended(
            rt.stderr(),
            MEMORY_LINE,
            Status::Memory,
        ),
        Err(_) => return ended(rt.stderr(), USAGE_LINE, Status::Usage),
    };
    let collected: Result<Vec<String>, AllocError> = args.collect(alloc);
    let Ok(texts) = collected else {
        return ended(rt.stderr(), MEMORY_LINE, Status::Memory);
    };
    let mut shelf = FileShelf::new(&rt);
    let mut out = StdSink::new(rt.stdout());
    let mut err = StdSink::new(rt.stderr());
    ran(&rt, alloc, texts.as_slice(), &mut shelf, &mut out, &mut err)
}
